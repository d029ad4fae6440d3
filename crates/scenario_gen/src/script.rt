//! The script that is drawn.
ghost use Rattle.std.specs.Prelude.{◌≡◌, ◌<◌, ◌≤◌, IfOk};
ghost use Rattle.scenario_gen.specs.Script.{datagram, input_by, line_by, script_of};

use crate::draws::Draws;
use listed::Listed;
use machine_setup::{Input, Line, Script};
use of10_match::{Header, Packet};
use std::alloc::{AllocError, Global};

/// Three lines for each switch, drawn one after the other.
#[tactic(auto, using(crate::proofs::Numbers::one_more, crate::proofs::States::next_line))]
pub(crate) fn script(alloc: Global, seed: u64, size: u16) -> Result<Script, AllocError>
    requires some { 0 < size }
    requires few { size ≤ 64 }
    ensures { IfOk result (λ script. script ≡ script_of seed size) }
{
    let mut draws = Draws { x: seed };
    let mut script = Listed::new(alloc);
    for k in 0..3 * size {
        script.push(line(&mut draws, size, k))?;
    }
    Ok(script)
}

/// Line `k`.
fn line(draws: &mut Draws, size: u16, k: u16) -> Line
    requires { 0 < size }
    ensures line { result ≡ (line_by size k draws.old.x).got }
    ensures state { draws.new.x ≡ (line_by size k draws.old.x).state }
{
    let kind = draws.below(8);
    Line {
        after_quiet: false,
        input: input(draws, size, k, kind),
    }
}

/// What line `k` does, by its kind.
fn input(draws: &mut Draws, size: u16, k: u16, kind: u16) -> Input
    requires { 0 < size }
    ensures input { result ≡ (input_by size k kind draws.old.x).got }
    ensures state { draws.new.x ≡ (input_by size k kind draws.old.x).state }
{
    match kind {
        0..=4 => {
            let from = draws.below(size);
            let to = draws.below(size);
            Input::Inject {
                host: from,
                packet: datagram(from, to, k),
            }
        }
        5 => Input::LinkDown(draws.below(size)),
        6 => Input::LinkUp(draws.below(size)),
        _ => Input::Seconds(1 + u32::from(draws.below(10))),
    }
}

/// A UDP datagram from a host to a host, marked by the number of its line.
fn datagram(from: u16, to: u16, k: u16) -> Packet
    ensures { result ≡ datagram from to k }
{
    let header = Header {
        dl_src: u64::from(from) + 1,
        dl_dst: u64::from(to) + 1,
        dl_vlan: 65535,
        dl_vlan_pcp: 0,
        dl_type: 0x0800,
        nw_tos: 0,
        nw_proto: 17,
        nw_src: u32::from(from) + 1,
        nw_dst: u32::from(to) + 1,
        tp_src: 1000,
        tp_dst: k,
    };
    Packet {
        header,
        tag: u32::from(k),
    }
}
