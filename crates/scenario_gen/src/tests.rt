//! Scenarios of two seeds, worked out by hand from the rule. Calls stand in functions of their own, so that no proof computes
//! a whole script.
ghost use Rattle.std.specs.Prelude.{◌≤◌};

use super::{Generated, generate};
use machine_setup::{Input, Line, Script, Setup};
use of10_match::{Header, Packet};
use std::alloc::{AllocError, Global};
use std::test::Fail;

// What a line does: a host sends to a MAC address, a link goes down or comes up, or seconds pass.
#[derive(Clone, Copy, Debug, PartialEq, Eq)]
enum Deed {
    Send(u16, u64),
    Down(u16),
    Up(u16),
    Wait(u32),
    Other,
}

fn deed_of(line: &Line) -> Deed {
    match line.input {
        Input::Inject { host, packet } => Deed::Send(host, packet.header.dl_dst),
        Input::LinkDown(link) => Deed::Down(link),
        Input::LinkUp(link) => Deed::Up(link),
        Input::Seconds(n) => Deed::Wait(n),
        _ => Deed::Other,
    }
}

// The script of a seed.
fn script_of(alloc: Global, seed: u64, size: u16) -> Result<Script, AllocError>
    requires least { 3 ≤ size }
    requires most { size ≤ 64 }
{
    let Generated { setup, .. } = generate(alloc, seed, size)?;
    let Setup { script, .. } = setup;
    Ok(script)
}

// What each line does.
fn deeds_of(alloc: Global, script: &Script) -> Result<Vec<Deed>, AllocError> {
    let mut deeds = Vec::new(alloc);
    for line in script.iter() {
        deeds.push(deed_of(line))?;
    }
    Ok(deeds)
}

fn packet_in(line: Option<&Line>) -> Option<Packet> {
    match line?.input {
        Input::Inject { packet, .. } => Some(packet),
        _ => None,
    }
}

#[test]
fn three_switches_of_seed_0(rt: HostRuntime) -> Result<(), Fail> {
    let wanted = [
        Deed::Wait(5),
        Deed::Send(1, 3),
        Deed::Send(2, 3),
        Deed::Send(0, 2),
        Deed::Send(0, 2),
        Deed::Send(0, 2),
        Deed::Send(2, 2),
        Deed::Up(2),
        Deed::Wait(9),
    ];
    let script = script_of(rt.alloc(), 0, 3)?;
    let deeds = deeds_of(rt.alloc(), &script)?;
    assert_eq!(rt; deeds.as_slice(), wanted.as_slice());
    let header = Header {
        dl_src: 2,
        dl_dst: 3,
        dl_vlan: 65535,
        dl_vlan_pcp: 0,
        dl_type: 2048,
        nw_tos: 0,
        nw_proto: 17,
        nw_src: 2,
        nw_dst: 3,
        tp_src: 1000,
        tp_dst: 1,
    };
    let packet = packet_in(script.as_slice().get(1));
    assert_eq!(rt; packet, Some(Packet { header, tag: 1 }));
    Ok(())
}

#[test]
fn eight_switches_of_seed_7(rt: HostRuntime) -> Result<(), Fail> {
    let script = script_of(rt.alloc(), 7, 8)?;
    let deeds = deeds_of(rt.alloc(), &script)?;
    assert_eq!(rt; deeds.len(), 24);
    assert_eq!(rt; deeds.first().copied(), Some(Deed::Up(7)));
    assert_eq!(rt; deeds.get(5).copied(), Some(Deed::Down(2)));
    assert_eq!(rt; deeds.last().copied(), Some(Deed::Send(4, 4)));
    Ok(())
}
