//! Look-ups in a flow table, and packets through a switch.
ghost use Rattle.std.specs.Prelude.{◌≡◌, ◌<◌, ◌^◌, IfOk};
ghost use Rattle.of10_match.specs.Header.{IsValidHeader};
ghost use Rattle.of10_messages.specs.Lengths.{actions_len};
ghost use Rattle.of10_messages.specs.Valid.{IsValidFlowMod};

use crate::figure::Figure;
use anyhow::Result;
use flow_table::{Command, TABLE_CAPACITY, Table, TableNo};
use of10_match::{Header, Match, Packet};
use of10_messages::{Action, FlowMod, Message, one_action};
use std::alloc::{AllocError, Global};
use std::time::{Clock, Instant};
use switch_core::Switch;

/// How many entries the table of the switch has.
const FEW: u64 = 16;

/// The priority of every entry.
const PRIORITY: u16 = 100;

/// The port by which packets come in, and the one that the entries send them out of.
const IN_PORT: u16 = 1;

const OUT_PORT: u16 = 2;

/// An address that no entry has.
const NOBODY: u64 = 5000;

/// The sums are over the addresses of the entries that were found.
#[derive(Clone, Copy, Debug)]
pub struct Figures {
    /// Packets that the first entry takes.
    pub first: Figure,
    /// Packets that the last one takes.
    pub last: Figure,
    /// Packets that none takes.
    pub none: Figure,
}

/// Adds the entry that sends all packets to an address out of a port.
pub(crate) fn mods_for(
    alloc: Global,
    address: u64,
    port: u16,
) -> std::result::Result<FlowMod, AllocError>
    requires { address < 2 ^ 48 }
    ensures valid { IfOk result (λ mods. IsValidFlowMod mods) }
    ensures len { IfOk result (λ mods. actions_len mods.actions ≡ 8) }
{
    let matches = Match {
        dl_dst: Some(address),
        ..Match::any()
    };
    let actions = one_action(alloc, Action::output(port))?;
    Ok(FlowMod::add(matches, PRIORITY, actions))
}

/// A full table: the entry at place i takes the packets to address i + 1.
fn full_table(alloc: Global) -> std::result::Result<Table, TableNo> {
    let mut table = Table::new(alloc);
    for place in 0..TABLE_CAPACITY as u64 {
        table.command(Command::Add, &mods_for(alloc, place + 1, OUT_PORT)?, 0)?;
    }
    Ok(table)
}

/// A switch of two ports with the first few of these entries.
fn small_switch(alloc: Global) -> std::result::Result<Switch, AllocError> {
    let mut switch = Switch::fresh(alloc, 0, 2);
    for place in 0..FEW {
        let mods = mods_for(alloc, place + 1, OUT_PORT)?;
        switch.handle(&Message::flow_mod(1, mods))?;
    }
    Ok(switch)
}

/// A packet's header. The number tells it from others, so that no answer can be used again.
fn header_to(address: u64, number: u64) -> Header
    requires { address < 2 ^ 48 }
    ensures { IsValidHeader result }
{
    Header {
        dl_src: 1,
        dl_dst: address,
        dl_vlan: 65535,
        dl_vlan_pcp: 0,
        dl_type: 2048,
        nw_tos: 0,
        nw_proto: 6,
        nw_src: 10,
        nw_dst: 20,
        tp_src: (number & 0xffff) as u16,
        tp_dst: 80,
    }
}

/// Looks up so many packets to an address.
fn look_up(table: &Table, address: u64, calls: u64) -> u64
    requires { address < 2 ^ 48 }
{
    let mut sum: u64 = 0;
    for number in 0..calls {
        if let Some(entry) = table.lookup(IN_PORT, &header_to(address, number)) {
            sum = sum.wrapping_add(entry.matches.dl_dst.unwrap_or(0));
        }
    }
    sum
}

fn timed_to<R: Clock>(rt: &R, table: &Table, address: u64, calls: u64) -> Result<Figure>
    requires { address < 2 ^ 48 }
{
    let start = Instant::now(rt)?;
    let sum = look_up(table, address, calls);
    let time = start.elapsed(rt)?;
    Ok(Figure { time, sum })
}

/// Times so many look-ups of each kind in a table of 1,024 entries.
pub fn timed<R: Clock + AllocGlobal>(rt: &R, calls: u64) -> Result<Figures> {
    let table = full_table(rt.alloc())?;
    let first = timed_to(rt, &table, 1, calls)?;
    let last = timed_to(rt, &table, TABLE_CAPACITY as u64, calls)?;
    let none = timed_to(rt, &table, NOBODY, calls)?;
    Ok(Figures { first, last, none })
}

/// Takes so many packets that the first entry takes, and counts those that leave.
fn switched(switch: &mut Switch, calls: u64) -> std::result::Result<u64, AllocError> {
    let mut sum: u64 = 0;
    for number in 0..calls {
        let packet = Packet {
            header: header_to(1, number),
            tag: 7,
        };
        let outs = switch.packet(IN_PORT, &packet)?;
        sum = sum.wrapping_add(outs.out.len() as u64);
    }
    Ok(sum)
}

/// Times so many packets through a switch with 16 entries. The sum is that of the packets that left.
pub fn timed_switch<R: Clock + AllocGlobal>(rt: &R, calls: u64) -> Result<Figure> {
    let mut switch = small_switch(rt.alloc())?;
    let start = Instant::now(rt)?;
    let sum = switched(&mut switch, calls)?;
    let time = start.elapsed(rt)?;
    Ok(Figure { time, sum })
}
