//! Verdicts on networks with many entries.
ghost use Rattle.std.specs.Prelude.{IfOk};
ghost use Rattle.of10_match.specs.Match.{IsValidMatch};
ghost use Rattle.invariant_check.specs.Network.{IsNet};

use crate::relay::Relay;
use crate::tables::mods_for;
use crate::worlds::{BACK, HOST_PORT, MOST_EVENTS, ONWARD, Size, links_of_line, relayed, started};
use anyhow::{Result, bail};
use event_world::{NetState, Tables};
use flow_table::{Command, Table, TableNo};
use invariant_check::judge::verdicts;
use invariant_check::laws::the_network_of_a_world_can_be_judged;
use listed::Listed;
use of10_match::Match;
use of10_messages::{Action, FlowMod, one_action};
use std::alloc::Global;
use std::time::{Clock, Duration, Instant};
use topology::Invariant;

/// How many addresses each switch has a route to.
const ROUTES: u64 = 125;

/// How many overlapping entries each switch has.
const OVERLAPPING: u64 = 64;

/// A line of 64 switches with routes.
const LONG: Size = Size {
    switches: 64,
    ports: 4,
};

/// A line of 8 switches with overlapping entries.
const SHORT: Size = Size {
    switches: 8,
    ports: 4,
};

/// What the verdicts took, and how many invariants are violated.
#[derive(Clone, Copy, Debug)]
pub struct Judged {
    pub time: Duration,
    pub violated: usize,
}

/// Times the verdicts on a line of switches with 8,000 routes.
pub fn timed_routes<R: Clock + AllocGlobal>(rt: &R) -> Result<Judged> {
    let mut tables = Listed::new(rt.alloc());
    for s in 0..LONG.switches {
        tables.push(routes(rt.alloc(), s)?)?;
    }
    timed_verdicts(rt, &net_of_line(rt.alloc(), LONG, tables)?)
}

/// Times the verdicts on a line of switches with 64 entries each that overlap.
pub fn timed_overlapping<R: Clock + AllocGlobal>(rt: &R) -> Result<Judged> {
    let mut tables = Listed::new(rt.alloc());
    for s in 0..SHORT.switches {
        tables.push(overlapping(rt.alloc(), s)?)?;
    }
    timed_verdicts(rt, &net_of_line(rt.alloc(), SHORT, tables)?)
}

fn timed_verdicts<R: Clock + AllocGlobal>(rt: &R, net: &NetState) -> Result<Judged>
    requires { IsNet net.now }
{
    let list = [
        Invariant::LoopFree,
        Invariant::NoBlackHole,
        Invariant::Forbid {
            src: 0,
            dst: 0,
            matches: Match::any(),
        },
    ];
    let start = Instant::now(rt)?;
    let verdicts = verdicts(rt.alloc(), net, &list)?;
    let time = start.elapsed(rt)?;
    let violated = verdicts
        .iter()
        .filter(|verdict| verdict.is_violated())
        .count();
    Ok(Judged { time, violated })
}

/// A line of switches with these tables, and a host at the first one.
fn net_of_line(alloc: Global, size: Size, tables: Tables) -> Result<NetState>
    ensures { IfOk result IsNet }
{
    the_network_of_a_world_can_be_judged::<Relay>();
    let links = links_of_line(alloc, size.switches)?;
    let setup = relayed(alloc, size, links, 1, MOST_EVENTS)?;
    let mut net = started(alloc, &setup)?.network(&setup)?;
    if tables.len() != net.tables.len() {
        bail!("not a table for each switch");
    }
    net.tables = tables;
    Ok(net)
}

/// A switch sends packets to the addresses of hosts, of which there are two at each switch, along the line.
fn routes(alloc: Global, s: u16) -> std::result::Result<Table, TableNo> {
    let mut table = Table::new(alloc);
    let here = u64::from(s);
    for host in 0..ROUTES {
        let port = match host / 2 {
            at if at == here => HOST_PORT,
            at if at > here => ONWARD,
            _ => BACK,
        };
        table.command(Command::Add, &mods_for(alloc, host + 1, port)?, 0)?;
    }
    Ok(table)
}

/// Entries over a few fields, of few values each.
fn overlapping(alloc: Global, s: u16) -> std::result::Result<Table, TableNo> {
    let mut table = Table::new(alloc);
    for place in 0..OVERLAPPING {
        let number = place + OVERLAPPING * u64::from(s);
        let port = if number % 3 == 0 { BACK } else { ONWARD };
        let actions = one_action(alloc, Action::output(port))?;
        let priority = (number * 37 % 1000) as u16;
        let mods = FlowMod::add(some_match(number), priority, actions);
        table.command(Command::Add, &mods, 0)?;
    }
    Ok(table)
}

fn some_match(number: u64) -> Match
    ensures { IsValidMatch result }
{
    Match {
        dl_dst: (number % 2 == 0).then_some(1 + number % 8),
        dl_vlan: (number % 3 == 0).then_some((10 + number % 4) as u16),
        nw_proto: (number % 5 < 2).then_some((6 + number % 2) as u8),
        tp_dst: (number % 7 < 3).then_some((80 + number % 4) as u16),
        ..Match::any()
    }
}
