//! A ring whose first switch rewrites, a port with nothing at it, and tables without entries; memory is ample.
ghost use Rattle.std.specs.Prelude.{IfOk};
ghost use Rattle.of10_messages.specs.Valid.{IsValidFlowMod};
ghost use Rattle.invariant_check.specs.Network.{IsNet};

use super::judge::{verdict, verdicts};
use super::{Finish, Node, Verdict};
use event_world::{NetState, Tables};
use flow_table::{Command, Table};
use listed::{Listed, all_different};
use of10_match::{Header, Match};
use of10_messages::{Action, Actions10, FlowMod, one_action};
use std::alloc::Global;
use std::test::Fail;
use topology::{Invariant, Status, Topology};

const ANY: Match = Match {
    in_port: None,
    dl_src: None,
    dl_dst: None,
    dl_vlan: None,
    dl_vlan_pcp: None,
    dl_type: None,
    nw_tos: None,
    nw_proto: None,
    nw_src: None,
    nw_dst: None,
    tp_src: None,
    tp_dst: None,
};

fn at(in_port: Option<u16>, dl_dst: u64) -> Match {
    Match {
        in_port,
        dl_dst: Some(dl_dst),
        ..ANY
    }
}

fn to(dl_dst: u64) -> Header {
    Header {
        dl_src: 0,
        dl_dst,
        dl_vlan: 0,
        dl_vlan_pcp: 0,
        dl_type: 0,
        nw_tos: 0,
        nw_proto: 0,
        nw_src: 0,
        nw_dst: 0,
        tp_src: 0,
        tp_dst: 0,
    }
}

fn adding(matches: Match, actions: Actions10) -> Result<FlowMod, Fail>
    ensures { IfOk result (λ mods. IsValidFlowMod mods) }
{
    if !matches.is_valid() || !actions.iter().all(|action| action.is_valid()) {
        return Err("the match and the actions are valid".into());
    }
    Ok(FlowMod::add(matches, 1, actions))
}

fn put(table: &mut Table, matches: Match, actions: Actions10) -> Result<(), Fail> {
    let mods = adding(matches, actions)?;
    table.command(Command::Add, &mods, 0)?;
    Ok(())
}

// A table with an entry that sends what matches out of port 2.
fn onward(alloc: Global, matches: Match) -> Result<Table, Fail> {
    let mut table = Table::new(alloc);
    put(&mut table, matches, one_action(alloc, Action::output(2))?)?;
    Ok(table)
}

// What makes packets to 6 go round, and those to 5 from the host as packets to 6.
fn going_round(alloc: Global) -> Result<Tables, Fail> {
    let mut first = onward(alloc, at(Some(1), 6))?;
    let mut actions = one_action(alloc, Action::SetDlDst(6))?;
    actions.push(Action::output(2))?;
    put(&mut first, at(Some(3), 5), actions)?;
    let mut tables = Tables::new(alloc);
    tables.push(first)?;
    tables.push(onward(alloc, at(None, 6))?)?;
    tables.push(onward(alloc, at(None, 6))?)?;
    Ok(tables)
}

// A ring of three switches, with a host at port 3 of the first, and a table for each.
fn ring(alloc: Global, tables: Tables) -> Result<NetState, Fail>
    ensures { IfOk result (λ net. IsNet net) }
{
    let topology = Topology {
        ports: Listed::of(vec![in alloc; 3u16, 3, 3]?),
        owner: Listed::of(vec![in alloc; None, None, None]?),
        links: Listed::of(vec![in alloc; (0u16, 2u16, 1u16, 1u16), (1, 2, 2, 1), (2, 2, 0, 1)]?),
        hosts: Listed::of(vec![in alloc; (0u16, 3u16, 1u64)]?),
    };
    let used = [(0u16, 2u16), (1, 1), (1, 2), (2, 1), (2, 2), (0, 1), (0, 3)];
    if tables.len() != 3 || !all_different(&used) {
        return Err("a table for each switch, and ports that differ".into());
    }
    Ok(NetState {
        status: Status::start(alloc, &topology)?,
        topology,
        tables,
    })
}

// One switch of two ports with a host at the first, and a table.
fn one_switch(alloc: Global, table: Table) -> Result<NetState, Fail>
    ensures { IfOk result (λ net. IsNet net) }
{
    let topology = Topology {
        ports: Listed::of(vec![in alloc; 2u16]?),
        owner: Listed::of(vec![in alloc; None]?),
        links: Listed::new(alloc),
        hosts: Listed::of(vec![in alloc; (0u16, 1u16, 1u64)]?),
    };
    let mut tables = Tables::new(alloc);
    tables.push(table)?;
    Ok(NetState {
        status: Status::start(alloc, &topology)?,
        topology,
        tables,
    })
}

// Whether nodes are these: switch, port and dl_dst of each, with zeros in the other fields.
fn are_nodes(nodes: &[Node], wanted: &[(u16, u16, u64)]) -> bool {
    nodes.len() == wanted.len()
        && nodes.iter().zip(wanted.iter()).all(|(node, (s, p, dl_dst))| {
            node.s == *s && node.p == *p && node.header == to(*dl_dst)
        })
}

// Whether host 0 violates an invariant by a header, as a walk shows.
fn is_violated(verdict: &Verdict, by: &Header, nodes: &[(u16, u16, u64)], finish: Finish) -> bool {
    match verdict {
        Verdict::Holds => false,
        Verdict::Violated { host, header, walk } => {
            *host == 0
                && header == by
                && are_nodes(walk.nodes.as_slice(), nodes)
                && walk.finish == finish
        }
    }
}

fn holds(verdict: &Verdict) -> bool {
    matches!(verdict, Verdict::Holds)
}

#[test]
fn a_rewrite_makes_a_loop(rt: HostRuntime) -> Result<(), Fail> {
    let net = ring(rt.alloc(), going_round(rt.alloc())?)?;
    let nodes = [(0, 3, 5), (1, 1, 6), (2, 1, 6), (0, 1, 6), (1, 1, 6)];
    let loops = verdict(rt.alloc(), &net, &Invariant::LoopFree)?;
    assert!(rt; is_violated(&loops, &to(5), &nodes, Finish::Repeat));
    let holes = verdict(rt.alloc(), &net, &Invariant::NoBlackHole)?;
    assert!(rt; holds(&holes));
    Ok(())
}

#[test]
fn a_bare_port_is_a_black_hole(rt: HostRuntime) -> Result<(), Fail> {
    let net = one_switch(rt.alloc(), onward(rt.alloc(), ANY)?)?;
    let hole = verdict(rt.alloc(), &net, &Invariant::NoBlackHole)?;
    assert!(rt;
        hole.is_violated() && is_violated(&hole, &to(0), &[(0, 1, 0)], Finish::Out { s: 0, p: 2 })
    );
    Ok(())
}

#[test]
fn nothing_is_sent_without_entries(rt: HostRuntime) -> Result<(), Fail> {
    let net = one_switch(rt.alloc(), Table::new(rt.alloc()))?;
    assert!(rt; ANY.is_valid());
    let list = [
        Invariant::LoopFree,
        Invariant::NoBlackHole,
        Invariant::Forbid {
            src: 0,
            dst: 0,
            matches: ANY,
        },
    ];
    let all = verdicts(rt.alloc(), &net, &list)?;
    assert!(rt; all.len() == 3 && all.iter().all(|verdict| holds(verdict)));
    Ok(())
}
