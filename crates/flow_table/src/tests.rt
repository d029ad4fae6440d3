//! Tables with ample memory: which entry counts, what each command does, when entries go, and what actions send.
ghost use Rattle.std.specs.Prelude.{◌↔◌, All, IfOk, IsTrue};
ghost use Rattle.of10_messages.specs.Valid.{IsValidFlowMod};
ghost use Rattle.flow_table.specs.Expiry.{IsPast};

use super::*;
use listed::Plain;
use of10_match::{Header, Match, OFPP_ALL, OFPP_CONTROLLER, OFPP_FLOOD, OFPP_IN_PORT, OFPP_NONE};
use of10_messages::{
    Action, FlowMod, OFPFF_CHECK_OVERLAP, OFPRR_HARD_TIMEOUT, OFPRR_IDLE_TIMEOUT, one_action,
};
use std::alloc::{AllocError, Global};
use std::test::Fail;

// A web request from the first host to the second one.
const HEADER: Header = Header {
    dl_src: 1,
    dl_dst: 2,
    dl_vlan: 65535,
    dl_vlan_pcp: 0,
    dl_type: 2048,
    nw_tos: 0,
    nw_proto: 6,
    nw_src: 10,
    nw_dst: 20,
    tp_src: 1000,
    tp_dst: 80,
};

// The match of that packet alone, coming in by port 1.
const EXACT: Match = Match {
    in_port: Some(1),
    dl_src: Some(1),
    dl_dst: Some(2),
    dl_vlan: Some(65535),
    dl_vlan_pcp: Some(0),
    dl_type: Some(2048),
    nw_tos: Some(0),
    nw_proto: Some(6),
    nw_src: Some((10, 32)),
    nw_dst: Some((20, 32)),
    tp_src: Some(1000),
    tp_dst: Some(80),
};

const ANY: Match = Match {
    in_port: None,
    dl_src: None,
    dl_dst: None,
    dl_vlan: None,
    dl_vlan_pcp: None,
    dl_type: None,
    nw_tos: None,
    nw_proto: None,
    nw_src: None,
    nw_dst: None,
    tp_src: None,
    tp_dst: None,
};

const IP: Match = Match {
    dl_type: Some(2048),
    ..ANY
};

fn to(address: u64) -> Match {
    Match {
        dl_dst: Some(address),
        ..ANY
    }
}

// An entry to be added, whose packets go out of a port.
fn adding(alloc: Global, matches: Match, priority: u16, port: u16) -> Result<FlowMod, Fail>
    ensures { IfOk result (λ mods. IsValidFlowMod mods) }
{
    if !matches.is_valid() {
        return Err("the match is valid".into());
    }
    let actions = one_action(alloc, Action::output(port))?;
    Ok(FlowMod::add(matches, priority, actions))
}

// A table of such entries, added at second 0; the cookie of each is its place.
fn table_of(alloc: Global, rows: &[(Match, u16, u16)]) -> Result<Table, Fail> {
    let mut table = Table::new(alloc);
    for (place, (matches, priority, port)) in rows.iter().enumerate() {
        let mods = adding(alloc, *matches, *priority, *port)?.with_cookie(place as u64);
        table.command(Command::Add, &mods, 0)?;
    }
    Ok(table)
}

fn are_same(one: &[Entry], two: &[Entry]) -> bool {
    one.len() == two.len() && one.iter().zip(two.iter()).all(|(a, b)| a.same(b))
}

fn cookies(alloc: Global, entries: &[Entry]) -> Result<Vec<u64>, AllocError> {
    let mut cookies = Vec::new(alloc);
    for entry in entries {
        cookies.push(entry.cookie)?;
    }
    Ok(cookies)
}

#[test]
fn which_entry_counts(rt: HostRuntime) -> Result<(), Fail> {
    for (first, second, place) in [
        // one without wildcards comes before all with some
        ((EXACT, 0, 2), (ANY, 65535, 2), Some(0usize)),
        ((ANY, 65535, 2), (EXACT, 0, 2), Some(1)),
        // of one priority the earlier added
        ((ANY, 5, 2), (IP, 5, 2), Some(0)),
        ((IP, 5, 2), (ANY, 5, 2), Some(0)),
        ((ANY, 5, 2), (IP, 6, 2), Some(1)),
        // an ADD of the same match and priority takes the earlier out
        ((ANY, 5, 2), (ANY, 5, 2), Some(0)),
        ((to(3), 5, 2), (to(2), 4, 2), Some(1)),
        ((to(3), 5, 2), (to(4), 5, 2), None),
    ] {
        let table = table_of(rt.alloc(), &[first, second])?;
        assert_eq!(rt;
            table.best_place(1, &HEADER),
            place,
            "of {first:?} and {second:?}"
        );
        let best = table.lookup(1, &HEADER).map(|entry| entry.matches);
        let want = match place {
            Some(0) => Some(first.0),
            Some(_) => Some(second.0),
            None => None,
        };
        assert_eq!(rt; best, want);
    }
    Ok(())
}

#[test]
fn a_full_table(rt: HostRuntime) -> Result<(), Fail> {
    let alloc = rt.alloc();
    let mut table = Table::new(alloc);
    for place in 0..TABLE_CAPACITY as u64 {
        table.command(Command::Add, &adding(alloc, to(place + 1), 5, 2)?, 0)?;
    }
    assert_eq!(rt; table.entries().len(), TABLE_CAPACITY);
    let before = table.copy()?;
    let one_more = adding(alloc, to(5000), 5, 2)?;
    let refused = table.command(Command::Add, &one_more, 0).err();
    assert_eq!(rt; refused, Some(TableNo::Full));
    assert!(rt; are_same(table.entries(), before.entries()));
    // one with the match and priority of another is still added, and stands last
    let again = adding(alloc, to(1), 5, 3)?;
    let effect = table.command(Command::Add, &again, 7)?;
    assert_eq!(rt; (effect.removed.len(), effect.changed), (1, 0));
    assert!(rt; are_same(effect.removed.as_slice(), &before.entries()[..1]));
    assert_eq!(rt; table.entries().len(), TABLE_CAPACITY);
    assert_eq!(rt;
        table.best_place(
            1,
            &Header {
                dl_dst: 1,
                ..HEADER
            }
        ),
        Some(1023)
    );
    Ok(())
}

#[test]
fn an_overlap_is_named(rt: HostRuntime) -> Result<(), Fail> {
    let alloc = rt.alloc();
    let rows = [
        (to(1), 7, 2),
        (to(2), 7, 2),
        (to(3), 8, 2),
        (to(3), 7, 2),
        (ANY, 7, 2),
    ];
    let mut table = table_of(alloc, &rows)?;
    let before = table.copy()?;
    let matches = Match {
        dl_src: Some(5),
        ..to(3)
    };
    let checked = adding(alloc, matches, 7, 2)?.with_flags(OFPFF_CHECK_OVERLAP);
    let refused = table.command(Command::Add, &checked, 0).err();
    assert_eq!(rt; refused, Some(TableNo::Overlap { with: 3 }));
    assert!(rt; are_same(table.entries(), before.entries()));
    let unchecked = checked.with_flags(0);
    table.command(Command::Add, &unchecked, 0)?;
    assert_eq!(rt; table.entries().len(), 6);
    let again = Table::of(Vec::from_clones(alloc, table.entries())?);
    assert!(rt; are_same(again.entries(), table.entries()));
    Ok(())
}

#[test]
fn modify_keeps_counts(rt: HostRuntime) -> Result<(), Fail> {
    let alloc = rt.alloc();
    let mut table = table_of(alloc, &[(to(1), 7, 2), (to(2), 8, 2)])?;
    table.count_hit(1, &HEADER, 4);
    let to_port_3 = adding(alloc, ANY, 9, 3)?.with_cookie(5);
    let effect = table.command(Command::Modify, &to_port_3, 6)?;
    assert_eq!(rt; (effect.removed.len(), effect.changed), (0, 2));
    let [first, second] = table.entries() else {
        return Err("two entries".into());
    };
    assert_eq!(rt; (first.packets, first.bytes, first.hit), (0, 0, 0));
    assert_eq!(rt; (second.packets, second.bytes, second.hit), (1, 64, 4));
    assert_eq!(rt; (second.added, second.cookie, second.priority), (0, 1, 8));
    assert!(rt; second.actions.same(&to_port_3.actions));
    assert!(rt; second.takes(1, &HEADER) && !first.takes(1, &HEADER));
    assert_eq!(rt; (first.rank(), second.rank()), (7, 8));
    // no entry has this match at this priority: it is added
    let effect = table.command(Command::ModifyStrict, &to_port_3, 6)?;
    assert_eq!(rt; (effect.removed.len(), effect.changed), (0, 0));
    assert_eq!(rt;
        cookies(alloc, table.entries())?.as_slice(),
        [0, 1, 5].as_slice()
    );
    assert_eq!(rt; table.entries().len(), 3);
    table.count_at(2, 9);
    assert_eq!(rt;
        table
            .entries()
            .last()
            .map(|entry| (entry.packets, entry.hit)),
        Some((1, 9))
    );
    Ok(())
}

#[test]
fn deletes_by_output(rt: HostRuntime) -> Result<(), Fail> {
    let alloc = rt.alloc();
    for (how, matches, priority, out_port, want, left) in [
        (Command::Delete, ANY, 0, 3, [1, 3].as_slice(), 2usize),
        (Command::Delete, ANY, 0, 4, [].as_slice(), 4),
        (
            Command::Delete,
            ANY,
            0,
            OFPP_NONE,
            [0, 1, 2, 3].as_slice(),
            0,
        ),
        (Command::Delete, to(1), 0, OFPP_NONE, [0, 3].as_slice(), 2),
        (
            Command::DeleteStrict,
            to(1),
            7,
            OFPP_NONE,
            [0].as_slice(),
            3,
        ),
        (Command::DeleteStrict, to(1), 7, 3, [].as_slice(), 4),
        (Command::DeleteStrict, ANY, 7, OFPP_NONE, [].as_slice(), 4),
    ] {
        let rows = [(to(1), 7, 2), (to(2), 7, 3), (IP, 7, 2), (to(1), 8, 3)];
        let mut table = table_of(alloc, &rows)?;
        let mods = adding(alloc, matches, priority, 2)?.with_out_port(out_port);
        let effect = table.command(how, &mods, 0)?;
        let removed = cookies(alloc, effect.removed.as_slice())?;
        assert_eq!(rt;
            removed.as_slice(),
            want,
            "by {how:?} {matches:?} {out_port}"
        );
        assert_eq!(rt; table.entries().len(), left);
    }
    Ok(())
}

fn are_past(entries: &[Entry], now: u32) -> bool
    ensures { IsTrue result ↔ All (IsPast now) entries.now }
{
    entries
        .iter()
        .all(|entry| entry.added <= now && entry.hit <= now)
}

// Adds an entry that goes at a time; its cookie is the address.
fn add_late(
    table: &mut Table,
    alloc: Global,
    address: u64,
    hard: u16,
    idle: u16,
) -> Result<(), Fail> {
    let mods = adding(alloc, to(address), 7, 2)?
        .with_cookie(address)
        .with_hard_timeout(hard)
        .with_idle_timeout(idle);
    table.command(Command::Add, &mods, 0)?;
    Ok(())
}

#[test]
fn entries_run_out(rt: HostRuntime) -> Result<(), Fail> {
    let alloc = rt.alloc();
    let mut table = Table::new(alloc);
    for (address, hard, idle) in [(1, 5, 0), (2, 0, 3), (3, 0, 0), (4, 6, 6), (5, 0, 6)] {
        add_late(&mut table, alloc, address, hard, idle)?;
    }
    // the second entry takes a packet
    table.count_hit(1, &HEADER, 3);
    for (now, want) in [
        (4, [].as_slice()),
        (5, [(1, OFPRR_HARD_TIMEOUT)].as_slice()),
        (
            6,
            [
                (2, OFPRR_IDLE_TIMEOUT),
                (4, OFPRR_HARD_TIMEOUT),
                (5, OFPRR_IDLE_TIMEOUT),
            ]
            .as_slice(),
        ),
        (u32::MAX, [].as_slice()),
    ] {
        assert!(rt; are_past(table.entries(), now));
        let mut gone = Vec::new(alloc);
        for (entry, reason) in table.expire(now)?.into_vec() {
            gone.push((entry.cookie, reason))?;
        }
        assert_eq!(rt; gone.as_slice(), want, "at {now}");
    }
    assert_eq!(rt; cookies(alloc, table.entries())?.as_slice(), [3].as_slice());
    Ok(())
}

fn output(port: u16) -> Action {
    Action::Output { port, max_len: 0 }
}

#[test]
fn what_actions_send(rt: HostRuntime) -> Result<(), Fail> {
    let alloc = rt.alloc();
    // a packet from port 2 of 3; no port is named by the number by which the packet came in
    let actions = vec![in alloc;
        output(OFPP_FLOOD),
        Action::SetTpDst(8080),
        output(OFPP_IN_PORT),
        output(2),
        output(9),
        output(OFPP_CONTROLLER),
        Action::StripVlan,
        output(OFPP_ALL),
    ]?;
    assert!(rt; HEADER.is_valid() && actions.iter().all(|action| action.is_valid()));
    let outputs = outcome(alloc, actions.as_slice(), 3, 2, &HEADER)?;
    let later = Header {
        tp_dst: 8080,
        ..HEADER
    };
    let want = [
        (Target::Port(1), HEADER, false),
        (Target::Port(3), HEADER, false),
        (Target::Port(2), later, true),
        (Target::Port(9), later, true),
        (Target::Controller, later, true),
        (Target::Port(1), later, false),
        (Target::Port(3), later, false),
    ];
    assert_eq!(rt; outputs.len(), want.len());
    for (output, (target, header, plain)) in outputs.iter().zip(want) {
        assert_eq!(rt;
            *output,
            Output {
                target,
                header,
                plain
            }
        );
    }
    Ok(())
}
