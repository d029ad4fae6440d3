//! Cuts, classes and settled cells with ample memory.
ghost use Rattle.std.specs.Prelude.{IfOk};
ghost use Rattle.of10_messages.specs.Valid.{IsValidFlowMod};

use super::partition::classes;
use super::{Cell, Cells, Rewrite, Trials, cut};
use flow_table::{Command, Table};
use of10_match::{Header, Match};
use of10_messages::{Action, FlowMod, no_actions};
use std::alloc::Global;
use std::test::Fail;

const ANY: Match = Match {
    in_port: None,
    dl_src: None,
    dl_dst: None,
    dl_vlan: None,
    dl_vlan_pcp: None,
    dl_type: None,
    nw_tos: None,
    nw_proto: None,
    nw_src: None,
    nw_dst: None,
    tp_src: None,
    tp_dst: None,
};

// 10.0.0.0/8
const NETWORK: Match = Match {
    nw_src: Some((0x0a00_0000, 8)),
    ..ANY
};

const TO_HOST: Match = Match {
    dl_dst: Some(2),
    ..ANY
};

const ZERO: Header = Header {
    dl_src: 0,
    dl_dst: 0,
    dl_vlan: 0,
    dl_vlan_pcp: 0,
    dl_type: 0,
    nw_tos: 0,
    nw_proto: 0,
    nw_src: 0,
    nw_dst: 0,
    tp_src: 0,
    tp_dst: 0,
};

fn from(nw_src: u32) -> Header {
    Header { nw_src, ..ZERO }
}

fn to(dl_dst: u64) -> Header {
    Header { dl_dst, ..ZERO }
}

fn adding(alloc: Global, matches: Match, priority: u16) -> Result<FlowMod, Fail>
    ensures { IfOk result (λ mods. IsValidFlowMod mods) }
{
    if !matches.is_valid() {
        return Err("the match is valid".into());
    }
    Ok(FlowMod::add(matches, priority, no_actions(alloc)))
}

fn table_of(alloc: Global, rows: &[(Match, u16)]) -> Result<Table, Fail> {
    let mut table = Table::new(alloc);
    for (matches, priority) in rows {
        let mods = adding(alloc, *matches, *priority)?;
        table.command(Command::Add, &mods, 0)?;
    }
    Ok(table)
}

#[test]
fn a_network_cuts_the_full_cell(rt: HostRuntime) -> Result<(), Fail> {
    let full = Cell::full();
    assert_eq!(rt; full.least(), ZERO);
    if !NETWORK.is_valid() {
        return Err("the match is valid".into());
    }
    let (taken, rest) = cut(rt.alloc(), &full, 1, &NETWORK)?;
    let taken = taken.ok_or("some header is taken")?;
    assert_eq!(rt; taken.least(), from(0x0a00_0000));
    assert!(rt; taken.has(&from(0x0aff_ffff)) && !taken.has(&from(0x0b00_0000)));
    assert!(rt; rest.len() == 2);
    assert_eq!(rt; rest[0].least(), ZERO);
    assert!(rt; rest[0].has(&from(0x09ff_ffff)) && !rest[0].has(&from(0x0a00_0000)));
    assert_eq!(rt; rest[1].least(), from(0x0b00_0000));
    assert!(rt; rest[1].has(&from(0xffff_ffff)));
    Ok(())
}

#[test]
fn another_port_leaves_the_cell(rt: HostRuntime) -> Result<(), Fail> {
    let full = Cell::full();
    let matches = Match {
        in_port: Some(2),
        ..TO_HOST
    };
    if !matches.is_valid() {
        return Err("the match is valid".into());
    }
    let (taken, rest) = cut(rt.alloc(), &full, 1, &matches)?;
    assert_eq!(rt; taken, None);
    assert_eq!(rt; rest.as_slice(), [full].as_slice());
    Ok(())
}

#[test]
fn classes_of_tables(rt: HostRuntime) -> Result<(), Fail> {
    let alloc = rt.alloc();
    let full = Cell::full();
    let empty = classes(alloc, &Table::new(alloc), 1, &full)?;
    assert_eq!(rt; empty.as_slice(), [(full, None)].as_slice());
    let table = table_of(alloc, &[(ANY, 5), (TO_HOST, 9)])?;
    let found = classes(alloc, &table, 1, &full)?;
    assert!(rt; found.len() == 3);
    for (at, least, place) in [(0usize, to(2), 1usize), (1, ZERO, 0), (2, to(3), 0)] {
        let (cell, best) = &found[at];
        assert_eq!(rt; cell.least(), least);
        assert_eq!(rt; *best, Some(place));
    }
    Ok(())
}

#[test]
fn trials_of_a_table(rt: HostRuntime) -> Result<(), Fail> {
    let alloc = rt.alloc();
    let trials = Trials::of(alloc, &table_of(alloc, &[(ANY, 5), (TO_HOST, 9)])?)?;
    for (header, place, beside) in [(to(2), 1usize, to(3)), (ZERO, 0, to(2))] {
        let mut cell = Cell::full();
        if !cell.has(&header) {
            return Err("the header is valid".into());
        }
        assert_eq!(rt; trials.best(&mut cell, &header, 1), Some(place));
        assert!(rt; cell.has(&header) && !cell.has(&beside));
    }
    Ok(())
}

// What a match takes of all headers, where it takes the port.
fn cell_of(matches: &Match) -> Result<Cell, Fail> {
    if !matches.is_valid() {
        return Err("the match is valid".into());
    }
    Ok(Cell::of_match(1, matches).ok_or("the match takes the port")?)
}

#[test]
fn cells_settle_round_a_header(rt: HostRuntime) -> Result<(), Fail> {
    let network = cell_of(&NETWORK)?;
    for (address, inside, low, high) in [
        (0x0a01_0203u32, true, 0x0a00_0000u32, 0x0aff_ffffu32),
        (0, false, 0, 0x09ff_ffff),
        (0xffff_ffff, false, 0x0b00_0000, 0xffff_ffff),
    ] {
        let header = from(address);
        let mut cell = Cell::full();
        if !cell.has(&header) {
            return Err("the header is valid".into());
        }
        assert!(rt; cell.settle(&header, &network) == inside);
        assert_eq!(rt; cell.least(), from(low));
        assert!(rt; cell.has(&from(high)) && cell.has(&header));
        assert!(rt; !cell.has(&from(high.wrapping_add(1))));
    }
    Ok(())
}

#[test]
fn headers_before_sets(rt: HostRuntime) -> Result<(), Fail> {
    let network = cell_of(&NETWORK)?;
    let host = cell_of(&TO_HOST)?;
    let mut sets = Rewrite::none();
    sets.act(&Action::SetDlDst(2));
    assert_eq!(rt; sets.before(&host), Some(Cell::full()));
    assert_eq!(rt; sets.before(&network), Some(network));
    let after = sets.after(&network);
    let address = from(0x0a00_0000);
    assert!(rt;
        after.has(&Header {
            dl_dst: 2,
            ..address
        }) && !after.has(&address)
    );
    assert_eq!(rt; sets.same_from(&Rewrite::none()), Some(host));
    Ok(())
}

#[test]
fn the_rest_of_a_cell(rt: HostRuntime) -> Result<(), Fail> {
    let full = Cell::full();
    let mut inner = full;
    if !full.has(&ZERO) {
        return Err("the header is valid".into());
    }
    assert!(rt; !inner.settle(&ZERO, &cell_of(&NETWORK)?));
    let mut rest = Cells::new(rt.alloc());
    full.add_rest(&inner, &mut rest)?;
    assert!(rt; rest.len() == 1);
    assert_eq!(rt; rest[0].least(), from(0x0a00_0000));
    Ok(())
}
