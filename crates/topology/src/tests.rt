//! A network of two switches and a link, with a host at each.
use super::{Flags, Invariant, Landing, Status, Topology, Why, emit, first_places};
use listed::{Listed, Plain};
use of10_match::Match;
use std::alloc::{AllocError, Global};
use std::test::Fail;

// Two switches of three ports, which link 0 joins at their ports 2 and 1; host 0 at (1, 3), host 1 at (0, 1).
fn network(alloc: Global) -> Result<Topology, AllocError> {
    Ok(Topology {
        ports: Listed::of(vec![in alloc; 3u16, 3]?),
        owner: Listed::of(vec![in alloc; None, None]?),
        links: Listed::of(vec![in alloc; (0u16, 2u16, 1u16, 1u16)]?),
        hosts: Listed::of(vec![in alloc; (1u16, 3u16, 9u64), (0, 1, 4)]?),
    })
}

// Where a packet lands, in a network that is small enough to be asked.
fn lands(topology: &Topology, status: &Status, s: u16, p: u16) -> Option<Landing> {
    if topology.links.len() < 1 << 16 && status.place.len() < 1 << 16 {
        Some(emit(topology, status, s, p))
    } else {
        None
    }
}

// The far end of a link, likewise.
fn far(topology: &Topology, s: u16, p: u16) -> Option<(u16, u16, u16)> {
    if topology.links.len() < 1 << 16 {
        topology.far_end(s, p)
    } else {
        None
    }
}

// The host at a port, likewise.
fn host(status: &Status, s: u16, p: u16) -> Option<u16> {
    if status.place.len() < 1 << 16 {
        status.host_at(s, p)
    } else {
        None
    }
}

#[test]
fn a_network_starts_up(rt: HostRuntime) -> Result<(), Fail> {
    let topology = network(rt.alloc())?.copy(rt.alloc())?;
    let status = Status::start(rt.alloc(), &topology)?.copy()?;
    assert_eq!(rt; status.link_up.as_slice(), [true].as_slice());
    assert_eq!(rt; status.switch_up.as_slice(), [true, true].as_slice());
    assert_eq!(rt; status.control_up.as_slice(), [true, true].as_slice());
    assert_eq!(rt; status.place.as_slice(), [(1, 3), (0, 1)].as_slice());
    let places = first_places(rt.alloc(), topology.hosts.as_slice())?;
    assert_eq!(rt; places.as_slice(), [(1, 3), (0, 1)].as_slice());
    assert!(rt; status.is_link_up(0) && !status.is_link_up(1));
    assert!(rt; status.is_switch_up(1) && !status.is_switch_up(2));
    assert!(rt; status.is_control_up(1) && !status.is_control_up(2));
    assert_eq!(rt; host(&status, 0, 1), Some(1));
    Ok(())
}

#[test]
fn packets_land_or_are_lost(rt: HostRuntime) -> Result<(), Fail> {
    let topology = network(rt.alloc())?;
    let down = |alloc: Global| -> Result<Flags, AllocError> {
        Ok(Listed::of(vec![in alloc; false, false]?))
    };
    let mut status = Status::start(rt.alloc(), &topology)?;
    assert_eq!(rt; far(&topology, 1, 1), Some((0, 0, 2)));
    assert_eq!(rt; far(&topology, 0, 2), Some((0, 1, 1)));
    assert_eq!(rt;
        lands(&topology, &status, 0, 2),
        Some(Landing::Wire { s: 1, p: 1 })
    );
    assert_eq!(rt; lands(&topology, &status, 1, 3), Some(Landing::Host(0)));
    assert_eq!(rt;
        lands(&topology, &status, 0, 3),
        Some(Landing::Lost(Why::Nothing))
    );
    status.switch_up = down(rt.alloc())?;
    assert_eq!(rt;
        lands(&topology, &status, 0, 2),
        Some(Landing::Lost(Why::SwitchIsDown))
    );
    status.link_up = down(rt.alloc())?;
    assert_eq!(rt;
        lands(&topology, &status, 0, 2),
        Some(Landing::Lost(Why::LinkIsDown))
    );
    Ok(())
}

#[test]
fn invariants_are_compared_whole(rt: HostRuntime) -> Result<(), Fail> {
    let forbid = |dst| Invariant::Forbid {
        src: 0,
        dst,
        matches: Match::any(),
    };
    assert!(rt; forbid(1).same(&forbid(1)) && !forbid(1).same(&forbid(2)));
    assert!(rt; Invariant::LoopFree.same(&Invariant::LoopFree));
    assert!(rt; !Invariant::LoopFree.same(&Invariant::NoBlackHole));
    Ok(())
}
