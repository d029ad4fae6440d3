//! A setup of two switches, and what makes it one from which no run can start.
use super::{Controllers, Input, Limits, Line, Preset, Presets, Script, Setup, SwitchPresets};
use listed::{Listed, Plain};
use of10_match::{Header, Match, Packet};
use of10_messages::{Action, Actions10};
use std::alloc::{AllocError, Global};
use std::test::Fail;
use topology::Topology;

// What a flaw changes in the setup.
#[derive(Clone, Copy)]
struct Parts {
    // The MAC address of the first host.
    address: u64,
    // The controller of the first switch.
    owner: u16,
    // The priority of the second preset, and the port to which it sends.
    priority: u16,
    port: u16,
    // Whether it has an action of another type too.
    other: bool,
    // Whether the second switch has presets.
    both: bool,
    // The link that goes down and comes up.
    link: u16,
    // Where the first host moves.
    place: (u16, u16),
    // The controller that is told a policy.
    controller: u16,
    seconds: u32,
}

const FINE: Parts = Parts {
    address: (1 << 48) - 1,
    owner: 0,
    priority: 2,
    port: 2,
    other: false,
    both: true,
    link: 0,
    place: (0, 1),
    controller: 0,
    seconds: 1_000_000,
};

// A web request from the first host to the second one.
const PACKET: Packet = Packet {
    header: Header {
        dl_src: 1,
        dl_dst: 2,
        dl_vlan: 65535,
        dl_vlan_pcp: 0,
        dl_type: 2048,
        nw_tos: 0,
        nw_proto: 6,
        nw_src: 10,
        nw_dst: 20,
        tp_src: 1000,
        tp_dst: 80,
    },
    tag: 7,
};

const LIMITS: Limits = Limits {
    max_events: 100,
    budget: 64,
    workers: 1,
    patience: 0,
};

// Two switches of two ports with a link between them, and a host at each.
fn network(alloc: Global, parts: Parts) -> Result<Topology, AllocError> {
    Ok(Topology {
        ports: Listed::of(vec![in alloc; 2u16, 2]?),
        owner: Listed::of(vec![in alloc; Some(parts.owner), None]?),
        links: Listed::of(vec![in alloc; (0u16, 2u16, 1u16, 1u16)]?),
        hosts: Listed::of(vec![in alloc; (0u16, 1u16, parts.address), (1, 2, 2)]?),
    })
}

// An entry for every packet, which sends to a port.
fn preset(alloc: Global, priority: u16, port: u16) -> Result<Preset, AllocError> {
    let mut actions = Actions10::new(alloc);
    actions.push(Action::SetVlanVid(4095))?;
    actions.push(Action::Output { port, max_len: 0 })?;
    Ok(Preset {
        matches: Match::any(),
        priority,
        actions,
        idle: 0,
        hard: 5,
        flags: 1,
        cookie: 9,
    })
}

// Two presets for the first switch.
fn first_presets(alloc: Global, parts: Parts) -> Result<SwitchPresets, AllocError> {
    let mut second = preset(alloc, parts.priority, parts.port)?;
    if parts.other {
        let body = Listed::new(alloc);
        second.actions.push(Action::Other { kind: 11, body })?;
    }
    let mut list = SwitchPresets::new(alloc);
    list.push(preset(alloc, 1, 0xfffd)?)?;
    list.push(second)?;
    Ok(list)
}

fn presets(alloc: Global, parts: Parts) -> Result<Presets, AllocError> {
    let mut presets = Presets::new(alloc);
    presets.push(first_presets(alloc, parts)?)?;
    if parts.both {
        presets.push(SwitchPresets::new(alloc))?;
    }
    Ok(presets)
}

// A line of each kind.
fn script(alloc: Global, parts: Parts) -> Result<Script, AllocError> {
    let inputs = [
        Input::Inject {
            host: 0,
            packet: PACKET,
        },
        Input::LinkDown(parts.link),
        Input::LinkUp(parts.link),
        Input::SwitchFail(1),
        Input::SwitchUp(1),
        Input::ControlDown(0),
        Input::ControlUp(0),
        Input::HostMove {
            host: 0,
            s: parts.place.0,
            p: parts.place.1,
        },
        Input::Policy {
            c: parts.controller,
            deny: Match::any(),
        },
        Input::Seconds(parts.seconds),
    ];
    let mut script = Script::new(alloc);
    for input in inputs {
        script.push(Line {
            after_quiet: true,
            input,
        })?;
    }
    Ok(script)
}

// Whether a run can start from a setup with these parts.
fn can_run(alloc: Global, parts: Parts) -> Result<bool, AllocError> {
    let setup = Setup {
        topology: network(alloc, parts)?,
        presets: presets(alloc, parts)?,
        controllers: Controllers::of(vec![in alloc; 0u8]?),
        script: script(alloc, parts)?,
        limits: LIMITS,
    };
    setup.is_valid(alloc)
}

#[test]
fn a_run_can_start(rt: HostRuntime) -> Result<(), Fail> {
    let valid = can_run(rt.alloc(), FINE)?;
    assert!(rt; valid);
    Ok(())
}

#[test]
fn each_flaw_is_found(rt: HostRuntime) -> Result<(), Fail> {
    let flaws = [
        Parts { address: 0, ..FINE },
        Parts {
            address: 1 << 48,
            ..FINE
        },
        Parts { owner: 1, ..FINE },
        Parts {
            priority: 1,
            ..FINE
        },
        Parts { port: 3, ..FINE },
        Parts {
            other: true,
            ..FINE
        },
        Parts {
            both: false,
            ..FINE
        },
        Parts { link: 1, ..FINE },
        Parts {
            place: (0, 2),
            ..FINE
        },
        Parts {
            controller: 1,
            ..FINE
        },
        Parts { seconds: 0, ..FINE },
        Parts {
            seconds: 1_000_001,
            ..FINE
        },
    ];
    for (at, parts) in flaws.into_iter().enumerate() {
        let valid = can_run(rt.alloc(), parts)?;
        assert!(rt; !valid, "flaw {at}");
    }
    Ok(())
}

#[test]
fn a_preset_stands_in_the_table(rt: HostRuntime) -> Result<(), Fail> {
    let preset = preset(rt.alloc(), 2, 1)?;
    let entry = preset.entry()?;
    assert_eq!(rt; entry.matches, Match::any());
    assert!(rt; entry.actions.same(&preset.actions));
    assert!(rt; entry.priority == 2 && entry.cookie == 9);
    assert!(rt; entry.idle == 0 && entry.hard == 5);
    assert!(rt; entry.flags == 1 && entry.added == 0);
    assert!(rt; entry.hit == 0 && entry.packets == 0);
    assert_eq!(rt; entry.bytes, 0);
    Ok(())
}
