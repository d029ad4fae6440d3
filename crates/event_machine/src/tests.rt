//! Two switches without controllers. The entry for the first packet has run out when it comes; the second packet goes on to
//! the other switch, and is lost there.
ghost use Rattle.std.specs.Prelude.{[], IfOk};
ghost use Rattle.controller_api.specs.Reaction.{Reaction};
ghost use Rattle.machine_setup.specs.Setup.{IsValidSetup};
ghost use Rattle.event_world.specs.Fits.{Fits};

use super::{
    Actor, Controllers, End, Entries, Entry, Event, Input, Limits, Line, LogNo, Preset, Script,
    Setup, StepNo, SwitchPresets, Trace, World, check_legal,
};
use controller_api::{Controller, Outbox, UpItem};
use listed::Listed;
use message_pools::Item;
use of10_match::{Header, Match, Packet};
use of10_messages::{Action, Message, Notice, one_action};
use std::alloc::{AllocError, Global};
use std::test::Fail;
use topology::Topology;

// A controller that does nothing. The setups have none.
#[derive(Debug, Drop)]
struct Idle;

impl Controller for Idle {
    ghost react = { λ idle item. record { state = idle; sent = [] } };

    ghost start = { λ idle. idle };

    ghost policies = { λ idle. 0 };

    fn fresh(&self) -> Result<Idle, AllocError> {
        Ok(Idle)
    }

    fn send(&self, _item: &UpItem, _out: &mut Outbox) -> Result<(), AllocError> {
        Ok(())
    }

    fn hear(&mut self, _item: &UpItem, _sent: &[(u16, Message)]) -> Result<(), AllocError> {
        Ok(())
    }

    fn copy(&self) -> Result<Idle, AllocError> {
        Ok(Idle)
    }
}

// A packet to an address, and with the tag one below it.
fn packet_to(address: u8) -> Packet {
    Packet {
        header: Header {
            dl_src: 0,
            dl_dst: u64::from(address),
            dl_vlan: 0,
            dl_vlan_pcp: 0,
            dl_type: 0,
            nw_tos: 0,
            nw_proto: 0,
            nw_src: 0,
            nw_dst: 0,
            tp_src: 0,
            tp_dst: 0,
        },
        tag: u32::from(address.saturating_sub(1)),
    }
}

// ---- the setup

fn network(alloc: Global) -> Result<Topology, AllocError> {
    Ok(Topology {
        ports: Listed::of(vec![in alloc; 2u16, 2]?),
        owner: Listed::of(vec![in alloc; None, None]?),
        links: Listed::of(vec![in alloc; (0u16, 2u16, 1u16, 1u16)]?),
        hosts: Listed::of(vec![in alloc; (0u16, 1u16, 1u64)]?),
    })
}

// The entry that sends packets to an address out of port 2, and goes after some seconds.
fn preset_for(alloc: Global, address: u64, hard: u16) -> Result<Preset, AllocError> {
    Ok(Preset {
        matches: Match {
            dl_dst: Some(address),
            ..Match::any()
        },
        priority: 1,
        actions: one_action(alloc, Action::output(2))?,
        idle: 0,
        hard,
        flags: 0,
        cookie: 0,
    })
}

fn presets(alloc: Global) -> Result<Listed<SwitchPresets>, AllocError> {
    let mut first = Listed::new(alloc);
    first.push(preset_for(alloc, 2, 5)?)?;
    first.push(preset_for(alloc, 3, 0)?)?;
    let mut presets = Listed::new(alloc);
    presets.push(first)?;
    presets.push(Listed::new(alloc))?;
    Ok(presets)
}

// Five seconds pass, and the host sends both packets; the last line may have to wait.
fn script(alloc: Global, marked: bool) -> Result<Script, AllocError> {
    let mut script = Listed::new(alloc);
    for (after_quiet, input) in [
        (false, Input::Seconds(5)),
        (
            false,
            Input::Inject {
                host: 0,
                packet: packet_to(2),
            },
        ),
        (
            marked,
            Input::Inject {
                host: 0,
                packet: packet_to(3),
            },
        ),
    ] {
        script.push(Line { after_quiet, input })?;
    }
    Ok(script)
}

fn setup(alloc: Global, max_events: u32, marked: bool) -> Result<Setup<Idle>, AllocError> {
    let controllers: Controllers<Idle> = Listed::new(alloc);
    Ok(Setup {
        topology: network(alloc)?,
        presets: presets(alloc)?,
        controllers,
        script: script(alloc, marked)?,
        limits: Limits {
            max_events,
            budget: 1,
            workers: 1,
            patience: 0,
        },
    })
}

// ---- histories

// What an entry of the histories takes.
#[derive(Clone, Copy, Debug)]
enum Took {
    Nothing,
    Tick,
    PacketTo(u8),
}

impl Took {
    fn item(self) -> Option<Item> {
        match self {
            Took::Nothing => None,
            Took::Tick => Some(Item::Notice(Notice::Tick(5))),
            Took::PacketTo(address) => Some(Item::Packet(packet_to(address))),
        }
    }
}

// The worker and its number, the event, and what it takes.
type Row = (u32, u64, Event, Took);

fn pkt(s: u16, item: u64) -> Event {
    Event::Pkt { s, p: 1, item }
}

// The run of one thread.
fn run() -> [Row; 8] {
    [
        (0, 0, Event::In(0), Took::Nothing),
        (0, 1, Event::Note { s: 0, item: 0 }, Took::Tick),
        (0, 2, Event::Note { s: 1, item: 0 }, Took::Tick),
        (0, 3, Event::In(1), Took::Nothing),
        (0, 4, pkt(0, 0), Took::PacketTo(2)),
        (0, 5, Event::In(2), Took::Nothing),
        (0, 6, pkt(0, 1), Took::PacketTo(3)),
        (0, 7, pkt(1, 0), Took::PacketTo(3)),
    ]
}

fn entries(alloc: Global, rows: &[Row]) -> Result<Entries, AllocError> {
    let mut entries = Listed::new(alloc);
    for (worker, number, event, took) in rows {
        entries.push(Entry {
            worker: *worker,
            number: *number,
            event: *event,
            item: took.item(),
        })?;
    }
    Ok(entries)
}

// What is wrong with a history of the setup, if something is.
fn wrong_with(
    alloc: Global,
    setup: &Setup<Idle>,
    rows: &[Row],
    end: End,
) -> Result<Option<LogNo>, AllocError> {
    if !setup.is_valid(alloc)? {
        return Err(AllocError);
    }
    let entries = entries(alloc, rows)?;
    match check_legal(alloc, setup, &Trace { entries, end }) {
        Ok(_) => Ok(None),
        Err(LogNo::OutOfMemory) => Err(AllocError),
        Err(no) => Ok(Some(no)),
    }
}

#[test]
fn runs_and_their_ends(rt: HostRuntime) -> Result<(), Fail> {
    for (len, max_events, marked, end, no) in [
        (8, 100, false, End::Quiet, None),
        (8, 8, true, End::Quiet, None),
        (2, 2, true, End::Full, None),
        (7, 7, false, End::Full, None),
        (8, 7, false, End::Full, Some(LogNo::NotLegal { at: 7 })),
        (7, 100, false, End::Quiet, Some(LogNo::EndWrong)),
        (7, 100, false, End::Full, Some(LogNo::EndWrong)),
        (8, 8, false, End::Full, Some(LogNo::EndWrong)),
    ] {
        let setup = setup(rt.alloc(), max_events, marked)?;
        let wrong = wrong_with(rt.alloc(), &setup, &run()[..len], end)?;
        assert_eq!(rt; wrong, no, "at {len} of {max_events}");
    }
    Ok(())
}

#[test]
fn what_is_wrong_with_the_others(rt: HostRuntime) -> Result<(), Fail> {
    let not_legal = |at| LogNo::NotLegal { at };
    for (place, row, no) in [
        (
            1,
            (0, 1, Event::Note { s: 0, item: 1 }, Took::Tick),
            not_legal(1),
        ),
        (
            1,
            (0, 5, Event::Note { s: 0, item: 1 }, Took::Tick),
            not_legal(1),
        ),
        (
            2,
            (0, 2, Event::Note { s: 7, item: 0 }, Took::Tick),
            not_legal(2),
        ),
        (
            2,
            (0, 2, Event::Note { s: 1, item: 0 }, Took::Nothing),
            not_legal(2),
        ),
        (3, (0, 3, Event::In(1), Took::Tick), not_legal(3)),
        (3, (0, 3, Event::In(2), Took::Nothing), not_legal(3)),
        (4, (0, 4, Event::In(2), Took::Nothing), not_legal(4)),
        (6, (0, 6, pkt(0, 1), Took::PacketTo(2)), not_legal(6)),
        (
            4,
            (1, 1, pkt(0, 0), Took::PacketTo(2)),
            LogNo::WorkerOrder {
                at: 4,
                want: 0,
                has: 1,
            },
        ),
        (
            5,
            (0, 6, Event::In(2), Took::Nothing),
            LogNo::WorkerOrder {
                at: 5,
                want: 5,
                has: 6,
            },
        ),
    ] {
        let setup = setup(rt.alloc(), 8, true)?;
        let mut rows = run();
        *rows.get_mut(place).ok_or("a place of the run")? = row;
        let wrong = wrong_with(rt.alloc(), &setup, &rows, End::Quiet)?;
        assert_eq!(rt; wrong, Some(no), "at {place}");
    }
    Ok(())
}

#[test]
fn texts_of_what_is_wrong(rt: HostRuntime) -> Result<(), Fail> {
    let order = LogNo::WorkerOrder {
        at: 1,
        want: 2,
        has: 3,
    };
    for (no, text) in [
        (LogNo::NotLegal { at: 7 }, "entry 7 is not legal"),
        (order, "entry 1 has number 3, and its worker's next is 2"),
        (LogNo::EndWrong, "the trace does not end as it says"),
        (LogNo::OutOfMemory, "out of memory"),
    ] {
        assert_eq!(rt; format!(in rt.alloc(); "{no}")?.as_str(), text);
    }
    Ok(())
}

// ---- steps

// Lets an event happen, as long as few did.
fn step(world: &mut World<Idle>, setup: &Setup<Idle>, event: Event) -> Result<(), StepNo>
    requires setup { IsValidSetup setup.now }
    requires fits { Fits (λ idle. 0) setup.now world.old }
    ensures { Fits (λ idle. 0) setup.now world.new }
{
    if world.events() > 1000 || world.inputs() > 1000 {
        return Err(StepNo::OutOfMemory);
    }
    world.step(setup, &event)
}

#[test]
fn a_refused_step_names_the_head(rt: HostRuntime) -> Result<(), Fail> {
    let setup = setup(rt.alloc(), 100, false)?;
    assert!(rt; setup.is_valid(rt.alloc())?);
    let mut world = World::start(rt.alloc(), &setup)?;
    let early = step(&mut world, &setup, pkt(0, 1));
    assert_eq!(rt; early, Err(StepNo::NotEnabled { head: None }));
    step(&mut world, &setup, Event::In(1))?;
    let other = step(&mut world, &setup, pkt(0, 1));
    assert_eq!(rt; other, Err(StepNo::NotEnabled { head: Some(0) }));
    assert_eq!(rt; setup.topology.ports.len(), 2);
    assert_eq!(rt; world.first_of(&setup, Actor::Switch(0)), Some(pkt(0, 0)));
    Ok(())
}
