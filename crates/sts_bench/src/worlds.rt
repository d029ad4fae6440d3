//! Runs of the whole machine by the rule of one thread: a packet goes round a ring of switches, and each has to ask the
//! controller where to send it.
ghost use Rattle.std.specs.Prelude.{IfOk};
ghost use Rattle.machine_setup.specs.Setup.{IsValidSetup};
ghost use Rattle.event_world.specs.Fits.{Fits};

use crate::figure::Figure;
use crate::relay::Relay;
use anyhow::{Result, bail};
use event_world::{Actor, Event, StepNo, World};
use listed::Listed;
use machine_setup::{Input, Limits, Line, Presets, Setup};
use of10_match::{Header, Packet};
use std::alloc::{AllocError, Global};
use std::time::{Clock, Instant};
use topology::{Links, Topology};

/// The port from which a switch is linked to the next one.
pub(crate) const ONWARD: u16 = 1;

/// The port at which the link from the switch before ends.
pub(crate) const BACK: u16 = 2;

/// The port of the first switch at which the host is.
pub(crate) const HOST_PORT: u16 = 3;

/// How large a network is.
#[derive(Clone, Copy, Debug)]
pub struct Size {
    pub switches: u16,
    /// Ports of each switch, of which at most three are in use.
    pub ports: u16,
}

/// The largest network, and a small one.
pub const SIZES: [Size; 2] = [
    Size {
        switches: 64,
        ports: 48,
    },
    Size {
        switches: 8,
        ports: 4,
    },
];

/// What the first quarter of a run took and the last one, and what happened in the whole. The sums are those of the packets
/// that switches took.
#[derive(Clone, Copy, Debug)]
pub struct Figures {
    pub first: Figure,
    pub last: Figure,
    pub events: u32,
    pub inputs: u32,
}

/// The most events that a run may have.
pub(crate) const MOST_EVENTS: u32 = 16_384;

/// What the host sends. No switch has an entry for it.
const PACKET: Packet = Packet {
    header: Header {
        dl_src: 1,
        dl_dst: 2,
        dl_vlan: 65535,
        dl_vlan_pcp: 0,
        dl_type: 2048,
        nw_tos: 0,
        nw_proto: 6,
        nw_src: 10,
        nw_dst: 20,
        tp_src: 1000,
        tp_dst: 80,
    },
    tag: 7,
};

/// Each switch is linked to the next one, and the last one to the first.
fn links_of_ring(alloc: Global, switches: u16) -> std::result::Result<Links, AllocError> {
    let mut links = Listed::new(alloc);
    for s in 0..switches {
        links.push((s, ONWARD, (s + 1) % switches, BACK))?;
    }
    Ok(links)
}

/// No presets for any switch.
fn no_presets(alloc: Global, switches: u16) -> std::result::Result<Presets, AllocError> {
    let mut presets = Listed::new(alloc);
    for _ in 0..switches {
        presets.push(Listed::new(alloc))?;
    }
    Ok(presets)
}

/// Each switch is linked to the next one.
pub(crate) fn links_of_line(
    alloc: Global,
    switches: u16,
) -> std::result::Result<Links, AllocError> {
    let mut links = Listed::new(alloc);
    for s in 1..switches {
        links.push((s - 1, ONWARD, s, BACK))?;
    }
    Ok(links)
}

/// A network under one controller, with a host at its first switch that sends so many packets.
pub(crate) fn relayed(
    alloc: Global,
    size: Size,
    links: Links,
    packets: usize,
    max_events: u32,
) -> std::result::Result<Setup<Relay>, AllocError> {
    let Size { switches, ports } = size;
    let topology = Topology {
        ports: Listed::of(vec![in alloc; ports; usize::from(switches)]?),
        owner: Listed::of(vec![in alloc; Some(0u16); usize::from(switches)]?),
        links,
        hosts: Listed::of(vec![in alloc; (0u16, HOST_PORT, 1u64)]?),
    };
    let relay = Relay {
        port: ONWARD,
        alloc,
    };
    let line = Line {
        after_quiet: false,
        input: Input::Inject {
            host: 0,
            packet: PACKET,
        },
    };
    Ok(Setup {
        topology,
        presets: no_presets(alloc, switches)?,
        controllers: Listed::of(vec![in alloc; relay]?),
        script: Listed::of(vec![in alloc; line; packets]?),
        limits: Limits {
            max_events,
            budget: 0,
            workers: 1,
            patience: 0,
        },
    })
}

/// The next event by the rule of one thread: the first that is enabled, and the script's next line where there is none.
fn next(world: &World<Relay>, setup: &Setup<Relay>) -> Option<Event> {
    match world.enabled_first() {
        Some(event) => Some(event),
        None => world.first_of(setup, Actor::Script),
    }
}

/// Lets an event happen. A world that has come too far to promise room for it says so as want of memory.
fn step(
    world: &mut World<Relay>,
    setup: &Setup<Relay>,
    event: &Event,
) -> std::result::Result<(), StepNo>
    requires setup { IsValidSetup setup.now }
    requires fits { Fits (λ relay. 0) setup.now world.old }
    ensures { Fits (λ relay. 0) setup.now world.new }
{
    if world.events() > 1 << 30 || world.inputs() > 1000 {
        return Err(StepNo::OutOfMemory);
    }
    world.step(setup, event)
}

/// Lets so many events happen, as long as there are any, and counts the packets that switches take.
fn run(
    world: &mut World<Relay>,
    setup: &Setup<Relay>,
    events: u64,
) -> std::result::Result<u64, StepNo>
    requires setup { IsValidSetup setup.now }
    requires fits { Fits (λ relay. 0) setup.now world.old }
    ensures { Fits (λ relay. 0) setup.now world.new }
{
    let mut packets: u64 = 0;
    for _ in 0..events {
        let Some(event) = next(world, setup) else {
            return Ok(packets);
        };
        step(world, setup, &event)?;
        if let Event::Pkt { .. } = event {
            packets = packets.wrapping_add(1);
        }
    }
    Ok(packets)
}

/// How long so many events take, and how many packets the switches take in them.
fn timed_run<R: Clock>(
    rt: &R,
    world: &mut World<Relay>,
    setup: &Setup<Relay>,
    events: u64,
) -> Result<Figure>
    requires setup { IsValidSetup setup.now }
    requires fits { Fits (λ relay. 0) setup.now world.old }
    ensures { Fits (λ relay. 0) setup.now world.new }
{
    let start = Instant::now(rt)?;
    let sum = run(world, setup, events)?;
    let time = start.elapsed(rt)?;
    Ok(Figure { time, sum })
}

/// Times the first and the last of the four quarters of a run from a world.
fn timed_quarters<R: Clock>(
    rt: &R,
    world: &mut World<Relay>,
    setup: &Setup<Relay>,
    quarter: u64,
) -> Result<(Figure, Figure)>
    requires setup { IsValidSetup setup.now }
    requires fits { Fits (λ relay. 0) setup.now world.old }
    ensures { Fits (λ relay. 0) setup.now world.new }
{
    let first = timed_run(rt, world, setup, quarter)?;
    timed_run(rt, world, setup, quarter.saturating_mul(2))?;
    let last = timed_run(rt, world, setup, quarter)?;
    Ok((first, last))
}

/// The world with which a run of the setup starts.
pub(crate) fn started(alloc: Global, setup: &Setup<Relay>) -> Result<World<Relay>>
    ensures setup { IfOk result (λ world. IsValidSetup setup.now) }
    ensures fits { IfOk result (λ world. Fits (λ relay. 0) setup.now world) }
{
    if !setup.is_valid(alloc)? {
        bail!("no run can start from a network of this size");
    }
    Ok(World::start(alloc, setup)?)
}

/// Times the first and the last of the four quarters of a run on a network of this size.
pub fn timed<R: Clock + AllocGlobal>(rt: &R, size: Size, quarter: u64) -> Result<Figures> {
    let links = links_of_ring(rt.alloc(), size.switches)?;
    let setup = relayed(rt.alloc(), size, links, 1, MOST_EVENTS)?;
    let mut world = started(rt.alloc(), &setup)?;
    let (first, last) = timed_quarters(rt, &mut world, &setup, quarter)?;
    Ok(Figures {
        first,
        last,
        events: world.events(),
        inputs: world.inputs(),
    })
}
