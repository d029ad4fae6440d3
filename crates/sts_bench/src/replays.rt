//! Replays of a run in which packets go along a line of switches, and each switch has to ask the controller where to send them.
ghost use Rattle.std.specs.Prelude.{◌≤◌};
ghost use Rattle.machine_setup.specs.Setup.{IsValidSetup};
ghost use Rattle.event_machine.specs.Legal.{IsLegalRun};

use crate::worlds::{SIZES, links_of_line, relayed, started};
use anyhow::Result;
use causal_replay::replay;
use controller_api::Controller;
use event_machine::Trace;
use machine_setup::Setup;
use run_recorder::Recorder;
use std::alloc::Global;
use std::time::{Clock, Duration, Instant};

/// How many packets the host sends.
const PACKETS: usize = 128;

/// What the replays of one run took.
#[derive(Clone, Copy, Debug)]
pub struct Figures {
    pub all: Replayed,
    pub half: Replayed,
    pub none: Replayed,
}

/// What a replay took, and came to.
#[derive(Clone, Copy, Debug)]
pub struct Replayed {
    pub time: Duration,
    pub steps: usize,
    pub absent: usize,
}

/// Times the replays of a run of so many events that keep all inputs, every second one, and none.
pub fn timed<R: Clock + AllocGlobal>(rt: &R, max_events: u32) -> Result<Figures> {
    let size = SIZES[0];
    let links = links_of_line(rt.alloc(), size.switches)?;
    let setup = relayed(rt.alloc(), size, links, PACKETS, max_events)?;
    started(rt.alloc(), &setup)?;
    timed_replays(rt, &setup)
}

fn timed_replays<R: Clock + AllocGlobal, C: Controller>(rt: &R, setup: &Setup<C>) -> Result<Figures>
    requires { IsValidSetup setup.now }
{
    let (recorder, parts) = Recorder::open(rt.alloc(), setup, 1)?;
    let (trace, _) = recorder.rest(parts)?;
    Ok(Figures {
        all: timed_replay(rt, setup, &trace, 1)?,
        half: timed_replay(rt, setup, &trace, 2)?,
        none: timed_replay(rt, setup, &trace, usize::MAX)?,
    })
}

// Keeps the inputs whose positions, counted from 1, are multiples of a number.
fn timed_replay<R: Clock + AllocGlobal, C: Controller>(
    rt: &R,
    setup: &Setup<C>,
    trace: &Trace,
    every: usize,
) -> Result<Replayed>
    requires setup { IsValidSetup setup.now }
    requires legal { IsLegalRun C.react C.start setup.now trace.now }
    requires every { 1 ≤ every }
{
    let mut keep = vec![in rt.alloc(); false; setup.script.len()]?;
    for (position, kept) in keep.iter_mut().enumerate() {
        *kept = (position + 1) % every == 0;
    }
    let start = Instant::now(rt)?;
    let replayed = replay(rt.alloc(), setup, trace, keep.as_slice())?;
    let time = start.elapsed(rt)?;
    Ok(Replayed {
        time,
        steps: replayed.run.len(),
        absent: replayed.absent.len(),
    })
}
