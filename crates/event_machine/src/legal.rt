//! Whether a history is a legal run.
ghost use Rattle.std.specs.Prelude.{◌≡◌, ◌≤◌, ◌↔◌, ℕ, Some, IsTrue, IfOk, IfErr, OnOk};
ghost use Rattle.machine_setup.specs.Setup.{IsValidSetup};
ghost use Rattle.event_world.specs.Answers.{next_line};
ghost use Rattle.event_world.specs.Fits.{Fits};
ghost use Rattle.event_world.specs.World.{next, start};
ghost use Rattle.event_world.specs.declared.event.Event.TheVariants.{In};
ghost use Rattle.event_machine.specs.Numbers.{number_of, CountsEntry};
ghost use Rattle.event_machine.specs.Legal.{EndsAs, IsDone, IsHead, IsLegalEvent, IsLegalIn, IsLegalRun, IsWrong, IsWrongEntry, world_after};

use crate::numbers::Numbers;
use crate::trace::{End, Entry, Trace};
use controller_api::Controller;
use event_world::{Actor, Event, StepNo, World};
use listed::Plain;
use machine_setup::Setup;
use message_pools::Item;
use std::alloc::{AllocError, Global};
use thiserror::Error;

/// What is wrong with a trace.
#[derive(Clone, Copy, Debug, PartialEq, Eq, Error)]
pub enum LogNo {
    /// The event can't happen there, its item is not the one that it takes, its line is not the next one or has to wait, or
    /// the run has no room for it.
    #[error("entry {at} is not legal")]
    NotLegal { at: u64 },
    /// The entry's number is not the one after its worker's last.
    #[error("entry {at} has number {has}, and its worker's next is {want}")]
    WorkerOrder { at: u64, want: u64, has: u64 },
    /// The run is not complete, or it ended in the other way.
    #[error("the trace does not end as it says")]
    EndWrong,
    #[error("out of memory")]
    OutOfMemory,
}

impl From<AllocError> for LogNo {
    ghost use Rattle.std.specs.Prelude.{◌≡◌};
    ghost use Rattle.event_machine.specs.declared.legal.LogNo.TheVariants.{OutOfMemory};

    ghost from_gives = { λ _ no. no ≡ OutOfMemory };

    fn from(_: AllocError) -> LogNo {
        LogNo::OutOfMemory
    }
}

/// The world after a trace, where the trace is a legal run of the setup in worker order; else what is wrong at the first
/// entry that is not as it should be.
pub fn check_legal<C: Controller>(
    alloc: Global,
    setup: &Setup<C>,
    trace: &Trace,
) -> Result<World<C>, LogNo>
    requires { IsValidSetup setup.now }
    ensures legal { OnOk result (IsLegalRun C.react C.start setup.now trace.now) }
    ensures world { IfOk result (λ world. world ≡ world_after C.react C.start setup.now trace.now) }
    ensures fits { IfOk result (λ world. Fits C.policies setup.now world) }
    ensures wrong { IfErr result (λ no. IsWrong C.react C.start setup.now trace.now no) }
{
    let mut run = Run::start(alloc, setup)?;
    for (at, entry) in trace.entries.iter().enumerate() {
        run.take(setup, at as u64, entry)?;
    }
    if !ends_as(&run.world, setup, trace.entries.len(), trace.end) {
        return Err(LogNo::EndWrong);
    }
    Ok(run.world)
}

// What the entries so far lead to.
#[derive(Drop)]
struct Run<C> {
    world: World<C>,
    numbers: Numbers,
}

impl<C: Controller> Run<C> {
    // Before the first entry.
    fn start(alloc: Global, setup: &Setup<C>) -> Result<Run<C>, AllocError>
        requires { IsValidSetup setup.now }
        ensures world { IfOk result (λ run. run.world ≡ start C.start setup.now) }
        ensures fits { IfOk result (λ run. Fits C.policies setup.now run.world) }
        ensures numbers { IfOk result (λ run. (worker : ℕ) → number_of run.numbers worker ≡ 0) }
    {
        Ok(Run {
            world: World::start(alloc, setup)?,
            numbers: Numbers::new(alloc),
        })
    }

    // Goes on by an entry.
    fn take(&mut self, setup: &Setup<C>, at: u64, entry: &Entry) -> Result<(), LogNo>
        requires setup { IsValidSetup setup.now }
        requires fits { Fits C.policies setup.now self.old.world }
        requires events { self.old.world.shared.events ≡ at }
        requires numbers { number_of self.old.numbers entry.now.worker ≤ at }
        ensures legal { OnOk result (IsLegalIn setup.now self.old.world at entry.now) }
        ensures number { OnOk result (entry.now.number ≡ number_of self.old.numbers entry.now.worker) }
        ensures world { OnOk result (self.new.world ≡ next C.react setup.now self.old.world entry.now.event) }
        ensures numbers { OnOk result (CountsEntry self.old.numbers self.new.numbers entry.now.worker) }
        ensures fits { Fits C.policies setup.now self.new.world }
        ensures wrong { IfErr result (λ no. IsWrongEntry setup.now self.old.world (number_of self.old.numbers entry.now.worker) at entry.now no) }
    {
        if at >= u64::from(setup.limits.max_events) || !may_follow(&self.world, setup, entry) {
            return Err(LogNo::NotLegal { at });
        }
        let want = self.numbers.next_of(entry.worker);
        if entry.number != want {
            return Err(LogNo::WorkerOrder {
                at,
                want,
                has: entry.number,
            });
        }
        self.numbers.count(entry.worker)?;
        match self.world.step(setup, &entry.event) {
            Ok(()) => Ok(()),
            Err(StepNo::NotEnabled { .. }) => Err(LogNo::NotLegal { at }),
            Err(StepNo::OutOfMemory) => Err(LogNo::OutOfMemory),
        }
    }
}

// Whether an entry's event may happen in a world, with the entry's item.
fn may_follow<C: Controller>(world: &World<C>, setup: &Setup<C>, entry: &Entry) -> bool
    ensures { IsTrue result ↔ IsLegalEvent setup.now world.now entry.now.event entry.now.item }
{
    match entry.event {
        Event::In(position) => entry.item.is_none() && is_next_line(world, setup, position),
        _ => has_head(world, &entry.event, &entry.item),
    }
}

// Whether the line at the position is the script's next one, and has not to wait.
fn is_next_line<C: Controller>(world: &World<C>, setup: &Setup<C>, position: u32) -> bool
    ensures { IsTrue result ↔ (next_line setup.now.script world.now.shared ≡ Some (In position)) }
{
    world.first_of(setup, Actor::Script) == Some(Event::In(position))
}

// Whether an item is the first one of the pool that the event takes from, and has the event's number.
fn has_head<C: Controller>(world: &World<C>, event: &Event, item: &Option<Item>) -> bool
    ensures { IsTrue result ↔ IsHead world.now.shared event.now item.now }
{
    match (world.head_of(event), item) {
        (Some((first, head)), Some(item)) => first == event.number() && head.same(item),
        _ => false,
    }
}

// Whether the run is complete after so many events, with this end.
fn ends_as<C: Controller>(world: &World<C>, setup: &Setup<C>, events: usize, end: End) -> bool
    ensures { IsTrue result ↔ EndsAs setup.now world.now events end }
{
    let done = is_done(world, setup);
    match end {
        End::Quiet => done,
        End::Full => events as u64 == u64::from(setup.limits.max_events) && !done,
    }
}

/// Whether the script is used up, and nothing waits.
pub fn is_done<C: Controller>(world: &World<C>, setup: &Setup<C>) -> bool
    ensures { IsTrue result ↔ IsDone setup.now world.now }
{
    world.inputs() as usize == setup.script.len() && world.quiet()
}
