//! A replay: what becomes of a history where only some lines of its script are given.
ghost use Rattle.std.specs.Prelude.{◌≡◌, ℕ, ◌+◌, ◌<◌, ◌≤◌, ◌^◌, [], ◌∷◌, ◌++◌, length, Some, None, IfOk, OnOk, IfSome};
ghost use Rattle.machine_setup.specs.Setup.{IsValidSetup};
ghost use Rattle.event_world.specs.Answers.{IsInputEvent};
ghost use Rattle.event_world.specs.Fits.{Fits};
ghost use Rattle.event_world.specs.World.{IsEnabled, next};
ghost use Rattle.event_world.specs.declared.event.Event.TheVariants.{In};
ghost use Rattle.event_machine.specs.Legal.{IsLegalRun};
ghost use Rattle.causal_replay.specs.Going.{Awaits, GoesOn, IsReady};
ghost use Rattle.causal_replay.specs.Replay.{HasExpected, IsExpected, IsReplay};

use controller_api::Controller;
use event_machine::{Entry, Event, Setup, StepNo, Trace, World};
use listed::Listed;
use masked_equivalence::alike;
use std::alloc::{AllocError, Global};

/// Why a replay took an event.
#[derive(Clone, Copy, Debug, PartialEq, Eq)]
pub enum Why {
    /// It is an input that is kept.
    Input,
    /// It takes an item alike to that of the trace's entry at this place.
    Expected { entry: u32 },
    /// It was enabled first while an entry was waited for.
    Extra,
}

/// One event of a replay. The number of an item is the one that it has in the replay.
#[derive(Clone, Copy, Debug, PartialEq, Eq)]
pub struct Taken {
    pub event: Event,
    pub why: Why,
}

/// The events of a replay in their order.
pub type Steps = Listed<Taken>;

/// Places in a list, from 0.
pub type Indices = Listed<u32>;

/// What a replay came to.
#[derive(Drop)]
pub struct Replayed<C> {
    pub run: Steps,
    /// The places of the trace's entries that never came.
    pub absent: Indices,
    /// The world at the end.
    pub world: World<C>,
}

/// The replay of a trace that gives the lines of the script that are to be kept, told by their positions, and no others.
pub fn replay<C: Controller>(
    alloc: Global,
    setup: &Setup<C>,
    trace: &Trace,
    keep: &[bool],
) -> Result<Replayed<C>, AllocError>
    requires setup { IsValidSetup setup.now }
    requires legal { IsLegalRun C.react C.start setup.now trace.now }
    requires keep { length keep.now ≡ length setup.now.script }
    ensures replay { IfOk result (λ replayed. IsReplay C.react C.start setup.now trace.now.entries keep.now replayed.run replayed.absent replayed.world) }
    ensures fits { IfOk result (λ replayed. Fits C.policies setup.now replayed.world) }
{
    let mut replayed = Replayed {
        run: Listed::new(alloc),
        absent: Listed::new(alloc),
        world: World::start(alloc, setup)?,
    };
    for (at, entry) in trace.entries.iter().enumerate() {
        replayed.go_on(setup, keep, at as u32, entry)?;
    }
    Ok(replayed)
}

impl<C: Controller> Replayed<C> {
    // Goes on by the entry at a place.
    fn go_on(
        &mut self,
        setup: &Setup<C>,
        keep: &[bool],
        at: u32,
        entry: &Entry,
    ) -> Result<(), AllocError>
        requires setup { IsValidSetup setup.now }
        requires keep { length keep.now ≡ length setup.now.script }
        requires fits { Fits C.policies setup.now self.old.world }
        requires events { self.old.world.shared.events < 2 ^ 30 }
        requires line { IsReady setup.now self.old.world entry.now.event }
        ensures { OnOk result (GoesOn C.react C.policies setup.now keep.now at entry.now self.old.run self.new.run self.old.absent self.new.absent self.old.world self.new.world) }
    {
        if let Event::In(position) = entry.event {
            if keep[position as usize] {
                self.take(setup, entry.event, Why::Input)?;
            }
            return Ok(());
        }
        match self.awaited(setup, entry)? {
            Some(event) => self.take(setup, event, Why::Expected { entry: at })?,
            None => self.absent.push(at)?,
        }
        Ok(())
    }

    // The event that an entry expects, after as many extra events as it takes. None where it does not come.
    fn awaited(&mut self, setup: &Setup<C>, entry: &Entry) -> Result<Option<Event>, AllocError>
        requires setup { IsValidSetup setup.now }
        requires fits { Fits C.policies setup.now self.old.world }
        requires events { self.old.world.shared.events < 2 ^ 30 }
        ensures awaited { IfOk result (λ awaited. Awaits C.react C.policies setup.now entry.now self.old.run self.new.run self.old.world self.new.world awaited) }
        ensures absent { self.new.absent ≡ self.old.absent }
    {
        for _ in 0..setup.limits.budget {
            let expected = self.expected(entry);
            if expected.is_some() {
                return Ok(expected);
            }
            let Some(event) = self.world.enabled_first() else {
                return Ok(None);
            };
            self.take(setup, event, Why::Extra)?;
        }
        Ok(self.expected(entry))
    }

    // The event that takes the head of the entry's pool, where the head is alike to the entry's item.
    fn expected(&self, entry: &Entry) -> Option<Event>
        ensures some { IfSome result (λ event. IsExpected self.now.world.shared entry.now event) }
        ensures none { result ≡ None → ¬ HasExpected self.now.world.shared entry.now }
    {
        let name = entry.event.pool()?;
        let item = entry.item.as_ref()?;
        let (number, head) = self.world.head_of(&entry.event)?;
        if !alike(head, item) {
            return None;
        }
        Some(Event::taking(name, number))
    }

    // Takes an event that is enabled.
    fn take(&mut self, setup: &Setup<C>, event: Event, why: Why) -> Result<(), AllocError>
        requires setup { IsValidSetup setup.now }
        requires fits { Fits C.policies setup.now self.old.world }
        requires events { self.old.world.shared.events < 2 ^ 31 }
        requires inputs { IsInputEvent event → self.old.world.shared.inputs < 4294 }
        requires enabled { IsEnabled setup.now self.old.world event }
        ensures run { OnOk result (self.new.run ≡ self.old.run ++ record { event = event; why = why } ∷ []) }
        ensures world { OnOk result (self.new.world ≡ next C.react setup.now self.old.world event) }
        ensures fits { Fits C.policies setup.now self.new.world }
        ensures absent { self.new.absent ≡ self.old.absent }
    {
        match self.world.step(setup, &event) {
            Ok(()) => self.run.push(Taken { event, why }),
            Err(StepNo::OutOfMemory) => Err(AllocError),
            Err(StepNo::NotEnabled { .. }) => unreachable!(),
        }
    }
}
