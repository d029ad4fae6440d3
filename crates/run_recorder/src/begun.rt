//! The beginning of a run.
ghost use Rattle.std.specs.Prelude.{◌≡◌, ◌<◌, ◌≤◌, ◌↔◌, ◌∷◌, ◌++◌, [], length, All, IsTrue, IfOk, IsSomeAnd, OnOk, OnErr};
ghost use Rattle.machine_setup.specs.Setup.{IsValidSetup};
ghost use Rattle.event_world.specs.Answers.{IsActor, first_event_of};
ghost use Rattle.event_world.specs.World.{head_number};
ghost use Rattle.event_world.specs.Fits.{Fits};
ghost use Rattle.event_machine.specs.Holding.{IsEntryOf};
ghost use Rattle.event_machine.specs.Legal.{EndsAs, IsLegalRun, earlier_of, world_after};
ghost use Rattle.event_machine.specs.Rule.{rule_event};
ghost use Rattle.run_recorder.specs.Recording.{IsBegun, IsComplete, MayStand, entry_in, item_for};
ghost use Rattle.run_recorder.specs.Rest.{GoesOnAlone, IsRuled};

use controller_api::Controller;
use event_machine::laws::{a_history_goes_on_by_a_legal_entry, inputs_are_lines, the_rule_goes_on};
use event_machine::{End, Entry, Setup, Trace, is_done};
use event_world::{Actor, Event, World};
use listed::{Listed, Plain};
use message_pools::Item;
use std::alloc::{AllocError, Global};
use std::marker::Model;

/// So many entries of a legal run, and the world to which they lead. It has room for all entries that the run may have.
#[derive(Drop)]
pub(crate) struct Begun<'a, C: Controller> {
    setup: &'a Setup<C>,
    pub(crate) entries: Vec<Entry>,
    world: World<C>,
}

impl<'a, C: Controller> Model for Begun<'a, C> {
    ghost use Rattle.std.specs.Prelude.{◌≤◌, vec_capacity};
    ghost use Rattle.run_recorder.specs.Recording.{Begun, IsBegun};

    ghost Value = { Begun C };

    ghost view = { λ b. record { setup = b.setup.now; entries = b.entries.items; world = b.world } };

    ghost invariant = { λ b. IsBegun C.react C.start C.policies (record { setup = b.setup.now; entries = b.entries.items; world = b.world })
        × (b.setup.now.limits.max_events ≤ vec_capacity b.entries) };
}

impl<'a, C: Controller> Begun<'a, C> {
    /// Nothing has happened yet. All room for entries is made here.
    pub(crate) fn start(alloc: Global, setup: &'a Setup<C>) -> Result<Begun<'a, C>, AllocError>
        requires { IsValidSetup setup.now }
        ensures setup { IfOk result (λ begun. begun.setup ≡ setup.now) }
        ensures entries { IfOk result (λ begun. begun.entries ≡ []) }
    {
        a_history_goes_on_by_a_legal_entry::<C>();
        let world = World::start(alloc, setup)?;
        let entries = Vec::with_capacity(alloc, setup.limits.max_events as usize)?;
        Ok(Begun {
            setup,
            entries,
            world,
        })
    }

    /// How many entries there are.
    pub(crate) fn len(&self) -> u64
        ensures { result ≡ length self.now.entries }
    {
        self.entries.len() as u64
    }

    /// Whether nothing is left to happen.
    pub(crate) fn is_complete(&self) -> bool
        ensures { IsTrue result ↔ IsComplete C.react C.start self.now.setup self.now.entries }
    {
        self.is_full() || is_done(&self.world, self.setup)
    }

    // Whether there are as many entries as there may be.
    fn is_full(&self) -> bool
        ensures { IsTrue result ↔ (length self.now.entries ≡ self.now.setup.limits.max_events) }
    {
        self.entries.len() as u64 == u64::from(self.setup.limits.max_events)
    }

    /// The first event of an actor.
    pub(crate) fn first_of(&self, actor: Actor) -> Option<Event>
        requires { IsActor self.now.setup actor }
        ensures { result ≡ first_event_of self.now.setup self.now.world.shared actor }
    {
        self.world.first_of(self.setup, actor)
    }

    /// The number of the first item of the pool that an event takes from.
    pub(crate) fn head_number(&self, event: &Event) -> Option<u64>
        ensures { result ≡ head_number self.now.world.shared event.now }
    {
        let (number, _) = self.world.head_of(event)?;
        Some(number)
    }

    // The item that an event takes.
    fn item_for(&self, event: &Event) -> Result<Option<Item>, AllocError>
        ensures { IfOk result (λ item. item ≡ item_for self.now.world.shared event.now) }
    {
        match self.world.head_of(event) {
            Some((_, item)) => Ok(Some(item.copy()?)),
            None => Ok(None),
        }
    }

    /// An event happens, as an entry of a worker under its next number. After want of memory nothing has happened.
    pub(crate) fn enter(&mut self, worker: u32, number: u64, event: Event) -> Result<(), AllocError>
        requires goes_on { ¬ IsComplete C.react C.start self.old.setup self.old.entries }
        requires legal { MayStand self.old.setup self.old.world event }
        requires number { number ≡ earlier_of self.old.entries (length self.old.entries) worker }
        ensures setup { self.new.setup ≡ self.old.setup }
        ensures ok { OnOk result (self.new.entries ≡ self.old.entries ++ entry_in self.old.world worker number event ∷ []) }
        ensures begun { IsBegun C.react C.start C.policies self.new }
        ensures err { OnErr result (self.new ≡ self.old) }
    {
        a_history_goes_on_by_a_legal_entry::<C>();
        inputs_are_lines::<C>();
        let item = self.item_for(&event)?;
        if self.world.step(self.setup, &event).is_err() {
            return Err(AllocError);
        }
        self.entries
            .push(Entry {
                worker,
                number,
                event,
                item,
            })
            .unwrap();
        Ok(())
    }

    // What happens next where one thread runs the machine. Until nothing is left to happen there is such an event, and it may
    // stand next.
    fn ruled(&self) -> Option<Event>
        ensures event { result ≡ rule_event self.now.setup self.now.world.shared }
        ensures goes_on { ¬ IsComplete C.react C.start self.now.setup self.now.entries → IsSomeAnd result (λ event. MayStand self.now.setup self.now.world event) }
        ensures begun { IsBegun C.react C.start C.policies self.now }
    {
        the_rule_goes_on::<C>();
        inputs_are_lines::<C>();
        match self.world.enabled_first() {
            Some(event) => Some(event),
            None => self.world.first_of(self.setup, Actor::Script),
        }
    }

    /// Goes on by the rule of one thread until nothing is left to happen, as worker 0, which has entered nothing before.
    pub(crate) fn complete(self) -> Result<(Trace, World<C>), AllocError>
        requires { All (λ entry. 1 ≤ entry.worker) self.entries }
        ensures legal { IfOk result (λ r. IsLegalRun C.react C.start self.entry.setup r.0) }
        ensures world { IfOk result (λ r. r.1 ≡ world_after C.react C.start self.entry.setup r.0) }
        ensures fits { IfOk result (λ r. Fits C.policies self.entry.setup r.1) }
        ensures rest { IfOk result (λ r. GoesOnAlone C.react C.start self.entry.setup self.entry.entries r.0.entries) }
        ensures holding { IfOk result (λ r. All (IsEntryOf self.entry.setup) r.0.entries) }
    {
        let mut begun = self;
        let mut number = 0;
        while !begun.is_complete() {
            begun.enter_ruled(number)?;
            number += 1;
        }
        Ok(begun.end())
    }

    // The next event by the rule of one thread happens, as an entry of worker 0.
    fn enter_ruled(&mut self, number: u64) -> Result<(), AllocError>
        requires goes_on { ¬ IsComplete C.react C.start self.old.setup self.old.entries }
        requires number { number ≡ earlier_of self.old.entries (length self.old.entries) 0 }
        ensures setup { self.new.setup ≡ self.old.setup }
        ensures begun { IsBegun C.react C.start C.policies self.old }
        ensures ok { OnOk result (IsRuled self.old.setup self.old.world number self.old.entries self.new.entries) }
        ensures err { OnErr result (self.new ≡ self.old) }
    {
        let Some(event) = self.ruled() else {
            unreachable!()
        };
        self.enter(0, number, event)
    }

    // How a run ended, where nothing is left to happen.
    fn ending(&self) -> End
        requires { IsComplete C.react C.start self.now.setup self.now.entries }
        ensures { EndsAs self.now.setup self.now.world (length self.now.entries) result }
    {
        if is_done(&self.world, self.setup) {
            End::Quiet
        } else {
            End::Full
        }
    }

    // The trace and the world, where nothing is left to happen.
    fn end(self) -> (Trace, World<C>)
        requires { IsComplete C.react C.start self.setup self.entries }
        ensures legal { IsLegalRun C.react C.start self.entry.setup result.0 }
        ensures entries { result.0.entries ≡ self.entry.entries }
        ensures world { result.1 ≡ world_after C.react C.start self.entry.setup result.0 }
        ensures fits { Fits C.policies self.entry.setup result.1 }
        ensures holding { All (IsEntryOf self.entry.setup) result.0.entries }
    {
        let end = self.ending();
        let Begun {
            setup: _,
            entries,
            world,
        } = self;
        let trace = Trace {
            entries: Listed::of(entries),
            end,
        };
        (trace, world)
    }
}
