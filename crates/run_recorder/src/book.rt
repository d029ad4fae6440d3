//! What stands in the turn book of a recorder.
ghost use Rattle.std.specs.Prelude.{◌≡◌, ◌≤◌, ◌↔◌, IfOk, IsTrue, [], length};
ghost use Rattle.machine_setup.specs.Setup.{IsValidSetup};
ghost use Rattle.event_world.specs.Answers.{IsActor, IsInputEvent, next_line};
ghost use Rattle.event_world.specs.Events.{actor_of};
ghost use Rattle.event_machine.specs.Legal.{earlier_of};
ghost use Rattle.run_recorder.specs.Answers.{BecomesOf, IsFound};
ghost use Rattle.run_recorder.specs.Recording.{MayStand};
ghost use Rattle.run_recorder.specs.Workers.{worker_of};

use crate::answers::{Committed, Offered};
use crate::begun::Begun;
use crate::task::{Deed, Task};
use controller_api::Controller;
use event_machine::{Entry, Setup};
use event_world::{Actor, Event};
use std::alloc::{AllocError, Global};
use std::marker::Model;
use turn_book::Book;

/// What a recording is of: a setup, and how many workers there are. No value of it is made.
#[derive(Drop)]
pub struct Subject<C> {
    pub setup: Setup<C>,
    pub workers: u32,
}

/// The beginning of a run, recorded by so many workers.
#[derive(Drop)]
pub(crate) struct RunBook<'a, C: Controller> {
    pub(crate) begun: Begun<'a, C>,
    pub(crate) workers: u32,
}

impl<'a, C: Controller> Model for RunBook<'a, C> {
    ghost use Rattle.run_recorder.specs.Recording.{IsRecording, Recording};

    ghost Value = { Recording C };

    ghost view = { λ b. record { begun = b.begun; workers = b.workers } };

    ghost invariant = { λ b. IsRecording C.react C.start C.policies (record { begun = b.begun; workers = b.workers }) };
}

impl<'a, C: Controller> Book for RunBook<'a, C> {
    ghost use Rattle.run_recorder.specs.Workers.{entry_mark};

    type Entry = Entry;

    type Subject = Subject<C>;

    ghost history = { λ b. b.begun.entries };

    ghost subject = { λ b. record { setup = b.begun.setup; workers = b.workers } };

    ghost mark = { entry_mark };

    fn entries(&self) -> u64 {
        self.begun.entries.len() as u64
    }
}

impl<'a, C: Controller> RunBook<'a, C> {
    /// A recording of which nothing has happened yet.
    pub(crate) fn start(
        alloc: Global,
        setup: &'a Setup<C>,
        workers: u32,
    ) -> Result<RunBook<'a, C>, AllocError>
        requires setup { IsValidSetup setup.now }
        requires workers { (1 ≤ workers) × (workers ≤ 8) }
        ensures setup { IfOk result (λ book. book.begun.setup ≡ setup.now) }
        ensures workers { IfOk result (λ book. book.workers ≡ workers) }
        ensures entries { IfOk result (λ book. book.begun.entries ≡ []) }
    {
        let begun = Begun::start(alloc, setup)?;
        Ok(RunBook { begun, workers })
    }

    /// What there is to do for an actor.
    pub(crate) fn find(&self, actor: Actor) -> Offered
        requires { IsActor self.now.begun.setup actor }
        ensures found { IsFound C.react C.start self.now.begun.setup self.now.begun.entries actor result }
        ensures room { length self.now.begun.entries ≤ self.now.begun.setup.limits.max_events }
    {
        let place = self.begun.len();
        if self.begun.is_complete() {
            return Offered::Ended { place };
        }
        match self.begun.first_of(actor) {
            Some(event) => Offered::Work(Task { event, place }),
            None => Offered::NothingNow { place },
        }
    }

    /// Enters a deed of a worker under its next number, if the run is not complete and the event takes the first item of its pool.
    pub(crate) fn enter(&mut self, worker: u32, number: u64, deed: Deed) -> Committed
        requires worker { worker ≡ worker_of self.old.begun.setup self.old.workers (actor_of deed.task.event) }
        requires number { number ≡ earlier_of self.old.begun.entries (length self.old.begun.entries) worker }
        requires line { IsInputEvent deed.task.event → MayStand self.old.begun.setup self.old.begun.world deed.task.event }
        ensures setup { self.new.begun.setup ≡ self.old.begun.setup }
        ensures workers { self.new.workers ≡ self.old.workers }
        ensures answer { BecomesOf C.react C.start self.old.begun.setup self.old.begun.entries self.new.begun.entries worker number deed result }
        ensures room { length self.new.begun.entries ≤ self.new.begun.setup.limits.max_events }
    {
        let event = deed.task.event;
        let place = self.begun.len();
        if self.begun.is_complete() {
            return Committed::Ended { deed, place };
        }
        if !is_input(&event) {
            let item = event.number();
            let head = self.begun.head_number(&event);
            if head != Some(item) {
                return Committed::Overtaken { deed, item, head };
            }
        }
        match self.begun.enter(worker, number, event) {
            Ok(()) => Committed::Entered { place },
            Err(_) => Committed::OutOfMemory { deed },
        }
    }
}

// Whether an event is an input.
fn is_input(event: &Event) -> bool
    ensures { IsTrue result ↔ IsInputEvent event.now }
{
    event.pool().is_none()
}
