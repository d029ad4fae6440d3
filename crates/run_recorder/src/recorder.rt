//! The recorder.
ghost use Rattle.std.specs.Prelude.{◌≡◌, ◌<◌, ◌≤◌, ◌-◌, ◌*◌, IfOk, All, [], Some, length};
ghost use Rattle.machine_setup.specs.Setup.{IsValidSetup};
ghost use Rattle.turn_book.specs.History.{IsMarked};
ghost use Rattle.turn_book.specs.Places.{times};
ghost use Rattle.turn_book.specs.Steps.{left, opener};
ghost use Rattle.turn_book.specs.Words.{IsSeatOf, book_id, held_book, held_id, held_view, view_of};
ghost use Rattle.event_world.specs.Answers.{IsActor, IsInputEvent};
ghost use Rattle.event_world.specs.Events.{actor_of};
ghost use Rattle.event_machine.specs.Holding.{IsEntryOf};
ghost use Rattle.event_machine.specs.Legal.{IsLegalRun, earlier_of, world_after};
ghost use Rattle.event_world.specs.Fits.{Fits};
ghost use Rattle.run_recorder.specs.Answers.{AreDealt, AreParts, BecomesOf, HasActor, HasSeenOf, IsCommit, IsDue, IsFound, IsGivenBack, IsIdle, IsOffer, IsOwnerOf, IsPartOf, RestComesLast};
ghost use Rattle.run_recorder.specs.Parts.{IsGathered, IsUndealt, working_of};
ghost use Rattle.run_recorder.specs.Recorder.{recorded};
ghost use Rattle.run_recorder.specs.Recording.{IsRecording, IsWorking, MayStand};
ghost use Rattle.run_recorder.specs.Rest.{RestIsRuled};
ghost use Rattle.run_recorder.specs.Workers.{entry_mark, mark_of, worker_of};

use crate::answers::{Committed, Offered};
use crate::book::{RunBook, Subject};
use crate::part::{Part, Parts, Place, RunSeat};
use crate::task::Deed;
use controller_api::Controller;
use event_machine::laws::a_line_stays_due;
use event_machine::{Entry, Setup, Trace};
use event_world::{Actor, World};
use listed::Listed;
use std::alloc::{AllocError, Global};
use turn_book::{Held, TurnBook, Turned};

/// Records one run of the machine by many workers, each with a part of its own. Threads share it by reference; no call waits.
#[derive(Drop)]
pub struct Recorder<'a, C: Controller> {
    turns: TurnBook<RunBook<'a, C>>,
    pub(crate) setup: &'a Setup<C>,
    workers: u32,
}

impl<'a, C: Controller> Recorder<'a, C> {
    /// A recorder of a run by so many workers, from 1 to 8, and a part for each and for worker 0. All room for entries is made here.
    pub fn open(
        alloc: Global,
        setup: &'a Setup<C>,
        workers: u32,
    ) -> Result<(Recorder<'a, C>, Parts<'a, C>), AllocError>
        requires setup { IsValidSetup setup.now }
        requires workers { (1 ≤ workers) × (workers ≤ 8) }
        ensures setup { IfOk result (λ r. (recorded r.0).setup ≡ setup.now) }
        ensures workers { IfOk result (λ r. (recorded r.0).workers ≡ workers) }
        ensures parts { IfOk result (λ r. AreParts (recorded r.0) r.1) }
        ensures idle { IfOk result (λ r. All IsIdle r.1) }
    {
        let book = RunBook::start(alloc, setup, workers)?;
        let (turns, seat) = opened(alloc, book)?;
        let recorder = Recorder {
            turns,
            setup,
            workers,
        };
        let parts = recorder.dealt(alloc, seat)?;
        Ok((recorder, parts))
    }

    // A seat for each worker, out of the one seat of a book that was just opened.
    fn dealt(&self, alloc: Global, seat: RunSeat<'a, C>) -> Result<Parts<'a, C>, AllocError>
        requires valid { IsValidSetup (recorded self.now).setup }
        requires workers { (1 ≤ (recorded self.now).workers) × ((recorded self.now).workers ≤ 8) }
        requires of { IsSeatOf (recorded self.now).book seat }
        requires left { IsUndealt (recorded self.now) 0 (view_of seat) }
        ensures parts { IfOk result (λ parts. AreParts (recorded self.now) parts) }
        ensures idle { IfOk result (λ parts. All IsIdle parts) }
    {
        let mut parts = Vec::new(alloc);
        let mut left = seat;
        for before in 0..self.workers {
            let (rest, dealt) = self.split(alloc, left, before + 1)?;
            left = rest;
            parts.push(dealt)?;
        }
        parts.insert(0, self.part(0, left))?;
        Ok(Listed::of(parts))
    }

    /// Takes a turn, and tells what an actor of the part may do next. The part sees the history.
    pub fn offer(&self, part: &mut Part<'a, C>, actor: Actor) -> Offered
        requires part { IsPartOf (recorded self.now) part.old }
        requires has { HasActor part.old actor }
        ensures part { IsPartOf (recorded self.now) part.new }
        ensures answer { IsOffer C.react C.start part.old part.new actor result }
    {
        let Some(seat) = part.place.seat.take() else {
            unreachable!()
        };
        let (seat, offered) = match self.turns.try_turn(seat) {
            Turned::Mine(held) => find(held, actor),
            Turned::Busy {
                seat,
                looked,
                found,
            } => (seat, Offered::Busy { looked, found }),
        };
        part.place.seat = Some(seat);
        offered
    }

    /// Takes a turn, and enters a deed, if its event can still happen. The deed has to come from a task that was offered to this part,
    /// which has entered no event of the deed's actor since.
    pub fn commit(&self, part: &mut Part<'a, C>, deed: Deed) -> Committed
        requires part { IsPartOf (recorded self.now) part.old }
        requires due { IsDue C.react C.start part.old deed }
        ensures part { IsPartOf (recorded self.now) part.new }
        ensures answer { IsCommit C.react C.start part.old part.new deed result }
    {
        a_line_stays_due::<C>();
        let number = part.own();
        let worker = part.worker;
        let Some(seat) = part.place.seat.take() else {
            unreachable!()
        };
        let (seat, committed) = match self.turns.try_turn(seat) {
            Turned::Mine(mut held) => {
                the_book_is_a_recording(&mut held);
                enter(held, worker, number, deed)
            }
            Turned::Busy {
                seat,
                looked,
                found,
            } => (
                seat,
                Committed::Busy {
                    deed,
                    looked,
                    found,
                },
            ),
        };
        part.place.seat = Some(seat);
        committed
    }

    /// Ends the recording, with all its parts: the run is completed by the rule of one thread, as worker 0.
    pub fn rest(self, parts: Parts<'a, C>) -> Result<(Trace, World<C>), AllocError>
        requires parts { AreParts (recorded self) parts }
        ensures legal { IfOk result (λ r. IsLegalRun C.react C.start (recorded self.entry).setup r.0) }
        ensures world { IfOk result (λ r. r.1 ≡ world_after C.react C.start (recorded self.entry).setup r.0) }
        ensures fits { IfOk result (λ r. Fits C.policies (recorded self.entry).setup r.1) }
        ensures seen { IfOk result (λ r. All (λ part. HasSeenOf part r.0.entries) parts.entry) }
        ensures own { IfOk result (λ r. All (λ part. IsOwnerOf part r.0.entries) parts.entry) }
        ensures dealt { IfOk result (λ r. AreDealt (recorded self.entry).setup (recorded self.entry).workers r.0.entries) }
        ensures last { IfOk result (λ r. RestComesLast r.0.entries) }
        ensures ruled { IfOk result (λ r. RestIsRuled C.react C.start (recorded self.entry).setup r.0.entries) }
        ensures holding { IfOk result (λ r. All (IsEntryOf (recorded self.entry).setup) r.0.entries) }
    {
        let seat = self.gathered(parts);
        let Recorder {
            turns,
            setup: _,
            workers: _,
        } = self;
        let (book, _) = turns.close(seat);
        let RunBook { begun, workers: _ } = book;
        begun.complete()
    }

    // One seat in the place of those of all parts.
    fn gathered(&self, parts: Parts<'a, C>) -> RunSeat<'a, C>
        requires parts { AreParts (recorded self.now) parts }
        ensures of { IsSeatOf (recorded self.now).book result }
        ensures subject { (view_of result).subject ≡ Some (record { setup = (recorded self.now).setup; workers = (recorded self.now).workers }) }
        ensures gathered { IsGathered parts.entry (view_of result) }
        ensures working { All IsWorking parts.entry }
    {
        let mut parts = parts.into_vec();
        let mut seat = parts.remove(0).into_seat();
        for part in parts {
            seat = self.turns.join(seat, part.into_seat());
        }
        seat
    }

    // A part for a worker, with the last mark of a seat that has made no call, and the seat with the other marks.
    fn split(
        &self,
        alloc: Global,
        seat: RunSeat<'a, C>,
        worker: u32,
    ) -> Result<(RunSeat<'a, C>, Part<'a, C>), AllocError>
        requires valid { IsValidSetup (recorded self.now).setup }
        requires worker { (1 ≤ worker) × (worker ≤ (recorded self.now).workers) × ((recorded self.now).workers ≤ 8) }
        requires of { IsSeatOf (recorded self.now).book seat }
        requires left { IsUndealt (recorded self.now) (worker - 1) (view_of seat) }
        ensures of { IfOk result (λ r. IsSeatOf (recorded self.now).book r.0) }
        ensures left { IfOk result (λ r. IsUndealt (recorded self.now) worker (view_of r.0)) }
        ensures part { IfOk result (λ r. IsPartOf (recorded self.now) r.1 × (r.1.worker ≡ worker) × IsIdle r.1) }
    {
        match self.turns.split(alloc, seat) {
            Ok((rest, dealt)) => Ok((rest, self.part(worker, dealt))),
            Err(_) => Err(AllocError),
        }
    }

    // The part of a worker with its seat.
    fn part(&self, worker: u32, seat: RunSeat<'a, C>) -> Part<'a, C>
        requires { IsWorking (working_of (recorded self.now).setup (recorded self.now).workers worker (Some seat)) }
        ensures { result ≡ working_of (recorded self.now).setup (recorded self.now).workers worker (Some seat.entry) }
    {
        Part {
            setup: self.setup,
            workers: self.workers,
            worker,
            place: Place { seat: Some(seat) },
        }
    }
}

// Opens a book. Where there is no memory it is lost.
fn opened<'a, C: Controller>(
    alloc: Global,
    book: RunBook<'a, C>,
) -> Result<(TurnBook<RunBook<'a, C>>, RunSeat<'a, C>), AllocError>
    requires { book.begun.entries ≡ [] }
    ensures of { IfOk result (λ r. IsSeatOf (book_id r.0) r.1) }
    ensures view { IfOk result (λ r. view_of r.1 ≡ opener [] (record { setup = book.entry.begun.setup; workers = book.entry.workers })) }
    ensures marked { IfOk result (λ r. IsMarked entry_mark (view_of r.1)) }
{
    match TurnBook::open(alloc, book) {
        Ok(pair) => Ok(pair),
        Err(_) => Err(AllocError),
    }
}

// The book of a turn is a recording.
fn the_book_is_a_recording<'a, C: Controller>(held: &mut Held<'_, RunBook<'a, C>>)
    ensures same { held.new ≡ held.old }
    ensures recording { IsRecording C.react C.start C.policies (held_book held.old) }
{
    let book = held.book();
    let _ = &book.begun;
}

// Tells what there is to do for an actor, and gives the turn back.
fn find<'a, C: Controller>(
    mut held: Held<'_, RunBook<'a, C>>,
    actor: Actor,
) -> (RunSeat<'a, C>, Offered)
    requires met { (held_book held).begun.entries ≡ (held_view held).seen }
    requires about { (held_view held).subject ≡ Some (record { setup = (held_book held).begun.setup; workers = (held_book held).workers }) }
    requires actor { IsActor (held_book held).begun.setup actor }
    ensures of { IsSeatOf (held_id held.entry) result.0 }
    ensures view { view_of result.0 ≡ left (2 * length (held_view held.entry).seen) (held_view held.entry) }
    ensures marked { IsMarked entry_mark (view_of result.0) }
    ensures found { IsFound C.react C.start (held_book held.entry).begun.setup (held_view held.entry).seen actor result.1 }
    ensures room { length (view_of result.0).seen ≤ (held_book held.entry).begun.setup.limits.max_events }
{
    let offered = held.book().find(actor);
    (held.leave(), offered)
}

// Enters a deed if it can, and gives the turn back.
fn enter<'a, C: Controller>(
    mut held: Held<'_, RunBook<'a, C>>,
    worker: u32,
    number: u64,
    deed: Deed,
) -> (RunSeat<'a, C>, Committed)
    requires met { (held_book held).begun.entries ≡ (held_view held).seen }
    requires about { (held_view held).subject ≡ Some (record { setup = (held_book held).begun.setup; workers = (held_book held).workers }) }
    requires worker { worker ≡ worker_of (held_book held).begun.setup (held_book held).workers (actor_of deed.task.event) }
    requires mark { 0 < times (mark_of worker) (held_view held).marks }
    requires number { number ≡ earlier_of (held_view held).seen (length (held_view held).seen) worker }
    requires line { IsInputEvent deed.task.event → MayStand (held_book held).begun.setup (held_book held).begun.world deed.task.event }
    ensures of { IsSeatOf (held_id held.entry) result.0 }
    ensures marked { IsMarked entry_mark (view_of result.0) }
    ensures becomes { BecomesOf C.react C.start (held_book held.entry).begun.setup (held_view held.entry).seen (view_of result.0).seen worker number deed result.1 }
    ensures view { IsGivenBack (held_view held.entry) (view_of result.0) result.1 }
    ensures room { length (view_of result.0).seen ≤ (held_book held.entry).begun.setup.limits.max_events }
{
    let committed = held.book().enter(worker, number, deed);
    match committed {
        Committed::Entered { .. } => (held.commit(), committed),
        _ => (held.leave(), committed),
    }
}
