//! What a seat knows of the history, the rule of the table, and the kinds of atomic step. No value of a view is made.
ghost use Rattle.std.specs.Prelude.{ℕ, List};

use crate::book::Book;
use atomic_table::{Join, Play, Split, TableRule};
use std::collections::LinkedList;
use std::marker::PhantomData;
use std::snapshot::Snapshot;

/// What one seat knows. It exists in the proofs alone.
pub struct View<E, S> {
    /// Until it is joined away, or its book is closed.
    pub live: bool,
    /// Its book was closed, and `close` handed it back.
    pub closed: bool,
    /// Different numbers below 64. Their number is the seat's shares.
    pub marks: LinkedList<u64>,
    /// Of the book, as it was at the opening.
    pub subject: Option<S>,
    /// How many entries the book had at the opening.
    pub start: u64,
    /// The longest beginning of the history that the seat has seen.
    pub seen: LinkedList<E>,
    /// What one of two joined seats had seen, where the other had seen more.
    pub told: LinkedList<E>,
    /// The places in the history of the seat's own calls, a list for each seat that was joined into it.
    pub own: LinkedList<LinkedList<u64>>,
    /// It has the turn.
    pub holds: bool,
    /// The number that it met or stored last.
    pub last: u64,
    /// The numbers that its looks met, in order.
    pub met: LinkedList<u64>,
    /// How many turns it won.
    pub turns: u64,
}

/// The rule of the table: the shared history.
pub struct OneHistory<B> {
    book: PhantomData<B>,
}

impl<B: Book> TableRule<Option<B>, View<B::Entry, B::Subject>, Snapshot<B>> for OneHistory<B> {
    ghost use Rattle.std.specs.Prelude.{length};
    ghost use Rattle.turn_book.specs.History.{Kept};
    ghost use Rattle.turn_book.specs.Steps.{opener};

    ghost holds = { λ key s. Kept B.history B.subject B.mark (length (B.history key.value)) (B.subject key.value) s };

    ghost first = { λ key. opener (B.history key.value) (B.subject key.value) };
}

/// A load that counts as a look.
pub struct Look;

impl<B: Book> Play<Option<B>, View<B::Entry, B::Subject>> for Look {
    ghost use Rattle.turn_book.specs.Steps.{Looks};

    ghost then = { Looks B.mark };
}

/// The exchange that wins the turn or loses it.
pub struct Try;

impl<B: Book> Play<Option<B>, View<B::Entry, B::Subject>> for Try {
    ghost use Rattle.turn_book.specs.Steps.{Tries};

    ghost then = { Tries B.history B.subject B.mark };
}

/// The load after a split or a join, which is no look.
pub struct Note;

impl<B: Book> Play<Option<B>, View<B::Entry, B::Subject>> for Note {
    ghost use Rattle.turn_book.specs.Steps.{Notes};

    ghost then = { Notes B.mark };
}

/// The store that gives the turn back with nothing added.
pub struct Leave;

impl<B: Book> Play<Option<B>, View<B::Entry, B::Subject>> for Leave {
    ghost use Rattle.turn_book.specs.Steps.{Leaves};

    ghost then = { Leaves B.mark };
}

/// The store that gives the turn back with one entry more.
pub struct Commit;

impl<B: Book> Play<Option<B>, View<B::Entry, B::Subject>> for Commit {
    ghost use Rattle.turn_book.specs.Steps.{Commits};

    ghost then = { Commits B.history B.mark };
}

/// One share goes to a new seat.
pub struct OneShare;

impl<E, S> Split<View<E, S>> for OneShare {
    ghost use Rattle.turn_book.specs.Steps.{parent, child};

    ghost left = { parent };

    ghost right = { child };
}

/// The step that ends the book, before its table is closed: a second view, that of a closed book, for the seat that `close` hands back.
pub struct Ending;

impl<E, S> Split<View<E, S>> for Ending {
    ghost use Rattle.turn_book.specs.Steps.{ended};

    ghost left = { λ v. v };

    ghost right = { ended };
}

/// Two seats are one.
pub struct Together;

impl<E, S> Join<View<E, S>> for Together {
    ghost use Rattle.turn_book.specs.Steps.{both, joined_away};

    ghost both = { both };

    ghost spent = { joined_away };
}
