//! A turn that is held.
ghost use Rattle.std.specs.Prelude.{◌≡◌, ◌+◌, ◌*◌, ◌<◌, ◌^◌, true, Some, [], ◌∷◌, ◌++◌, length};
ghost use Rattle.turn_book.specs.Places.{has_slot, times};
ghost use Rattle.turn_book.specs.Steps.{Holding, left, committed};

use crate::book::Book;
use crate::seat::Seat;
use crate::view::{Commit, Leave, OneHistory, View};
use atomic_table::{Seat as Token, Shared};
use std::snapshot::Snapshot;

/// A turn, with the book.
///
/// It is no `Drop`: it ends by `commit` or `leave`, and a turn that is not given back is a type error.
/// One that is thrown away by `mem::forget` keeps the turn for good.
pub struct Held<'a, B: Book> {
    pub(crate) shared: &'a Shared<
        Option<B>,
        View<B::Entry, B::Subject>,
        Snapshot<B>,
        OneHistory<B>,
    >,
    pub(crate) token: Token<Option<B>, View<B::Entry, B::Subject>>,
    pub(crate) book: B,
    pub(crate) word: u64,
    pub(crate) shares: u64,
    pub(crate) own: u64,
    ghost holding: { Holding shared.now.table_id token.table_id token.me word shares own },
}

// Puts the book into the slot that is out.
fn give_slot<B: Book>(
    shared: &Shared<Option<B>, View<B::Entry, B::Subject>, Snapshot<B>, OneHistory<B>>,
    token: &mut Token<Option<B>, View<B::Entry, B::Subject>>,
    book: B,
)
    requires table { token.old.table_id ≡ shared.now.table_id }
    requires slot { has_slot token.old.me.1 ≡ true }
    ensures same { (token.new.table_id ≡ token.old.table_id) × (token.new.id ≡ token.old.id) }
    ensures slot { token.new.me ≡ (token.old.me.0, (0, Some book) ∷ []) }
{
    shared.exchange(token, 0, Some(book));
}

impl<'a, B: Book> Held<'a, B> {
    ghost use Rattle.std.specs.Prelude.{[]};
    ghost use Rattle.std.specs.Borrow.{Lends, sem};
    ghost use mir.Syntax.{named};
    ghost use Rattle.turn_book.specs.contracts.held.Held.{the_row};
    ghost use Rattle.turn_book.specs.Words.{IsSeatOf, view_of, held_book, held_view, held_id, with_book};
    ghost use Rattle.turn_book.specs.History.{IsMarked};

    /// The book, to read and to add one entry to.
    pub fn book(&mut self) -> &mut B
        ensures* writes_back { sem 𝓛 (Lends (the_row (record { mir = named 1; lft = [] }) B.row B.Entry.row B.Subject.row B.Book) B.row self.entry result (with_book self.old)) }
        ensures value { result.now ≡ held_book self.old }
    {
        &mut self.book
    }

    /// Gives the turn back with one entry more, last in the history, which carries a mark of this seat.
    ///
    /// One store enters it for all callers. The history had fewer than 2^62 entries, and the subject is as it was.
    pub fn commit(self) -> Seat<B, B::Entry, B::Subject>
        requires grew { (e : B.Entry) × (B.history (held_book self) ≡ (held_view self).seen ++ e ∷ []) × (0 < times (B.mark e) (held_view self).marks) }
        requires about { (held_view self).subject ≡ Some (B.subject (held_book self)) }
        requires room { length (held_view self).seen < 2 ^ 62 }
        ensures of { IsSeatOf (held_id self.entry) result }
        ensures seat { view_of result ≡ committed (2 * length (B.history (held_book self.entry))) (B.history (held_book self.entry)) (held_view self.entry) }
        ensures marked { IsMarked B.mark (view_of result) }
    {
        let Held {
            shared,
            mut token,
            book,
            word,
            shares,
            own,
        } = self;
        give_slot(shared, &mut token, book);
        shared.store::<Commit>(&mut token, 0, word + 2);
        Seat {
            token,
            shares,
            seen: word / 2 + 1,
            own: own + 1,
        }
    }

    /// Gives the turn back with the history and the subject as they were.
    pub fn leave(self) -> Seat<B, B::Entry, B::Subject>
        requires same { B.history (held_book self) ≡ (held_view self).seen }
        requires about { (held_view self).subject ≡ Some (B.subject (held_book self)) }
        ensures of { IsSeatOf (held_id self.entry) result }
        ensures seat { view_of result ≡ left (2 * length (B.history (held_book self.entry))) (held_view self.entry) }
        ensures marked { IsMarked B.mark (view_of result) }
    {
        let Held {
            shared,
            mut token,
            book,
            word,
            shares,
            own,
        } = self;
        give_slot(shared, &mut token, book);
        shared.store::<Leave>(&mut token, 0, word);
        Seat {
            token,
            shares,
            seen: word / 2,
            own,
        }
    }
}
