//! The turn book.
ghost use Rattle.std.specs.Prelude.{◌≡◌, ◌+◌, ◌*◌, ◌≤◌, ◌<◌, ◌^◌, true, Some, List, [], ◌∷◌, length, IfOk, IfErr, IsOk};
ghost use Rattle.std.specs.List.{concat};

use crate::book::Book;
use crate::held::Held;
use crate::seat::Seat;
use crate::view::{Ending, Look, Note, OneHistory, OneShare, Together, Try, View};
use atomic_table::{Refused, Table};
use std::alloc::{AllocError, AllocFailed, Global};
use std::snapshot::Snapshot;

/// A book that many threads share, in turns.
///
/// Threads share it by reference, and each brings a seat of its own. No call waits: a seat that does not get the turn is told so.
#[derive(Drop)]
pub struct TurnBook<B: Book> {
    table: Table<Option<B>, View<B::Entry, B::Subject>, Snapshot<B>, OneHistory<B>, Global>,
    ghost one_word: { table.shared.table_id.words ≡ 1 },
    ghost one_slot: { table.shared.table_id.slots ≡ 1 },
}

/// What `try_turn` answers.
pub enum Turned<'a, B: Book> {
    /// The turn, with the book.
    Mine(Held<'a, B>),
    /// Another seat had the turn, or won it in between: the seat, and the numbers that its first and its last look met.
    Busy {
        seat: Seat<B, B::Entry, B::Subject>,
        looked: u64,
        found: u64,
    },
}

// The book, out of the list of slots that was refused.
fn the_book<B>(slots: &mut Vec<Option<B>>) -> B
    requires { (book : B) × (slots.old.items ≡ Some book ∷ []) }
    ensures { (slots.old.items ≡ Some result ∷ []) × (slots.new.items ≡ []) }
{
    let Some(Some(book)) = slots.pop() else {
        unreachable!()
    };
    book
}

impl<B: Book> TurnBook<B> {
    ghost use Rattle.turn_book.specs.Steps.{opener, parent, child, ended, Whole};
    ghost use Rattle.turn_book.specs.Words.{IsSeatOf, IsNoted, IsJoined, IsBusy, IsWon, LastMarkIsFree, IfMine, IfBusy, book_id, view_of, held_view, held_book, held_id, marks, seen};
    ghost use Rattle.turn_book.specs.History.{IsMarked};
    ghost use mathlib.Core.List.{IsPrefix};

    /// Opens a book, with the one seat that has all 64 marks.
    ///
    /// The book has fewer than 2^62 entries. Where there is no memory, it comes back.
    pub fn open(
        alloc: Global,
        book: B,
    ) -> Result<(TurnBook<B>, Seat<B, B::Entry, B::Subject>), (B, AllocError)>
        requires { length (B.history book) < 2 ^ 62 }
        ensures ok { IfOk result (λ r. IsSeatOf (book_id r.0) r.1 × (view_of r.1 ≡ opener (B.history book) (B.subject book))) }
        ensures marked { IfOk result (λ r. IsMarked B.mark (view_of r.1)) }
        ensures err { IfErr result (λ r. r.0 ≡ book) }
    {
        let seen = book.entries();
        let key = Snapshot::of(&book);
        let mut slots = Vec::new(alloc);
        if let Err(failed) = slots.push(Some(book)) {
            let AllocFailed { value } = failed;
            let Some(book) = value else { unreachable!() };
            slots.destroy_empty();
            return Err((book, AllocError));
        }
        match Table::new(alloc, &[2 * seen], slots, &key) {
            Ok((table, token)) => Ok((
                TurnBook { table },
                Seat {
                    token,
                    shares: 64,
                    seen,
                    own: 0,
                },
            )),
            Err(refused) => {
                let Refused { mut slots } = refused;
                let book = the_book(&mut slots);
                slots.destroy_empty();
                Err((book, AllocError))
            }
        }
    }

    /// A second seat for another caller, with the last mark of the first, all that the first has seen, and no calls.
    ///
    /// The first keeps a mark at least, and none of its own calls carries the mark that it gives away.
    /// A seat takes no memory of its own, so a split is never refused.
    pub fn split(
        &self,
        _alloc: Global,
        seat: Seat<B, B::Entry, B::Subject>,
    ) -> Result<
        (Seat<B, B::Entry, B::Subject>, Seat<B, B::Entry, B::Subject>),
        (Seat<B, B::Entry, B::Subject>, AllocError),
    >
        requires of { IsSeatOf (book_id self.now) seat }
        requires two { 2 ≤ length (marks seat) }
        requires free { LastMarkIsFree B.mark (view_of seat) }
        ensures ok { IsOk result }
        ensures first { IfOk result (λ r. IsSeatOf (book_id self.now) r.0 × (view_of r.0 ≡ parent (view_of seat))) }
        ensures second { IfOk result (λ r. IsSeatOf (book_id self.now) r.1 × IsNoted (child (view_of seat)) (view_of r.1)) }
        ensures first_marked { IsMarked B.mark (view_of seat) → IfOk result (λ r. IsMarked B.mark (view_of r.0)) }
        ensures second_marked { IfOk result (λ r. IsMarked B.mark (view_of r.1)) }
        ensures err { IfErr result (λ r. IsSeatOf (book_id self.now) r.0 × (view_of r.0 ≡ view_of seat)) }
    {
        let Seat {
            mut token,
            shares,
            seen,
            own,
        } = seat;
        let mut other = self.table.shared.split_seat::<OneShare>(&mut token);
        self.table.shared.load::<Note>(&mut other, 0);
        Ok((
            Seat {
                token,
                shares: shares - 1,
                seen,
                own,
            },
            Seat {
                token: other,
                shares: 1,
                seen,
                own: 0,
            },
        ))
    }

    /// One seat in the place of two: the marks of `other` stand after those of `into`, and so do its own calls.
    ///
    /// It has seen what that one of the two had seen that had seen more. Its looks and turns are those of `into`.
    pub fn join(
        &self,
        into: Seat<B, B::Entry, B::Subject>,
        other: Seat<B, B::Entry, B::Subject>,
    ) -> Seat<B, B::Entry, B::Subject>
        requires into { IsSeatOf (book_id self.now) into }
        requires other { IsSeatOf (book_id self.now) other }
        ensures of { IsSeatOf (book_id self.now) result }
        ensures joined { IsJoined (view_of into) (view_of other) (view_of result) }
        ensures begins { IsPrefix (seen into) (seen result) × IsPrefix (seen other) (seen result) }
        ensures marked { IsMarked B.mark (view_of result) }
    {
        let Seat {
            mut token,
            shares,
            seen,
            own,
        } = into;
        let Seat {
            token: second,
            shares: more_shares,
            seen: more_seen,
            own: more_own,
        } = other;
        self.table.shared.join_seat::<Together>(&mut token, second);
        self.table.shared.load::<Note>(&mut token, 0);
        Seat {
            token,
            shares: shares + more_shares,
            seen: seen.max(more_seen),
            own: own + more_own,
        }
    }

    /// Takes the turn where nobody has it, and waits for nobody.
    ///
    /// `Busy` hands the seat back. A seat with all 64 marks is alone, and never busy.
    pub fn try_turn(&self, seat: Seat<B, B::Entry, B::Subject>) -> Turned<'_, B>
        requires of { IsSeatOf (book_id self.now) seat }
        ensures mine { IfMine result (λ held. (held_id held ≡ book_id self.now) × IsWon B.history B.subject B.mark (view_of seat) (held_view held) (held_book held)) }
        ensures busy { IfBusy result (λ back looked found. IsSeatOf (book_id self.now) back × IsBusy (view_of seat) (view_of back) looked found) }
        ensures marked { IfBusy result (λ back looked found. IsMarked B.mark (view_of back)) }
        ensures alone { IfBusy result (λ back looked found. ¬ (length (marks seat) ≡ 64)) }
    {
        let Seat {
            mut token,
            shares,
            seen,
            own,
        } = seat;
        let shared = &self.table.shared;
        let looked = shared.load::<Look>(&mut token, 0);
        if looked % 2 == 1 {
            return Turned::Busy {
                seat: Seat {
                    token,
                    shares,
                    seen,
                    own,
                },
                looked,
                found: looked,
            };
        }
        let found = shared.compare_exchange::<Try>(&mut token, 0, looked, looked + 1);
        if found != looked {
            return Turned::Busy {
                seat: Seat {
                    token,
                    shares,
                    seen,
                    own,
                },
                looked,
                found,
            };
        }
        let Some(book) = shared.exchange(&mut token, 0, None) else {
            unreachable!()
        };
        Turned::Mine(Held {
            shared,
            token,
            book,
            word: looked,
            shares,
            own,
        })
    }

    /// Ends the sharing, by a seat that has all 64 marks: the book, and the seat, which has no more turns.
    pub fn close(self, seat: Seat<B, B::Entry, B::Subject>) -> (B, Seat<B, B::Entry, B::Subject>)
        requires of { IsSeatOf (book_id self) seat }
        requires all { length (marks seat) ≡ 64 }
        ensures book { Whole B.history B.subject (view_of seat) result.0 }
        ensures seat { view_of result.1 ≡ ended (view_of seat) }
    {
        let Seat {
            mut token,
            shares,
            seen,
            own,
        } = seat;
        let TurnBook { table } = self;
        let spare = table.shared.split_seat::<Ending>(&mut token);
        let mut closed = table.close_with(token);
        let Some(book) = closed.take(0) else {
            unreachable!()
        };
        closed.free();
        let seat = Seat {
            token: spare,
            shares,
            seen,
            own,
        };
        (book, seat)
    }
}
