//! A page of lines: a book to try and to time turns with, and writers that work at it.
ghost use Rattle.std.specs.Prelude.{◌≡◌, ◌+◌, ◌<◌, ◌⊎◌, [], ◌∷◌, ◌++◌, length, if◌then◌else◌, All, IfOk};
ghost use Rattle.turn_book.specs.Places.{times, numbers_from, with_place};
ghost use Rattle.turn_book.specs.Words.{IsSeatOf, book_id, view_of, held_book, held_view, held_id, marks, own};

use crate::{Book, Held, Seat, TurnBook, Turned};
use std::alloc::{AllocError, Global};

const MOST: u64 = 1 << 32;

/// Who wrote it, and how many lines it had written before.
#[derive(Clone, Copy, Debug, PartialEq, Eq)]
pub struct Line {
    pub mark: u64,
    pub number: u64,
}

/// What the lines are about, and the lines.
#[derive(Drop)]
pub struct Page {
    pub title: u64,
    pub lines: Vec<Line>,
}

impl Book for Page {
    type Entry = Line;

    type Subject = u64;

    ghost history = { λ p. p.lines.items };

    ghost subject = { λ p. p.title };

    ghost mark = { λ line. line.mark };

    fn entries(&self) -> u64 {
        self.lines.len() as u64
    }
}

impl Page {
    /// Puts the line last, where there is memory.
    pub fn add(&mut self, line: Line) -> bool
        ensures title { self.new.title ≡ self.old.title }
        ensures lines { self.new.lines.items ≡ (if result then self.old.lines.items ++ line ∷ [] else self.old.lines.items) }
    {
        self.lines.push(line).is_ok()
    }
}

/// A seat at such a book.
pub type Place = Seat<Page, Line, u64>;

/// A seat that has the mark, and others perhaps.
#[derive(Drop)]
pub struct Writer {
    pub seat: Place,
    pub mark: u64,
    ghost has: { 0 < times mark (marks seat) },
}

/// Gives the turn back with the line added, where there is room for it.
pub fn write(mut held: Held<'_, Page>, line: Line) -> Place
    requires met { (held_book held).lines.items ≡ (held_view held).seen }
    requires about { (held_view held).subject ≡ Some (held_book held).title }
    requires mark { 0 < times line.mark (held_view held).marks }
    ensures of { IsSeatOf (held_id held.entry) result }
    ensures marks { marks result ≡ (held_view held.entry).marks }
    ensures own { (own result ≡ (held_view held.entry).own) ⊎ (own result ≡ with_place (length (held_view held.entry).seen) (held_view held.entry).own) }
{
    let page = held.book();
    if page.entries() < MOST && page.add(line) {
        held.commit()
    } else {
        held.leave()
    }
}

/// A seat that has made no call gives its last mark away.
pub fn deal(turns: &TurnBook<Page>, alloc: Global, seat: Place, mark: u64) -> (Place, Writer)
    requires of { IsSeatOf (book_id turns.now) seat }
    requires marks { marks seat ≡ numbers_from 0 (mark + 1) }
    requires some_mark { 0 < mark }
    requires no_calls { own seat ≡ [] ∷ [] }
    ensures of { IsSeatOf (book_id turns.now) result.0 × IsSeatOf (book_id turns.now) result.1.seat }
    ensures marks { marks result.0 ≡ numbers_from 0 mark }
    ensures no_calls { own result.0 ≡ [] ∷ [] }
    ensures mark { result.1.mark ≡ mark }
{
    let Ok((seat, other)) = turns.split(alloc, seat) else {
        unreachable!()
    };
    (seat, Writer { seat: other, mark })
}

/// Makes so many tries, and writes a line at each turn that it wins.
pub fn work(turns: &TurnBook<Page>, writer: Writer, tries: u64) -> Writer
    requires { IsSeatOf (book_id turns.now) writer.seat }
    ensures of { IsSeatOf (book_id turns.now) result.seat }
    ensures mark { result.mark ≡ writer.mark }
{
    let Writer { mut seat, mark } = writer;
    for _ in 0..tries {
        let number = seat.own();
        seat = match turns.try_turn(seat) {
            Turned::Mine(held) => write(held, Line { mark, number }),
            Turned::Busy {
                seat,
                looked: _,
                found: _,
            } => seat,
        };
    }
    Writer { seat, mark }
}

/// Deals a mark to each of so many writers.
pub fn deal_out(
    turns: &TurnBook<Page>,
    alloc: Global,
    mut seat: Place,
    count: u64,
) -> Result<(Place, Vec<Writer>), AllocError>
    requires of { IsSeatOf (book_id turns.now) seat }
    requires marks { marks seat ≡ numbers_from 0 64 }
    requires no_calls { own seat ≡ [] ∷ [] }
    requires count { count < 64 }
    ensures of { IfOk result (λ r. IsSeatOf (book_id turns.now) r.0 × All (λ writer. IsSeatOf (book_id turns.now) writer.seat) r.1.items) }
    ensures count { IfOk result (λ r. length r.1.items ≡ count) }
{
    let mut writers = Vec::new(alloc);
    for dealt in 0..count {
        let (rest, writer) = deal(turns, alloc, seat, 63 - dealt);
        seat = rest;
        writers.push(writer)?;
    }
    Ok((seat, writers))
}

/// All seats are joined into one.
pub fn gather(turns: &TurnBook<Page>, mut seat: Place, mut writers: Vec<Writer>) -> Place
    requires of { IsSeatOf (book_id turns.now) seat }
    requires writers { All (λ writer. IsSeatOf (book_id turns.now) writer.seat) writers.items }
    ensures { IsSeatOf (book_id turns.now) result }
{
    while let Some(writer) = writers.pop() {
        let Writer {
            seat: other,
            mark: _,
        } = writer;
        seat = turns.join(seat, other);
    }
    seat
}
