//! Seats that take turns, in one thread and in several.
ghost use Rattle.std.specs.Prelude.{◌≡◌, ◌<◌, All, IfOk};
ghost use Rattle.turn_book.specs.declared.turn.Turned.TheVariants.{Mine};
ghost use Rattle.turn_book.specs.Words.{IsSeatOf, book_id};

use super::*;
use crate::sample::{Line, Page, Writer, deal, deal_out, gather, work, write};
use std::alloc::{AllocError, Global};
use std::process::Abort;
use std::test::*;
use std::thread;
use std::thread::Threads;

const TRIES: u64 = 10_000;

fn won<'a>(rt: &impl Abort, turned: Turned<'a, Page>) -> Held<'a, Page>
    ensures { turned.entry ≡ Mine result }
{
    match turned {
        Turned::Mine(held) => held,
        Turned::Busy {
            seat: _,
            looked: _,
            found: _,
        } => panic!(rt; "the turn is won"),
    }
}

#[test]
fn two_seats(rt: HostRuntime) -> Result<(), Fail> {
    let page = Page {
        title: 7,
        lines: Vec::new(rt.alloc()),
    };
    let Ok((turns, seat)) = TurnBook::open(rt.alloc(), page) else {
        return Err("a book is opened".into());
    };
    let (first, writer) = deal(&turns, rt.alloc(), seat, 63);
    let Writer { seat: second, mark } = writer;
    assert_eq!(rt; (first.shares(), second.shares()), (63, 1));
    let held = won(&rt, turns.try_turn(second));
    let (first, looked, found) = match turns.try_turn(first) {
        Turned::Mine(held) => {
            drop(held.leave());
            panic!(rt; "the other seat has the turn")
        }
        Turned::Busy {
            seat,
            looked,
            found,
        } => (seat, looked, found),
    };
    assert_eq!(rt; (looked, found), (1, 1));
    let second = write(held, Line { mark, number: 0 });
    assert_eq!(rt; (second.seen(), second.own()), (1, 1));
    let mut held = won(&rt, turns.try_turn(first));
    assert_eq!(rt; held.book().entries(), 1);
    let seat = turns.join(held.leave(), second);
    assert_eq!(rt; (seat.shares(), seat.seen(), seat.own()), (64, 1, 1));
    let (page, seat) = turns.close(seat);
    assert_eq!(rt; (seat.shares(), page.title), (64, 7));
    assert_eq!(rt;
        page.lines.as_slice(),
        &[Line {
            mark: 63,
            number: 0
        }][..]
    );
    Ok(())
}

/// Each writer works in a thread of its own.
fn all_work<R: Threads + Sync>(
    rt: &R,
    turns: &TurnBook<Page>,
    writers: Vec<Writer>,
) -> Result<Vec<Writer>, AllocError>
    requires { All (λ writer. IsSeatOf (book_id turns.now) writer.seat) writers.items }
    ensures { IfOk result (λ done. All (λ writer. IsSeatOf (book_id turns.now) writer.seat) done.items) }
{
    thread::map_vec(
        rt,
        writers,
        &|writer: Writer| -> Writer
            requires { IsSeatOf (book_id turns.now) writer.seat }
            ensures { IsSeatOf (book_id turns.entry.now) result.seat }
        { work(turns, writer, TRIES) },
    )
}

/// The lines of this mark are so many, numbered in order.
fn is_in_order(lines: &[Line], mark: u64, calls: u64) -> bool {
    let mut next = 0;
    for line in lines {
        if line.mark == mark {
            if line.number != next || next >= calls {
                return false;
            }
            next += 1;
        }
    }
    next == calls
}

fn crowd<R: Threads + Abort + Sync>(rt: &R, alloc: Global, count: u64) -> Result<(), Fail>
    requires { count < 64 }
{
    let page = Page {
        title: count,
        lines: Vec::new(alloc),
    };
    let Ok((turns, seat)) = TurnBook::open(alloc, page) else {
        return Err("a book is opened".into());
    };
    let (seat, writers) = deal_out(&turns, alloc, seat, count)?;
    let writers = all_work(rt, &turns, writers)?;
    let mut calls = Vec::new(alloc);
    let mut sum = 0u64;
    for writer in &writers {
        calls.push((writer.mark, writer.seat.own()))?;
        sum = sum.wrapping_add(writer.seat.own());
    }
    let seat = gather(&turns, seat, writers);
    assert_eq!(rt; (seat.shares(), seat.own()), (64, sum));
    let (page, _seat) = turns.close(seat);
    assert_eq!(rt; page.entries(), sum);
    assert!(rt; 0 < sum && sum <= count * TRIES);
    for (mark, own) in &calls {
        assert!(rt; is_in_order(page.lines.as_slice(), *mark, *own));
    }
    Ok(())
}

#[test]
fn many_threads(rt: HostRuntime) -> Result<(), Fail> {
    for count in [2, 4, 8] {
        crowd(&rt, rt.alloc(), count)?;
    }
    Ok(())
}
