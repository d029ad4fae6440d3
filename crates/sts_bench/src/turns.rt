//! Turns of a book, by one thread and by several.
ghost use Rattle.std.specs.Prelude.{◌≡◌, ◌<◌, All, IfOk};
ghost use Rattle.turn_book.specs.Words.{IsSeatOf, book_id};

use anyhow::{Result, bail};
use std::alloc::AllocError;
use std::thread;
use std::thread::Threads;
use std::time::{Clock, Duration, Instant};
use turn_book::TurnBook;
use turn_book::sample::{Page, Writer, deal_out, gather, work};

/// Each writer works in a thread of its own.
fn all_work<R: Threads + Sync>(
    rt: &R,
    turns: &TurnBook<Page>,
    writers: Vec<Writer>,
    tries: u64,
) -> std::result::Result<Vec<Writer>, AllocError>
    requires { All (λ writer. IsSeatOf (book_id turns.now) writer.seat) writers.items }
    ensures { IfOk result (λ done. All (λ writer. IsSeatOf (book_id turns.now) writer.seat) done.items) }
{
    thread::map_vec(
        rt,
        writers,
        &|writer: Writer| -> Writer
            requires { IsSeatOf (book_id turns.now) writer.seat }
            ensures { IsSeatOf (book_id turns.entry.now) result.seat }
        { work(turns, writer, tries) },
    )
}

/// How long so many writers take for so many tries each, and how many turns they win.
pub fn timed<R: Threads + Clock + AllocGlobal + Sync>(
    rt: &R,
    count: u64,
    tries: u64,
) -> Result<(Duration, u64)>
    requires { count < 64 }
{
    let page = Page {
        title: count,
        lines: Vec::new(rt.alloc()),
    };
    let Ok((turns, seat)) = TurnBook::open(rt.alloc(), page) else {
        bail!("no memory for a book");
    };
    let (seat, writers) = deal_out(&turns, rt.alloc(), seat, count)?;
    let start = Instant::now(rt)?;
    let writers = all_work(rt, &turns, writers, tries)?;
    let time = start.elapsed(rt)?;
    let seat = gather(&turns, seat, writers);
    Ok((time, seat.own()))
}
