//! A source over any reader of std.
ghost use Rattle.std.specs.Prelude.{◌≡◌, ℕ, Ok, IfOk, OnErr, IsErr};
ghost use Rattle.std.specs.Io.{ReadsAtMost};
ghost use Rattle.std.specs.Io.KnownBytes.{ReadConsumes};
ghost use Rattle.sts_io.specs.Causes.{HasCause, counted};

use crate::{Failed, Source};
use std::io;
use std::io::Read;
use std::marker::Model;

/// A source over a reader of std. It tells as much of the bytes as the reader does, and counts each error
/// of the reader, up to the last value of a 64-bit counter.
#[derive(Debug, Drop)]
pub struct StdSource<R> {
    reader: R,
    faults: u64,
}

impl<R> Model for StdSource<R> {
    ghost use Rattle.sts_io.specs.Adapted.{Adapted};

    ghost Value = { Adapted R };

    ghost view = { λ s. record { end = s.reader; faults = s.faults } };
}

impl<R: Read> StdSource<R> {
    pub fn new(reader: R) -> StdSource<R>
        ensures { result ≡ record { end = reader; faults = 0 } }
    {
        StdSource { reader, faults: 0 }
    }
}

impl<R: Read> Source for StdSource<R> {
    ghost left = { λ s. R.remaining s.end };

    ghost faults = { λ s. s.faults };

    fn read(&mut self, buf: &mut [u8]) -> Result<usize, Failed>
        ensures bound { ReadsAtMost result buf.new }
        ensures bytes { ReadConsumes (R.remaining self.old.end) (R.remaining self.new.end) result buf.new }
        ensures cause { HasCause self.old.faults self.new.faults result }
        ensures raised { OnErr result (self.new.faults ≡ counted self.old.faults) }
    {
        read_answer(self.reader.read(buf), &mut self.faults)
    }
}

// What the reader answered, as the source's answer. An error is counted, and nothing else is: the end is no fault.
fn read_answer(given: io::Result<usize>, faults: &mut u64) -> Result<usize, Failed>
    ensures ok { IfOk given (λ count. (result ≡ Ok count) × (faults.new ≡ faults.old)) }
    ensures err { OnErr given (IsErr result × (faults.new ≡ counted faults.old)) }
{
    match given {
        Ok(count) => Ok(count),
        Err(_) => {
            *faults = faults.saturating_add(1);
            Err(Failed)
        }
    }
}
