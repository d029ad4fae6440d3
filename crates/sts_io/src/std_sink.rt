//! A sink over any writer of std.
ghost use Rattle.std.specs.Prelude.{◌≡◌, ℕ, ◌<◌, ◌⊎◌, length, Ok, IfOk, OnErr, IsErr};
ghost use Rattle.std.specs.Io.{WritesAtMost};
ghost use Rattle.std.specs.Io.KnownBytes.{WriteAppends};
ghost use Rattle.sts_io.specs.Causes.{HasCause, counted};

use crate::{Failed, Sink};
use std::io;
use std::io::Write;
use std::marker::Model;

/// A sink over a writer of std. It tells as much of the bytes as the writer does, and counts each error of
/// the writer and each write that takes nothing of a piece that has a byte, up to the last value of a
/// 64-bit counter. It does not flush.
#[derive(Debug, Drop)]
pub struct StdSink<W> {
    writer: W,
    faults: u64,
}

impl<W> Model for StdSink<W> {
    ghost use Rattle.sts_io.specs.Adapted.{Adapted};

    ghost Value = { Adapted W };

    ghost view = { λ s. record { end = s.writer; faults = s.faults } };
}

impl<W: Write> StdSink<W> {
    pub fn new(writer: W) -> StdSink<W>
        ensures { result ≡ record { end = writer; faults = 0 } }
    {
        StdSink { writer, faults: 0 }
    }
}

impl<W: Write> Sink for StdSink<W> {
    ghost taken = { λ s. W.contents s.end };

    ghost faults = { λ s. s.faults };

    fn write(&mut self, piece: &[u8]) -> Result<usize, Failed>
        ensures bound { WritesAtMost result piece.now }
        ensures progress { IfOk result (λ n. 0 < length piece.now → 0 < n) }
        ensures bytes { WriteAppends (W.contents self.old.end) (W.contents self.new.end) result piece.now }
        ensures cause { HasCause self.old.faults self.new.faults result }
        ensures raised { OnErr result (self.new.faults ≡ counted self.old.faults) }
    {
        write_answer(self.writer.write(piece), piece, &mut self.faults)
    }
}

// What the writer answered, as the sink's answer. An error is counted, and a write that took nothing of a piece
// that has a byte, and nothing else is.
fn write_answer(given: io::Result<usize>, piece: &[u8], faults: &mut u64) -> Result<usize, Failed>
    ensures ok { IfOk given (λ count. (0 < count) ⊎ (length piece.now ≡ 0) → (result ≡ Ok count) × (faults.new ≡ faults.old)) }
    ensures nothing { IfOk given (λ count. count ≡ 0 → 0 < length piece.now → IsErr result × (faults.new ≡ counted faults.old)) }
    ensures err { OnErr given (IsErr result × (faults.new ≡ counted faults.old)) }
{
    match given {
        Ok(count) if count > 0 || piece.is_empty() => Ok(count),
        _ => {
            *faults = faults.saturating_add(1);
            Err(Failed)
        }
    }
}
