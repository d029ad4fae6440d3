//! Where bytes come from: a source that counts its faults.
ghost use Rattle.std.specs.Prelude.{List, ℕ};
ghost use Rattle.std.specs.declared.option.Option.{Option};
ghost use Rattle.std.specs.Io.{ReadsAtMost};
ghost use Rattle.std.specs.Io.KnownBytes.{ReadConsumes};
ghost use Rattle.sts_io.specs.Causes.{HasCause};

use thiserror::Error;

/// A read or a write that failed. The source or the sink has counted it.
#[derive(Clone, Copy, Debug, PartialEq, Eq, Error)]
#[error("reading or writing failed")]
pub struct Failed;

/// A source of bytes.
///
/// A contract sees two meanings of it: `left`, the bytes not yet read, where the source tells them, and
/// `faults`, a count that never falls.
pub trait Source {
    ghost left: { Self → Option (List ℕ) };

    ghost faults: { Self → ℕ };

    /// Moves the next bytes to the front of the buffer and returns how many they are. What stands in the
    /// buffer past them is open. No byte into a buffer that has room is the end.
    fn read(&mut self, buf: &mut [u8]) -> Result<usize, Failed>
        ensures bound { ReadsAtMost result buf.new }
        ensures bytes { ReadConsumes (left self.old) (left self.new) result buf.new }
        ensures cause { HasCause (faults self.old) (faults self.new) result };
}
