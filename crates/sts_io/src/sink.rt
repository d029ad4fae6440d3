//! Where bytes go: a sink that counts its faults.
ghost use Rattle.std.specs.Prelude.{List, ℕ, ◌<◌, length, IfOk};
ghost use Rattle.std.specs.declared.option.Option.{Option};
ghost use Rattle.std.specs.Io.{WritesAtMost};
ghost use Rattle.std.specs.Io.KnownBytes.{WriteAppends};
ghost use Rattle.sts_io.specs.Causes.{HasCause};

use crate::Failed;

/// A sink of bytes.
///
/// A contract sees two meanings of it: `taken`, the bytes taken so far, where the sink tells them, and
/// `faults`, a count that never falls.
pub trait Sink {
    ghost taken: { Self → Option (List ℕ) };

    ghost faults: { Self → ℕ };

    /// Takes the first bytes of the piece, at least one of a piece that has any, and returns how many they are.
    fn write(&mut self, piece: &[u8]) -> Result<usize, Failed>
        ensures bound { WritesAtMost result piece.now }
        ensures progress { IfOk result (λ n. 0 < length piece.now → 0 < n) }
        ensures bytes { WriteAppends (taken self.old) (taken self.new) result piece.now }
        ensures cause { HasCause (faults self.old) (faults self.new) result };
}
