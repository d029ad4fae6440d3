//! A sink that takes every piece whole and keeps nothing.
ghost use Rattle.std.specs.Prelude.{◌≡◌, ℕ, ◌<◌, length, None, Ok, IfOk};
ghost use Rattle.std.specs.Io.{WritesAtMost};
ghost use Rattle.std.specs.Io.KnownBytes.{WriteAppends};
ghost use Rattle.sts_io.specs.Causes.{HasCause};

use crate::{Failed, Sink};

/// A sink that takes every piece whole, keeps nothing and tells nothing. No call of it fails: its count of
/// faults is always 0.
#[derive(Clone, Copy, Debug, Default, PartialEq, Eq)]
pub struct VoidSink;

impl VoidSink {
    pub fn new() -> VoidSink {
        VoidSink
    }
}

impl Sink for VoidSink {
    ghost taken = { λ _. None };

    ghost faults = { λ _. 0 };

    fn write(&mut self, piece: &[u8]) -> Result<usize, Failed>
        ensures bound { WritesAtMost result piece.now }
        ensures progress { IfOk result (λ n. 0 < length piece.now → 0 < n) }
        ensures bytes { WriteAppends None None result piece.now }
        ensures cause { HasCause 0 0 result }
        ensures answer { result ≡ Ok (length piece.now) }
    {
        Ok(piece.len())
    }
}
