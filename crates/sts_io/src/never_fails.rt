//! A source in memory of which no call fails.
ghost use Rattle.std.specs.Prelude.{◌≡◌, ℕ, ◌≤◌, ◌<◌, ◌++◌, length, take, drop, Some, Ok, IfOk};
ghost use Rattle.std.specs.Io.{ReadsAtMost};
ghost use Rattle.std.specs.Io.KnownBytes.{ReadConsumes};
ghost use Rattle.sts_io.specs.Causes.{HasCause};
ghost use Rattle.sts_io.specs.Memory.{count_given, after_given};

use crate::supply::Supply;
use crate::{Failed, Source};
use std::marker::Model;

/// A source in memory of which no call fails: its count of faults is always 0. A contract sees the bytes
/// not yet read, and the most that one call gives.
#[derive(Debug, Drop)]
pub struct NeverFails {
    supply: Supply,
}

impl Model for NeverFails {
    ghost use Rattle.sts_io.specs.Memory.{Supplied};

    ghost Value = { Supplied };

    ghost view = { λ s. s.supply };
}

impl NeverFails {
    /// A source of these bytes that gives at most `most` of them in one call.
    pub fn new(bytes: Vec<u8>, most: usize) -> NeverFails
        requires { 1 ≤ most }
        ensures { result ≡ record { left = bytes.items; most = most } }
    {
        NeverFails {
            supply: Supply::new(bytes, most),
        }
    }
}

impl Source for NeverFails {
    ghost left = { λ s. Some s.left };

    ghost faults = { λ _. 0 };

    fn read(&mut self, buf: &mut [u8]) -> Result<usize, Failed>
        ensures bound { ReadsAtMost result buf.new }
        ensures bytes { ReadConsumes (Some self.old.left) (Some self.new.left) result buf.new }
        ensures cause { HasCause 0 0 result }

        // The answer, the bytes moved, and the whole state after the call.
        ensures answer { result ≡ Ok (count_given (length buf.old) self.old.most self.old.left) }
        ensures copied { IfOk result (λ n. buf.new ≡ take n self.old.left ++ drop n buf.old) }
        ensures state { self.new ≡ after_given self.old (length buf.old) }
    {
        Ok(self.supply.give(buf))
    }
}
