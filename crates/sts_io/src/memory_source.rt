//! A source in memory, some of whose calls fail as it was told.
ghost use Rattle.std.specs.Prelude.{◌≡◌, ℕ, ◌≤◌, ◌<◌, [], ◌++◌, length, take, drop, Some, is_err, IfOk, OnErr};
ghost use Rattle.std.specs.Io.{ReadsAtMost};
ghost use Rattle.std.specs.Io.KnownBytes.{ReadConsumes};
ghost use Rattle.sts_io.specs.Causes.{HasCause};
ghost use Rattle.sts_io.specs.Memory.{read_fails, count_given, after_read};

use crate::supply::Supply;
use crate::{Failed, Source};
use std::marker::Model;

/// A source in memory. A contract sees its whole state.
#[derive(Debug, Drop)]
pub struct MemSource {
    supply: Supply,
    fails: Vec<u64>,
    calls: u64,
    faults: u64,
}

impl Model for MemSource {
    ghost use Rattle.sts_io.specs.Memory.{SourceState};

    ghost Value = { SourceState };

    ghost view = { λ s. record {
      left = s.supply.left;
      most = s.supply.most;
      fails = s.fails.items;
      calls = s.calls;
      faults = s.faults;
    } };
}

impl MemSource {
    /// A source of these bytes that gives at most `most` of them in one call. The calls whose numbers,
    /// counted from 0, stand in `fails` fail.
    pub fn new(bytes: Vec<u8>, most: usize, fails: Vec<u64>) -> MemSource
        requires { 1 ≤ most }
        ensures { result ≡ record { left = bytes.items; most = most; fails = fails.items; calls = 0; faults = 0 } }
    {
        MemSource {
            supply: Supply::new(bytes, most),
            fails,
            calls: 0,
            faults: 0,
        }
    }
}

impl Source for MemSource {
    ghost left = { λ s. Some s.left };

    ghost faults = { λ s. s.faults };

    fn read(&mut self, buf: &mut [u8]) -> Result<usize, Failed>
        ensures bound { ReadsAtMost result buf.new }
        ensures bytes { ReadConsumes (Some self.old.left) (Some self.new.left) result buf.new }
        ensures cause { HasCause self.old.faults self.new.faults result }

        // The answer, the bytes moved, and the whole state after the call.
        ensures answer { is_err result ≡ read_fails self.old }
        ensures count { IfOk result (λ n. n ≡ count_given (length buf.old) self.old.most self.old.left) }
        ensures copied { IfOk result (λ n. buf.new ≡ take n self.old.left ++ drop n buf.old) }
        ensures untouched { OnErr result (buf.new ≡ buf.old) }
        ensures state { self.new ≡ after_read self.old (length buf.old) }
    {
        let fails = self.fails.contains(&self.calls);
        self.calls = self.calls.saturating_add(1);
        if fails {
            self.faults = self.faults.saturating_add(1);
            return Err(Failed);
        }
        Ok(self.supply.give(buf))
    }
}
