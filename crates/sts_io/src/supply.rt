//! Bytes in memory that are handed out in order, a bounded number at a time.
ghost use Rattle.std.specs.Prelude.{◌≡◌, ℕ, ◌<◌, [], ◌++◌, length, take, drop};
ghost use Rattle.sts_io.specs.Memory.{count_given, after_given};

use std::marker::Model;

/// Bytes, how many of them were given, and the most that are given at a time.
#[derive(Debug, Drop)]
pub struct Supply {
    bytes: Vec<u8>,
    given: usize,
    most: usize,
}

impl Model for Supply {
    ghost use Rattle.std.specs.Prelude.{◌<◌, ◌≤◌, drop, vec_len};
    ghost use Rattle.sts_io.specs.Memory.{Supplied};

    ghost Value = { Supplied };

    ghost view = { λ s. record { left = drop s.given s.bytes.items; most = s.most } };

    ghost invariant = { λ s. (s.given ≤ vec_len s.bytes) × (0 < s.most) };
}

impl Supply {
    pub fn new(bytes: Vec<u8>, most: usize) -> Supply
        requires { 0 < most }
        ensures { result ≡ record { left = bytes.items; most = most } }
    {
        Supply {
            bytes,
            given: 0,
            most,
        }
    }

    /// Copies the next bytes to the front of the buffer and returns how many they are.
    pub fn give(&mut self, buf: &mut [u8]) -> usize
        ensures count { result ≡ count_given (length buf.old) self.old.most self.old.left }
        ensures copied { buf.new ≡ take result self.old.left ++ drop result buf.old }
        ensures state { self.new ≡ after_given self.old (length buf.old) }
        ensures progress { result ≡ 0 → 0 < length buf.old → self.old.left ≡ [] }
    {
        let left = &self.bytes[self.given..];
        let count = buf.len().min(self.most).min(left.len());
        buf[..count].copy_from_slice(&left[..count]);
        self.given += count;
        count
    }
}
