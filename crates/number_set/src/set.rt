//! A set of numbers, as bits on two levels.
ghost use Rattle.std.specs.Prelude.{◌≡◌, ◌<◌, ◌≤◌, ◌↔◌, Bool, true, false, Some, length, replicate, slice_get, slice_set, All, IsTrue, IfOk};
ghost use Rattle.number_set.specs.Numbers.{first_from};

use crate::bits::{WORD, first_bit, has_bit, with_bit};
use std::alloc::{AllocError, Global};
use std::marker::Model;

/// How many numbers a set can tell apart: 64 words of 64 bits.
pub const CAPACITY: usize = 4096;

/// A set of the numbers below a count. Contracts see a flag for each number, which says whether it is a member.
#[derive(Debug, Drop)]
pub struct NumberSet {
    // A bit for each number, 64 to a word.
    words: Vec<u64>,
    // A bit for each word: whether it is other than 0.
    summary: u64,
    count: usize,
}

impl Model for NumberSet {
    ghost use Rattle.std.specs.Prelude.{Bool, List};
    ghost use Rattle.number_set.specs.Words.{flags_of, Kept};

    ghost Value = { List Bool };

    ghost view = { λ s. flags_of s.count s.words.items };

    ghost invariant = { λ s. Kept s.count s.words.items s.summary };
}

impl NumberSet {
    /// The set that has none of the numbers below `count`.
    pub fn new(alloc: Global, count: usize) -> Result<NumberSet, AllocError>
        requires { count ≤ 4096 }
        ensures { IfOk result (λ set. set ≡ replicate count false) }
    {
        let words = vec![in alloc; 0; count.div_ceil(WORD)]?;
        Ok(NumberSet {
            words,
            summary: 0,
            count,
        })
    }

    /// Makes a number a member, if it was none.
    pub fn insert(&mut self, number: usize)
        requires { number < length self.old }
        ensures { self.new ≡ slice_set self.old number true }
    {
        self.write(number, true);
    }

    /// Takes a number out, if it was a member.
    pub fn remove(&mut self, number: usize)
        requires { number < length self.old }
        ensures { self.new ≡ slice_set self.old number false }
    {
        self.write(number, false);
    }

    fn write(&mut self, number: usize, present: bool)
        requires { number < length self.old }
        ensures { self.new ≡ slice_set self.old number present }
    {
        let at = number / WORD;
        let word = with_bit(self.words[at], number % WORD, present);
        self.words[at] = word;
        self.summary = with_bit(self.summary, at, word != 0);
    }

    pub fn contains(&self, number: usize) -> bool
        ensures { IsTrue result ↔ (slice_get self.now number ≡ Some true) }
    {
        let at = number / WORD;
        at < self.words.len() && has_bit(self.words[at], number % WORD)
    }

    /// The least member at or past a number. It looks at two words and the summary at most.
    pub fn first_from(&self, from: usize) -> Option<usize>
        ensures { result ≡ first_from from self.now }
    {
        let at = from / WORD;
        if at >= self.words.len() {
            return None;
        }
        if let Some(bit) = first_bit(self.words[at], from % WORD) {
            return Some(at * WORD + bit);
        }
        let next = first_bit(self.summary, at + 1)?;
        let bit = first_bit(self.words[next], 0)?;
        Some(next * WORD + bit)
    }

    pub fn is_empty(&self) -> bool
        ensures { IsTrue result ↔ All (λ flag. flag ≡ false) self.now }
    {
        self.summary == 0
    }

    /// Another set with the same members.
    pub fn copy(&self) -> Result<NumberSet, AllocError>
        ensures { IfOk result (λ set. set ≡ self.now) }
    {
        let words = self.words.clone()?;
        Ok(NumberSet {
            words,
            summary: self.summary,
            count: self.count,
        })
    }
}
