//! The bits of one word: writing one, testing one, and the first at or past a place.
ghost use Rattle.std.specs.Prelude.{◌≡◌, ◌≢◌, ◌<◌, ◌↔◌, ℕ, cond, IsTrue};
ghost use Rattle.std.specs.Int.{bit_at};
ghost use Rattle.number_set.specs.Words.{FirstBit};

/// How many bits a word has.
pub const WORD: usize = 64;

/// The word with one bit written.
pub fn with_bit(word: u64, bit: usize, on: bool) -> u64
    requires { bit < 64 }
    ensures same { bit_at result bit ≡ cond on 1 0 }
    ensures others { (other : ℕ) → other < 64 → other ≢ bit → bit_at result other ≡ bit_at word other }
{
    if on {
        word | 1 << bit
    } else {
        word & !(1 << bit)
    }
}

pub fn has_bit(word: u64, bit: usize) -> bool
    requires { bit < 64 }
    ensures { IsTrue result ↔ (bit_at word bit ≡ 1) }
{
    (word >> bit) % 2 == 1
}

/// The lowest bit that is set, at or past a place.
pub fn first_bit(word: u64, from: usize) -> Option<usize>
    ensures { FirstBit word from result }
{
    if from >= WORD {
        return None;
    }
    let rest = word >> from;
    if rest == 0 {
        return None;
    }
    Some(from + rest.trailing_zeros() as usize)
}
