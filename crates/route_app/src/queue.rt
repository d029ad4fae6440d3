//! The switches that a search has found, in the order in which it found them.
ghost use Rattle.std.specs.Prelude.{◌≡◌, ◌<◌, ◌+◌, ◌^◌, [], ◌∷◌, ◌++◌, length, IfOk};
ghost use Rattle.listed.specs.Plain.{plain};

use listed::{Listed, Plain};
use std::alloc::{AllocError, Global};

/// A list of switches with room for a fixed number of them: the first `len` places are used.
#[derive(Clone, Debug, Drop)]
pub struct Queue {
    pub places: Listed<u16>,
    pub len: usize,
}

impl Plain for Queue {
    fn same(&self, other: &Self) -> bool {
        self.places.same(&other.places) && self.len == other.len
    }

    ghost clones = { Prim.search plain };
}

impl Queue {
    ghost use Rattle.route_app.specs.Rounds.{found};

    /// An empty one with room for so many.
    pub fn with_room(alloc: Global, room: usize) -> Result<Queue, AllocError>
        ensures { IfOk result (λ queue. length queue.places ≡ room) }
    {
        Ok(Queue {
            places: Listed::of(vec![in alloc; 0u16; room]?),
            len: 0,
        })
    }

    /// Puts a switch last.
    pub fn push(&mut self, s: u16)
        requires few { self.old.len < 2 ^ 16 }
        requires room { self.old.len < length self.old.places }
        ensures found { found self.new ≡ found self.old ++ s ∷ [] }
        ensures len { self.new.len ≡ self.old.len + 1 }
        ensures room { length self.new.places ≡ length self.old.places }
    {
        self.places.replace(self.len, s);
        self.len += 1;
    }
}
