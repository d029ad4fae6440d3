//! What a change of a table answers.

use crate::entry::Entry;
use listed::Listed;
use std::alloc::AllocError;
use thiserror::Error;

/// Entries that were taken out, in the order of the table.
pub type Removed = Listed<Entry>;

/// Entries that ran out, in the order of the table, each with its reason: `OFPRR_HARD_TIMEOUT` or `OFPRR_IDLE_TIMEOUT`.
pub type Gone10 = Listed<(Entry, u8)>;

/// What a command did to a table.
#[derive(Debug, Drop)]
pub struct Effect {
    /// The entries that were taken out, the one that an ADD replaces among them.
    pub removed: Removed,
    /// How many entries were given the actions of a MODIFY.
    pub changed: u32,
}

/// Why a command was refused. The table is then as it was.
#[derive(Clone, Copy, Debug, PartialEq, Eq, Error)]
pub enum TableNo {
    /// An entry of the same priority overlaps the one to be added, and the flag `OFPFF_CHECK_OVERLAP` is set; the first
    /// such entry stands at the place `with`.
    #[error("overlaps the entry at {with}")]
    Overlap { with: u32 },
    /// The table has all the entries that it can hold, and none of them would give way.
    #[error("the table is full")]
    Full,
    #[error("out of memory")]
    OutOfMemory,
}

impl From<AllocError> for TableNo {
    ghost use Rattle.std.specs.Prelude.{◌≡◌};
    ghost use Rattle.flow_table.specs.declared.effect.TableNo.TheVariants.{OutOfMemory};

    ghost from_gives = { λ _ no. no ≡ OutOfMemory };

    fn from(_: AllocError) -> TableNo {
        TableNo::OutOfMemory
    }
}
