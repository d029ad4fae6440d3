//! How far it is from a switch to another one, and the table of that.
ghost use Rattle.std.specs.Prelude.{◌≡◌};
ghost use Rattle.listed.specs.Plain.{plain};

use crate::queue::Queue;
use listed::{Listed, Plain};

/// A shortest path: of how many links it is, and the port by which it begins, which means nothing where it has no link.
#[derive(Clone, Copy, Debug, PartialEq, Eq)]
pub struct Reach {
    pub links: u32,
    pub port: u16,
}

impl Plain for Reach {
    fn same(&self, other: &Self) -> bool {
        *self == *other
    }

    ghost clones = { Prim.search plain };
}

/// A link between two switches that are given by their numbers.
pub type Wire = (u16, u16, u16, u16);

/// A way in to a switch: from which one, by which port of that one, and along which of the links.
#[derive(Clone, Copy, Debug, PartialEq, Eq)]
pub struct WayIn {
    pub from: u16,
    pub port: u16,
    pub link: usize,
}

impl Plain for WayIn {
    fn same(&self, other: &Self) -> bool {
        *self == *other
    }

    ghost clones = { Prim.search plain };
}

/// The ways in to each switch.
pub type WaysIn = Listed<Listed<WayIn>>;

/// The shortest paths from each switch to one of them, where there are any.
pub type Row = Listed<Option<Reach>>;

/// A row for each switch, which ends of links were told down when they were found, and what the search for shortest paths needs: so
/// it takes no memory.
#[derive(Clone, Debug, Drop)]
pub struct Rows {
    pub rows: Listed<Row>,
    pub down: Listed<(bool, bool)>,
    pub ways_in: WaysIn,
    pub queue: Queue,
}

impl Plain for Rows {
    fn same(&self, other: &Self) -> bool {
        let same_rows = self.rows.same(&other.rows) && self.down.same(&other.down);
        same_rows && self.ways_in.same(&other.ways_in) && self.queue.same(&other.queue)
    }

    ghost clones = { Prim.search plain };
}
