//! Work for a worker.
ghost use Rattle.std.specs.Prelude.{◌≡◌, Ok};

use event_world::Event;

/// An event that an actor may take next, and how many entries the history had when it was offered.
#[derive(Clone, Copy, Debug, PartialEq, Eq)]
pub struct Task {
    pub event: Event,
    pub place: u64,
}

impl Task {
    /// Does the work that needs no turn. The states of the actors stand in the book, so there is none: the event's step is taken
    /// when it is entered.
    pub fn work(self) -> Deed
        ensures { result.task ≡ self }
    {
        Deed { task: self }
    }
}

/// Work that is done, and may be entered.
#[derive(Clone, Copy, Debug, PartialEq, Eq)]
pub struct Deed {
    pub task: Task,
}
