//! Gates at which two workers meet.
ghost use Rattle.std.specs.Prelude.{◌≡◌, ◌+◌, ◌-◌, ◌^◌, min};

use run_recorder::Gate;
use std::alloc::{AllocError, Global};
use std::sync::Arc;
use std::sync::atomic::{AtomicBool, Ordering};

// How often a worker looks for the other one, and then goes on.
const LOOKS: u32 = 10_000_000;

/// A worker that passes for the first time raises its own flag, and goes on once the other's is raised, or once it has looked for long.
#[derive(Drop)]
pub(crate) struct Meeting {
    own: Arc<AtomicBool>,
    other: Arc<AtomicBool>,
    met: bool,
    passes: u64,
}

impl Meeting {
    // A gate of the worker that raises one flag, and looks for another.
    fn new(own: &Arc<AtomicBool>, other: &Arc<AtomicBool>) -> Result<Meeting, AllocError> {
        Ok(Meeting {
            own: own.clone()?,
            other: other.clone()?,
            met: false,
            passes: 0,
        })
    }

    /// Whether the other's flag was raised.
    pub(crate) fn has_met(&self) -> bool {
        self.met
    }

    // Raises its own flag, and looks for the other's.
    fn meet(&mut self)
        ensures { self.new.passes ≡ self.old.passes }
    {
        self.own.store(true, Ordering::SeqCst);
        self.met = is_seen(&self.other);
    }
}

// Looks for a flag to be raised, as often as a worker looks.
fn is_seen(flag: &AtomicBool) -> bool {
    for _ in 0..LOOKS {
        if flag.load(Ordering::SeqCst) {
            return true;
        }
    }
    false
}

impl Gate for Meeting {
    ghost passes = { λ gate. gate.passes };

    fn pass(&mut self, _worker: u32, _step: u64) {
        if self.passes == 0 {
            self.meet();
        }
        self.passes = self.passes.saturating_add(1);
    }
}

/// Gates at which the workers 1 and 2 meet. Nobody else has a gate that opens late.
pub(crate) fn meetings(alloc: Global) -> Result<[Meeting; 8], AllocError> {
    let one = Arc::new(alloc, AtomicBool::new(false))?;
    let two = Arc::new(alloc, AtomicBool::new(false))?;
    let up = Arc::new(alloc, AtomicBool::new(true))?;
    Ok([
        Meeting::new(&one, &two)?,
        Meeting::new(&two, &one)?,
        Meeting::new(&up, &up)?,
        Meeting::new(&up, &up)?,
        Meeting::new(&up, &up)?,
        Meeting::new(&up, &up)?,
        Meeting::new(&up, &up)?,
        Meeting::new(&up, &up)?,
    ])
}
