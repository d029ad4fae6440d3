//! The numbers of the entries of each worker.
ghost use Rattle.std.specs.Prelude.{◌≡◌, ℕ, ◌<◌, ◌^◌, OnOk};

use std::alloc::{AllocError, Global};
use std::collections::BTreeMap;

/// How many entries each worker has recorded.
#[derive(Debug, Drop)]
pub(crate) struct Numbers {
    counts: BTreeMap<u32, u64>,
}

impl Numbers {
    ghost use Rattle.event_machine.specs.Numbers.{number_of, CountsEntry};

    /// No worker has recorded anything. It takes no memory.
    pub(crate) fn new(alloc: Global) -> Numbers
        ensures { (worker : ℕ) → number_of result worker ≡ 0 }
    {
        Numbers {
            counts: BTreeMap::new(alloc),
        }
    }

    /// The number of the worker's next entry.
    pub(crate) fn next_of(&self, worker: u32) -> u64
        ensures { result ≡ number_of self.now worker }
    {
        self.counts.get(&worker).copied().unwrap_or(0)
    }

    /// Counts one more entry of the worker.
    pub(crate) fn count(&mut self, worker: u32) -> Result<(), AllocError>
        requires { number_of self.old worker < 2 ^ 63 }
        ensures { OnOk result (CountsEntry self.old self.new worker) }
    {
        let number = self.next_of(worker);
        self.counts.insert(worker, number + 1)?;
        Ok(())
    }
}
