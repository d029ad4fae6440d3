//! Sets of the places and addresses that earlier parts of a network have, so that a whole network is tried in one walk.
ghost use Rattle.std.specs.Prelude.{◌≡◌, ◌==◌, ◌||◌, [], OnOk, ℕ};
ghost use Rattle.topology.specs.Network.{is_place};
ghost use Rattle.scenario_doc.specs.Taken.{HasAddresses, HasPlaces, has_address, has_place};

use std::alloc::{AllocError, Global};
use std::collections::BTreeSet;

/// Places, each a switch and a port of it.
#[derive(Drop)]
pub(crate) struct Places {
    pub(crate) seen: BTreeSet<(u16, u16)>,
}

impl Places {
    pub(crate) fn new(alloc: Global) -> Places
        ensures { HasPlaces result.seen [] }
    {
        Places {
            seen: BTreeSet::new(alloc),
        }
    }

    /// Whether a place is one of them.
    pub(crate) fn has(&self, s: u16, p: u16) -> bool
        ensures { result ≡ has_place self.now.seen s p }
    {
        self.seen.contains(&(s, p))
    }

    /// Adds a place, which may be one of them.
    pub(crate) fn add(&mut self, s: u16, p: u16) -> Result<(), AllocError>
        ensures { OnOk result ((a b : ℕ) → has_place self.new.seen a b ≡ (is_place a b (s, p) || has_place self.old.seen a b)) }
    {
        self.seen.insert((s, p))?;
        Ok(())
    }
}

/// Addresses.
#[derive(Drop)]
pub(crate) struct Addresses {
    pub(crate) seen: BTreeSet<u64>,
}

impl Addresses {
    pub(crate) fn new(alloc: Global) -> Addresses
        ensures { HasAddresses result.seen [] }
    {
        Addresses {
            seen: BTreeSet::new(alloc),
        }
    }

    /// Whether an address is one of them.
    pub(crate) fn has(&self, mac: u64) -> bool
        ensures { result ≡ has_address self.now.seen mac }
    {
        self.seen.contains(&mac)
    }

    /// Adds an address, which may be one of them.
    pub(crate) fn add(&mut self, mac: u64) -> Result<(), AllocError>
        ensures { OnOk result ((one : ℕ) → has_address self.new.seen one ≡ (mac == one || has_address self.old.seen one)) }
    {
        self.seen.insert(mac)?;
        Ok(())
    }
}
