//! The entries with which a switch starts.
ghost use Rattle.std.specs.Prelude.{◌≡◌, IfOk};

use flow_table::Entry;
use listed::{Listed, Plain};
use of10_match::Match;
use of10_messages::Actions10;
use std::alloc::AllocError;

/// A flow entry with which a switch starts. A switch that restarts has none.
#[derive(Debug, Drop)]
pub struct Preset {
    pub matches: Match,
    pub priority: u16,
    pub actions: Actions10,
    /// Seconds without a packet after which the entry goes, or 0 for never.
    pub idle: u16,
    /// Seconds after which the entry goes, or 0 for never.
    pub hard: u16,
    /// `OFPFF_SEND_FLOW_REM` or 0.
    pub flags: u16,
    pub cookie: u64,
}

/// The presets of a switch, in order.
pub type SwitchPresets = Listed<Preset>;

/// A list of presets for each switch.
pub type Presets = Listed<SwitchPresets>;

impl Preset {
    ghost use Rattle.machine_setup.specs.Setup.{entry_of};

    /// The entry as it stands in the table at the start: added at time 0, and no packet yet.
    pub fn entry(&self) -> Result<Entry, AllocError>
        ensures { IfOk result (λ entry. entry ≡ entry_of self.now) }
    {
        Ok(Entry {
            matches: self.matches,
            priority: self.priority,
            cookie: self.cookie,
            idle: self.idle,
            hard: self.hard,
            flags: self.flags,
            actions: self.actions.copy()?,
            added: 0,
            hit: 0,
            packets: 0,
            bytes: 0,
        })
    }
}
