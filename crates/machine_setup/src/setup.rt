//! What a run starts from.
use crate::preset::Presets;
use crate::script::Script;
use listed::Listed;
use topology::Topology;

/// The numbers that bound a run and its replays.
#[derive(Clone, Copy, Debug, PartialEq, Eq)]
pub struct Limits {
    /// How many events a run may have, from 1 to 16,384.
    pub max_events: u32,
    /// How many further events a replay may take for one entry, at most 64.
    pub budget: u32,
    /// How many workers record a run, from 1 to 8.
    pub workers: u32,
    /// How many rounds in vain a worker makes before it gives up, at most 1,000,000.
    pub patience: u32,
}

/// The controllers of a network, by number.
pub type Controllers<C> = Listed<C>;

/// A network with its controllers, what is done to it, and the limits of a run.
#[derive(Debug, Drop)]
pub struct Setup<C> {
    pub topology: Topology,
    /// The entries with which each switch starts.
    pub presets: Presets,
    pub controllers: Controllers<C>,
    pub script: Script,
    pub limits: Limits,
}
