//! The part of a network that failures, recoveries and moves change.
ghost use Rattle.std.specs.Prelude.{◌≡◌, ◌<◌, ◌^◌, length, IfOk, replicate, true};
ghost use Rattle.topology.specs.Network.{places_of};
ghost use Rattle.topology.specs.Status.{is_up};

use crate::network::{Flags, Places, Topology, is_place};
use listed::{Listed, Plain};
use std::alloc::{AllocError, Global};

/// Which links and switches are up, which control channels are up, and where each host is.
#[derive(Debug, Drop)]
pub struct Status {
    pub link_up: Flags,
    pub switch_up: Flags,
    pub control_up: Flags,
    pub place: Places,
}

impl Status {
    ghost use Rattle.topology.specs.Status.{start_of, is_up, host_at};

    /// The status that a network starts with: all is up, and each host is where the topology has it.
    pub fn start(alloc: Global, topology: &Topology) -> Result<Status, AllocError>
        ensures { IfOk result (λ status. status ≡ start_of topology.now) }
    {
        Ok(Status {
            link_up: all_up(alloc, topology.links.len())?,
            switch_up: all_up(alloc, topology.ports.len())?,
            control_up: all_up(alloc, topology.ports.len())?,
            place: Listed::of(first_places(alloc, topology.hosts.as_slice())?),
        })
    }

    /// The same status again.
    pub fn copy(&self) -> Result<Status, AllocError>
        ensures { IfOk result (λ status. status ≡ self.now) }
    {
        Ok(Status {
            link_up: self.link_up.copy()?,
            switch_up: self.switch_up.copy()?,
            control_up: self.control_up.copy()?,
            place: self.place.copy()?,
        })
    }

    /// Whether the link is up.
    pub fn is_link_up(&self, link: u16) -> bool
        ensures { result ≡ is_up self.now.link_up link }
    {
        is_flag_set(&self.link_up, link)
    }

    /// Whether the switch is up.
    pub fn is_switch_up(&self, s: u16) -> bool
        ensures { result ≡ is_up self.now.switch_up s }
    {
        is_flag_set(&self.switch_up, s)
    }

    /// Whether the control channel of the switch is up.
    pub fn is_control_up(&self, s: u16) -> bool
        ensures { result ≡ is_up self.now.control_up s }
    {
        is_flag_set(&self.control_up, s)
    }

    /// The host at port `p` of switch `s`. It goes through the hosts.
    pub fn host_at(&self, s: u16, p: u16) -> Option<u16>
        requires { length self.now.place < 2 ^ 16 }
        ensures { result ≡ host_at self.now s p }
    {
        for (at, place) in self.place.iter().enumerate() {
            if is_place(*place, s, p) {
                return Some(at as u16);
            }
        }
        None
    }
}

fn is_flag_set(flags: &Flags, number: u16) -> bool
    ensures { result ≡ is_up flags.now number }
{
    flags.get(usize::from(number)).copied().unwrap_or(false)
}

fn all_up(alloc: Global, count: usize) -> Result<Flags, AllocError>
    ensures { IfOk result (λ flags. flags ≡ replicate count true) }
{
    Ok(Listed::of(vec![in alloc; true; count]?))
}

/// The places at which hosts start.
pub fn first_places(alloc: Global, hosts: &[(u16, u16, u64)]) -> Result<Vec<(u16, u16)>, AllocError>
    ensures { IfOk result (λ places. places.items ≡ places_of hosts.now) }
{
    hosts.iter().map(|host| (host.0, host.1)).collect(alloc)
}
