//! The network that a routing application is told of.
ghost use Rattle.std.specs.Prelude.{◌≡◌, IfOk};

use listed::Listed;
use std::alloc::{AllocError, Global};
use topology::{Hosts, Links, Topology};

/// The links and hosts that a routing application is told of.
#[derive(Debug, Drop)]
pub struct Map {
    pub links: Links,
    pub hosts: Hosts,
}

impl Map {
    /// The links and the hosts of a network, each host where it starts.
    pub fn of(alloc: Global, topology: &Topology) -> Result<Map, AllocError>
        ensures links { IfOk result (λ m. m.links ≡ topology.now.links) }
        ensures hosts { IfOk result (λ m. m.hosts ≡ topology.now.hosts) }
    {
        Ok(Map {
            links: Listed::of(topology.links.to_vec(alloc)?),
            hosts: Listed::of(topology.hosts.to_vec(alloc)?),
        })
    }

    /// The same map again.
    pub fn copy(&self, alloc: Global) -> Result<Map, AllocError>
        ensures { IfOk result (λ m. m ≡ self.now) }
    {
        Ok(Map {
            links: Listed::of(self.links.to_vec(alloc)?),
            hosts: Listed::of(self.hosts.to_vec(alloc)?),
        })
    }
}
