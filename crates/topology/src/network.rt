//! The fixed part of a network.
ghost use Rattle.std.specs.Prelude.{◌≡◌, ◌<◌, ◌^◌, length, IfOk};
ghost use Rattle.topology.specs.Network.{is_place};

use listed::Listed;
use std::alloc::{AllocError, Global};

/// The number of ports of each switch, by switch number from 0. Ports are numbered from 1.
pub type Ports = Listed<u16>;

/// The controller of each switch, by switch number, or none.
pub type Owners = Listed<Option<u16>>;

/// Links, each as switch and port of its first end, then switch and port of its second end.
pub type Links = Listed<(u16, u16, u16, u16)>;

/// Hosts, each as the switch and port that it starts at, and its MAC address (48 bits).
pub type Hosts = Listed<(u16, u16, u64)>;

/// One mark for each link or switch.
pub type Flags = Listed<bool>;

/// One place for each host: a switch and a port of it.
pub type Places = Listed<(u16, u16)>;

/// What is wired to what. Nothing that happens changes it.
#[derive(Debug, Drop)]
pub struct Topology {
    pub ports: Ports,
    pub owner: Owners,
    pub links: Links,
    pub hosts: Hosts,
}

impl Topology {
    ghost use Rattle.topology.specs.Network.{far_end};

    /// The link that ends at port `p` of switch `s`, with the switch and the port of its other end. It goes through the links.
    pub fn far_end(&self, s: u16, p: u16) -> Option<(u16, u16, u16)>
        requires { length self.now.links < 2 ^ 16 }
        ensures { result ≡ far_end self.now s p }
    {
        for (at, link) in self.links.iter().enumerate() {
            if is_place((link.0, link.1), s, p) {
                return Some((at as u16, link.2, link.3));
            }
            if is_place((link.2, link.3), s, p) {
                return Some((at as u16, link.0, link.1));
            }
        }
        None
    }

    /// The same network again.
    pub fn copy(&self, alloc: Global) -> Result<Topology, AllocError>
        ensures { IfOk result (λ topology. topology ≡ self.now) }
    {
        Ok(Topology {
            ports: Listed::of(self.ports.to_vec(alloc)?),
            owner: Listed::of(self.owner.to_vec(alloc)?),
            links: Listed::of(self.links.to_vec(alloc)?),
            hosts: Listed::of(self.hosts.to_vec(alloc)?),
        })
    }
}

// Whether the place is port `p` of switch `s`.
pub(crate) fn is_place(place: (u16, u16), s: u16, p: u16) -> bool
    ensures { result ≡ is_place s p place }
{
    place.0 == s && place.1 == p
}
