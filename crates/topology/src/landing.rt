//! Where a packet comes to that leaves a switch by a port.
ghost use Rattle.std.specs.Prelude.{◌≡◌, ◌<◌, ◌^◌, length, Some, None};
ghost use Rattle.topology.specs.Status.{landing, landing_of};

use crate::network::Topology;
use crate::status::Status;

/// Where a packet comes to.
#[derive(Clone, Copy, Debug, PartialEq, Eq)]
pub enum Landing {
    /// To port `p` of switch `s`, over a link.
    Wire { s: u16, p: u16 },
    /// To a host.
    Host(u16),
    /// Nowhere.
    Lost(Why),
}

/// Why a packet comes nowhere.
#[derive(Clone, Copy, Debug, PartialEq, Eq)]
pub enum Why {
    /// Neither a link ends at the port nor is a host there.
    Nothing,
    /// A link ends at the port, and it is down.
    LinkIsDown,
    /// The link is up, and the switch at its other end is down.
    SwitchIsDown,
}

/// Where a packet comes to that leaves switch `s` by port `p`.
pub fn emit(topology: &Topology, status: &Status, s: u16, p: u16) -> Landing
    requires links { length topology.now.links < 2 ^ 16 }
    requires hosts { length status.now.place < 2 ^ 16 }
    ensures { result ≡ landing topology.now status.now s p }
{
    match topology.far_end(s, p) {
        Some((link, far_switch, far_port)) => over_link(status, link, far_switch, far_port),
        None => match status.host_at(s, p) {
            Some(host) => Landing::Host(host),
            None => Landing::Lost(Why::Nothing),
        },
    }
}

// Where a packet comes to by a link, with the port at its other end.
fn over_link(status: &Status, link: u16, s: u16, p: u16) -> Landing
    ensures { result ≡ landing_of status.now (Some (link, s, p)) None }
{
    if !status.is_link_up(link) {
        Landing::Lost(Why::LinkIsDown)
    } else if !status.is_switch_up(s) {
        Landing::Lost(Why::SwitchIsDown)
    } else {
        Landing::Wire { s, p }
    }
}
