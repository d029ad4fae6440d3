//! Which ends of links are told down.
ghost use Rattle.std.specs.Prelude.{◌≡◌, ◌||◌, false, length};
ghost use Rattle.route_app.specs.Routing.{all_told_ends, says_down, told_ends, told_of_link};
ghost use Rattle.topology.specs.Network.{is_place};

use crate::reach::Wire;
use listed::Listed;
use of10_messages::{OFPPS_LINK_DOWN, PortDesc};

/// For each link whether its first and its second end are told down.
pub type Ends = Listed<(bool, bool)>;

/// A switch lists its ports. It says whether an end may have changed.
pub fn tell_all(down: &mut Ends, links: &[Wire], s: u16, ports: &[PortDesc]) -> bool
    requires { length down.old ≡ length links.now }
    ensures told { down.new ≡ all_told_ends s ports.now links.now down.old }
    ensures length { length down.new ≡ length down.old }
    ensures same { result ≡ false → down.new ≡ down.old }
{
    let mut changed = false;
    for port in ports {
        if tell(down, links, s, port) {
            changed = true;
        }
    }
    changed
}

/// A switch tells of a port. It says whether an end may have changed.
pub fn tell(down: &mut Ends, links: &[Wire], s: u16, port: &PortDesc) -> bool
    requires { length down.old ≡ length links.now }
    ensures told { down.new ≡ told_ends s port.now.port_no (says_down port.now) links.now down.old }
    ensures length { length down.new ≡ length down.old }
    ensures same { result ≡ false → down.new ≡ down.old }
{
    let is_down = says_down(port);
    let mut changed = false;
    for (at, link) in links.iter().enumerate() {
        let before = down[at];
        let after = told_of_link(*link, before, s, port.port_no, is_down);
        if after != before {
            down.replace(at, after);
            changed = true;
        }
    }
    changed
}

/// Whether a port says that its link is down.
pub fn says_down(port: &PortDesc) -> bool
    ensures { result ≡ says_down port.now }
{
    port.state & OFPPS_LINK_DOWN != 0
}

/// Whether an end of a link is told down.
pub fn is_down(ends: (bool, bool)) -> bool
    ensures { result ≡ (ends.0 || ends.1) }
{
    ends.0 || ends.1
}

// What is told of both ends of a link, once a port is told down or up.
fn told_of_link(link: Wire, ends: (bool, bool), s: u16, p: u16, is_down: bool) -> (bool, bool)
    ensures { result ≡ told_of_link s p is_down (link, ends) }
{
    let first = if is_place(link.0, link.1, s, p) {
        is_down
    } else {
        ends.0
    };
    let second = if is_place(link.2, link.3, s, p) {
        is_down
    } else {
        ends.1
    };
    (first, second)
}

// Whether a switch and a port of it are port `p` of switch `s`.
fn is_place(switch: u16, port: u16, s: u16, p: u16) -> bool
    ensures { result ≡ is_place s p (switch, port) }
{
    switch == s && port == p
}
