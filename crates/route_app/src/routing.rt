//! Routing: packets go along shortest paths, by a table of next hops that follows what switches tell of their ports.
ghost use Rattle.std.specs.Prelude.{◌≡◌, ◌≢◌, ◌==◌, ◌<◌, ◌^◌, ◌++◌, IfOk, OnOk, OnErr};
ghost use Rattle.std.specs.List.{find};
ghost use Rattle.app_messages.specs.Extending.{Extends};
ghost use Rattle.app_messages.specs.Sent.{header_of};
ghost use Rattle.controller_api.specs.Reaction.{IsValidUpItem};
ghost use Rattle.of10_messages.specs.Valid.{IsValidMessage};
ghost use Rattle.route_app.specs.Paths.{IsNextHop, exits_of};
ghost use Rattle.route_app.specs.Routing.{at_packet, at_port, clearing, entry_to, hop, router_of, routing, says_down, told, told_all, usable, way_to};

use crate::laws::a_routing_controller_sends_few;
use crate::map::Map;
use crate::numbers::{number_of, switches_of, wires_of};
use crate::reach::Rows;
use crate::table::{empty_rows, fill, reach_between};
use crate::told::{Ends, says_down, tell, tell_all};
use app_messages::{Seen, add};
use controller_api::{Controller, Outbox, UpItem};
use listed::{Listed, Plain};
use of10_match::Match;
use of10_messages::{Action, FlowMod, Message, PortDesc, one_action};
use std::alloc::{AllocError, Global};
use std::marker::Model;
use topology::Links;

/// The priority of the entries that it adds.
const PRIORITY: u16 = 100;

/// A routing application. Contracts see whether it clears entries to a port that is told down, its map, and for each link whether
/// its first and its second end are told down.
#[derive(Debug, Drop)]
pub struct Routing {
    clear_on_down: bool,
    map: Map,
    down: Ends,
    switches: Listed<u16>,
    wires: Links,
    rows: Rows,
    alloc: Global,
}

impl Model for Routing {
    ghost use Rattle.route_app.specs.Routing.{Router};
    ghost use Rattle.route_app.specs.Table.{IsRouted};

    ghost Value = { Router };

    ghost view = { λ r. record { clear_on_down = r.clear_on_down; map = r.map; down = r.down } };

    ghost invariant = { λ r. IsRouted r.map.links r.wires r.switches r.down r.rows };
}

impl Routing {
    /// One to which nothing is told down yet. It finds all shortest paths.
    pub fn new(alloc: Global, clear_on_down: bool, map: Map) -> Result<Routing, AllocError>
        ensures { IfOk result (λ r. r ≡ router_of clear_on_down map) }
    {
        let switches = switches_of(alloc, map.links.as_slice())?;
        let wires = wires_of(alloc, switches.as_slice(), map.links.as_slice())?;
        let down = Listed::of(vec![in alloc; (false, false); map.links.len()]?);
        let mut rows = empty_rows(alloc, switches.len(), wires.as_slice())?;
        fill(&mut rows, wires.as_slice(), down.as_slice());
        Ok(Routing {
            clear_on_down,
            map,
            down,
            switches,
            wires,
            rows,
            alloc,
        })
    }

    /// Whether entries to a port are deleted when it is told down.
    pub fn clear_on_down(&self) -> bool
        ensures { result ≡ self.now.clear_on_down }
    {
        self.clear_on_down
    }

    /// The network that it was told of when it was made.
    pub fn map(&self) -> &Map
        ensures { result.now ≡ self.now.map }
    {
        &self.map
    }

    /// The port by which packets go on from a switch to another one, along links that are not told down. `None` where there is
    /// no path, and where the two are one.
    pub fn next_hop(&self, from: u16, to: u16) -> Option<u16>
        ensures value { result ≡ hop self.now from to }
        ensures paths { IsNextHop (exits_of (usable self.now)) from to result }
    {
        if from == to {
            return None;
        }
        self.look_up(from, to)
    }

    /// The same between two switches that are not one.
    fn look_up(&self, from: u16, to: u16) -> Option<u16>
        requires { from ≢ to }
        ensures { IsNextHop (exits_of (usable self.now)) from to result }
    {
        let first = number_of(self.switches.as_slice(), from)?;
        let last = number_of(self.switches.as_slice(), to)?;
        match reach_between(&self.rows, first, last) {
            None => None,
            Some(reach) => Some(reach.port),
        }
    }

    /// Sends what answers an item, and changes nothing of itself. After want of memory some of it may have been sent.
    pub fn send(&self, item: &UpItem, out: &mut Outbox) -> Result<(), AllocError>
        requires { IsValidUpItem item.now }
        ensures sent { OnOk result (out.new ≡ out.old ++ (routing self.now item.now).sent) }
        ensures unsent { OnErr result (Extends out.old out.new) }
    {
        let UpItem::FromSwitch(s, message) = item else {
            return Ok(());
        };
        if let Message::PortStatus { port, .. } = message {
            return self.send_clearing(*s, port, out);
        }
        match Seen::of(message) {
            Some(seen) => self.send_on(*s, &seen, out),
            None => Ok(()),
        }
    }

    /// Comes to the state after an item. It takes no memory.
    pub fn hear(&mut self, item: &UpItem)
        ensures { self.new ≡ (routing self.old item.now).state }
    {
        let UpItem::FromSwitch(s, message) = item else {
            return;
        };
        match message {
            Message::FeaturesReply { features, .. } => {
                self.hear_ports(*s, features.ports.as_slice());
            }
            Message::PortStatus { port, .. } => self.hear_port(*s, port),
            _ => {}
        }
    }

    /// A switch lists its ports.
    fn hear_ports(&mut self, s: u16, ports: &[PortDesc])
        ensures { self.new ≡ told_all s ports.now self.old }
    {
        if tell_all(&mut self.down, self.map.links.as_slice(), s, ports) {
            fill(&mut self.rows, self.wires.as_slice(), self.down.as_slice());
        }
    }

    /// A switch tells that a port has changed.
    fn hear_port(&mut self, s: u16, port: &PortDesc)
        ensures { self.new ≡ told s port.now.port_no (says_down port.now) self.old }
    {
        if tell(&mut self.down, self.map.links.as_slice(), s, port) {
            fill(&mut self.rows, self.wires.as_slice(), self.down.as_slice());
        }
    }

    /// Clears the entries to a port that is told down, where that is wanted.
    fn send_clearing(&self, s: u16, port: &PortDesc, out: &mut Outbox) -> Result<(), AllocError>
        ensures sent { OnOk result (out.new ≡ out.old ++ (at_port s port.now self.now).sent) }
        ensures unsent { OnErr result (Extends out.old out.new) }
    {
        if says_down(port) && self.clear_on_down {
            return out.send(s, clearing(self.alloc, port.port_no));
        }
        Ok(())
    }

    /// Sends the entry for a packet and the packet itself, where there is a way for it.
    fn send_on(&self, s: u16, seen: &Seen<'_>, out: &mut Outbox) -> Result<(), AllocError>
        ensures sent { OnOk result (out.new ≡ out.old ++ (at_packet s (record { in_port = seen.now.in_port; content = seen.now.content.now }) self.now).sent) }
        ensures unsent { OnErr result (Extends out.old out.new) }
    {
        let address = seen.header().dl_dst;
        match self.way_to(s, address) {
            None => Ok(()),
            Some(port) => {
                out.send(s, entry_to(self.alloc, address, port)?)?;
                out.send(s, seen.sent_on(self.alloc, port)?)
            }
        }
    }

    /// The port of a switch for packets to a MAC address. It goes through the hosts.
    fn way_to(&self, s: u16, address: u64) -> Option<u16>
        ensures { result ≡ way_to self.now s address }
    {
        let host = host_with(self.map.hosts.as_slice(), address)?;
        if host.0 == s {
            return Some(host.1);
        }
        self.next_hop(s, host.0)
    }
}

impl Controller for Routing {
    ghost react = { routing };

    ghost start = { λ r. router_of r.clear_on_down r.map };

    ghost policies = { λ _. 0 };

    fn fresh(&self) -> Result<Routing, AllocError> {
        let map = self.map.copy(self.alloc)?;
        Routing::new(self.alloc, self.clear_on_down, map)
    }

    fn send(&self, item: &UpItem, out: &mut Outbox) -> Result<(), AllocError> {
        a_routing_controller_sends_few();
        let before = out.list().len();
        match Routing::send(self, item, out) {
            Ok(()) => Ok(()),
            Err(error) => {
                out.truncate(before);
                Err(error)
            }
        }
    }

    fn hear(&mut self, item: &UpItem, _sent: &[(u16, Message)]) -> Result<(), AllocError> {
        Routing::hear(self, item);
        Ok(())
    }

    fn copy(&self) -> Result<Routing, AllocError> {
        let map = self.map.copy(self.alloc)?;
        let down = self.down.copy()?;
        let switches = self.switches.copy()?;
        let wires = Listed::of(self.wires.to_vec(self.alloc)?);
        let rows = self.rows.copy()?;
        Ok(Routing {
            clear_on_down: self.clear_on_down,
            map,
            down,
            switches,
            wires,
            rows,
            alloc: self.alloc,
        })
    }
}

/// The first host with a MAC address.
fn host_with(hosts: &[(u16, u16, u64)], address: u64) -> Option<(u16, u16, u64)>
    ensures { result ≡ find (λ host. host.2 == address) hosts.now }
{
    for host in hosts {
        if host.2 == address {
            return Some(*host);
        }
    }
    None
}

/// The DELETE of all entries that send to a port.
fn clearing(alloc: Global, port: u16) -> Message
    ensures value { result ≡ clearing port }
    ensures valid { IsValidMessage result }
{
    Message::flow_mod(0, FlowMod::delete(alloc, Match::any()).with_out_port(port))
}

/// The entry that sends packets to a MAC address out of a port.
fn entry_to(alloc: Global, address: u64, port: u16) -> Result<Message, AllocError>
    requires { address < 2 ^ 48 }
    ensures value { IfOk result (λ message. message ≡ entry_to address port) }
    ensures valid { IfOk result (λ message. IsValidMessage message) }
{
    let mut matches = Match::any();
    matches.dl_dst = Some(address);
    let actions = one_action(alloc, Action::output(port))?;
    Ok(add(matches, PRIORITY, 0, actions))
}
