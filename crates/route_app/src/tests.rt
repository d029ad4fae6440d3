//! Routing in a triangle of three switches.
ghost use Rattle.std.specs.Prelude.{IfOk};
ghost use Rattle.of10_messages.specs.Valid.{IsValidMessage, IsValidPort};

use super::{Map, Routing};
use controller_api::{Controller, Outbox, UpItem};
use listed::Listed;
use of10_messages::{Message, OFPPR_MODIFY, OFPPS_LINK_DOWN, PortDesc};
use std::alloc::{AllocError, Global};
use std::test::Fail;
use topology::Topology;

// Switches 7, 3 and 40: port 1 of each leads to the one after it, port 2 to the one before it. A host is at switch 40.
fn triangle(alloc: Global) -> Result<Routing, AllocError> {
    let topology = Topology {
        ports: Listed::new(alloc),
        owner: Listed::new(alloc),
        links: Listed::of(vec![in alloc; (7, 1, 3, 2), (3, 1, 40, 2), (40, 1, 7, 2)]?),
        hosts: Listed::of(vec![in alloc; (40, 5, 9)]?),
    };
    Routing::new(alloc, true, Map::of(alloc, &topology)?)
}

fn port(port_no: u16, is_down: bool) -> PortDesc
    ensures { IsValidPort result }
{
    PortDesc {
        port_no,
        hw_addr: 0,
        name: [0; 16],
        config: 0,
        state: if is_down { OFPPS_LINK_DOWN } else { 0 },
        curr: 0,
        advertised: 0,
        supported: 0,
        peer: 0,
    }
}

// A packet to the host comes up.
fn packet(alloc: Global) -> Result<Message, AllocError>
    ensures { IfOk result (λ message. IsValidMessage message) }
{
    let mut record = [0; 36];
    record[11] = 9;
    Ok(Message::packet_in(0, 4, 0, Listed::of(record.to_vec(alloc)?)))
}

// Port 1 of a switch is down.
fn down() -> Message
    ensures { IsValidMessage result }
{
    Message::port_status(0, OFPPR_MODIFY, port(1, true))
}

// Port 1 of a switch is up again.
fn up() -> Message
    ensures { IsValidMessage result }
{
    Message::port_status(0, OFPPR_MODIFY, port(1, false))
}

fn hear_down(app: &mut Routing, out: &mut Outbox) -> Result<(), AllocError> {
    app.handle(&UpItem::FromSwitch(40, down()), out)
}

fn hear_packet(app: &mut Routing, alloc: Global, out: &mut Outbox) -> Result<(), AllocError> {
    app.handle(&UpItem::FromSwitch(7, packet(alloc)?), out)
}

// Whether packets from switch 7 to the host's switch go on by this port.
fn goes_by(app: &Routing, port: u16) -> bool {
    app.next_hop(7, 40) == Some(port)
}

// Whether so much was sent.
fn sent(out: &Outbox, count: usize) -> bool {
    out.list().len() == count
}

// What a link that is told down and a packet change.
fn goes_round(app: &mut Routing, alloc: Global, out: &mut Outbox) -> Result<bool, AllocError> {
    hear_down(app, out)?;
    hear_packet(app, alloc, out)?;
    Ok(goes_by(app, 1) && sent(out, 3))
}

// What a link that is told up again changes: the next hop alone.
fn goes_back(app: &mut Routing, out: &mut Outbox) -> Result<bool, AllocError> {
    app.handle(&UpItem::FromSwitch(40, up()), out)?;
    Ok(goes_by(app, 2) && sent(out, 3))
}

// Whether a copy and one that starts anew go by these ports.
fn copies_go_by(app: &Routing, port: u16, first: u16) -> Result<bool, AllocError> {
    let copy = app.copy()?;
    let fresh = app.fresh()?;
    Ok(goes_by(&copy, port) && goes_by(&fresh, first))
}

#[test]
fn packets_go_the_other_way_round(rt: HostRuntime) -> Result<(), Fail> {
    let mut app = triangle(rt.alloc())?;
    let mut out = Outbox::new(rt.alloc());
    assert!(rt; goes_round(&mut app, rt.alloc(), &mut out)?);
    assert!(rt; copies_go_by(&app, 1, 2)?);
    assert!(rt; goes_back(&mut app, &mut out)?);
    Ok(())
}
