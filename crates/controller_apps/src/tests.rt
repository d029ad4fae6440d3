//! What the applications send for a few items in a row.
ghost use Rattle.std.specs.Prelude.{◌≡◌, ◌≤◌, length, IfOk, OnOk};
ghost use Rattle.of10_messages.specs.Valid.{IsValidMessage};

use super::{Firewall, Learning};
use controller_api::{Controller, Outbox, UpItem};
use listed::Listed;
use of10_match::{Match, OFPP_FLOOD};
use of10_messages::{Action, Features, Message};
use std::alloc::{AllocError, Global};
use std::test::Fail;

// A switch without ports tells its features.
fn features(alloc: Global) -> Message
    ensures { IsValidMessage result }
{
    let features = Features {
        datapath_id: 1,
        n_buffers: 0,
        n_tables: 1,
        capabilities: 0,
        actions: 0,
        ports: Listed::new(alloc),
    };
    Message::features_reply(0, features)
}

// A packet that comes up to a learning switch, with all of its record or all but the last byte, and what is sent.
#[derive(Clone, Copy)]
struct Row {
    again: bool,
    in_port: u16,
    src: u8,
    dst: u8,
    whole: bool,
    sent: usize,
    port: Option<u16>,
}

// Where `again` is set the switch tells its features before.
const fn row_of(
    again: bool,
    path: (u16, u8, u8),
    whole: bool,
    sent: usize,
    port: Option<u16>,
) -> Row {
    Row {
        again,
        in_port: path.0,
        src: path.1,
        dst: path.2,
        whole,
        sent,
        port,
    }
}

fn packet(alloc: Global, row: &Row) -> Result<Message, AllocError>
    ensures { IfOk result (λ message. IsValidMessage message) }
{
    let mut record = [0; 36];
    record[5] = row.src;
    record[11] = row.dst;
    let len = if row.whole { 36 } else { 35 };
    let content = Listed::of(record[..len].to_vec(alloc)?);
    Ok(Message::packet_in(0, row.in_port, 0, content))
}

// The port to which the actions of a message send a packet.
fn port_of(message: &Message) -> Option<u16> {
    let actions = match message {
        Message::PacketOut { actions, .. } => actions,
        Message::FlowMod { mods, .. } => &mods.actions,
        _ => return None,
    };
    match actions.as_slice() {
        [Action::Output { port, .. }] => Some(*port),
        _ => None,
    }
}

// Whether so many messages were sent, the last of them to this port.
fn sends(out: &Outbox, sent: usize, port: Option<u16>) -> bool {
    let last = match out.list().last() {
        Some((_, message)) => port_of(message),
        None => None,
    };
    out.list().len() == sent && last == port
}

// Whether a learning switch sends for a packet what the row says.
fn learns(app: &mut Learning, alloc: Global, row: &Row) -> Result<bool, AllocError> {
    let mut out = Outbox::new(alloc);
    if row.again {
        app.handle(&UpItem::FromSwitch(4, features(alloc)), &mut out)?;
    }
    app.handle(&UpItem::FromSwitch(4, packet(alloc, row)?), &mut out)?;
    Ok(sends(&out, row.sent, row.port))
}

#[test]
fn a_switch_learns(rt: HostRuntime) -> Result<(), Fail> {
    let rows = [
        row_of(false, (1, 1, 2), true, 1, Some(OFPP_FLOOD)),
        row_of(false, (2, 2, 1), true, 2, Some(1)),
        row_of(false, (1, 3, 1), true, 0, None),
        row_of(false, (1, 4, 2), false, 0, None),
        row_of(false, (3, 5, 5), true, 0, None),
        row_of(true, (3, 6, 2), true, 1, Some(OFPP_FLOOD)),
    ];
    let mut app = Learning::new(rt.alloc(), 9).copy()?;
    for row in rows {
        assert!(rt; learns(&mut app, rt.alloc(), &row)?);
    }
    assert_eq!(rt; app.fresh()?.idle(), 9);
    Ok(())
}

// A switch joins a firewall.
fn join(wall: &mut Firewall, alloc: Global, s: u16, out: &mut Outbox) -> Result<(), AllocError>
    requires { length wall.old.policies ≤ 1 }
    ensures { OnOk result (length wall.new.policies ≡ length wall.old.policies) }
{
    wall.handle(&UpItem::FromSwitch(s, features(alloc)), out)
}

// A firewall is told a policy.
fn deny(wall: &mut Firewall, out: &mut Outbox) -> Result<(), AllocError>
    requires { length wall.old.policies ≤ 0 }
    ensures { OnOk result (length wall.new.policies ≤ 1) }
{
    wall.handle(&UpItem::Policy(Match::any()), out)
}

// What a firewall with one rule sends when two switches join, a policy comes, and the first switch joins again.
fn guard(alloc: Global, reinstall: bool, out: &mut Outbox) -> Result<Firewall, AllocError> {
    let rules = Listed::of(vec![in alloc; Match::any()]?);
    let mut wall = Firewall::new(alloc, reinstall, rules);
    join(&mut wall, alloc, 7, out)?;
    join(&mut wall, alloc, 3, out)?;
    deny(&mut wall, out)?;
    join(&mut wall, alloc, 7, out)?;
    wall.copy()
}

// Whether the messages went to these switches, in this order.
fn went_to(out: &Outbox, switches: &[u16]) -> bool {
    let sent = out.list();
    if sent.len() != switches.len() {
        return false;
    }
    for (at, s) in switches.iter().enumerate() {
        if sent[at].0 != *s {
            return false;
        }
    }
    true
}

#[test]
fn a_firewall_guards(rt: HostRuntime) -> Result<(), Fail> {
    let mut out = Outbox::new(rt.alloc());
    let wall = guard(rt.alloc(), false, &mut out)?;
    assert!(rt; went_to(&out, &[7, 3, 3, 7]));
    let mut again = Outbox::new(rt.alloc());
    guard(rt.alloc(), true, &mut again)?;
    assert!(rt; went_to(&again, &[7, 3, 3, 7, 7, 7]));
    assert!(rt; !wall.reinstall() && wall.fresh()?.rules().len() == 1);
    Ok(())
}

#[test]
fn what_was_heard_is_undone(rt: HostRuntime) -> Result<(), Fail> {
    let row = row_of(false, (1, 1, 2), true, 0, None);
    let up = UpItem::FromSwitch(4, packet(rt.alloc(), &row)?);
    let mut app = Learning::new(rt.alloc(), 9);
    let before = app.known_before(&up);
    app.hear(&up)?;
    assert_eq!(rt; app.known_before(&up), Some(Some(1)));
    app.undo(&up, before);
    assert_eq!(rt; app.known_before(&up), None);
    let mut wall = Firewall::new(rt.alloc(), true, Listed::new(rt.alloc()));
    let joins = UpItem::FromSwitch(7, features(rt.alloc()));
    let had_joined = wall.joined_before(&joins);
    wall.hear(&joins)?;
    assert!(rt; wall.joined_before(&joins));
    wall.undo(&joins, had_joined);
    assert!(rt; !wall.joined_before(&joins));
    Ok(())
}
