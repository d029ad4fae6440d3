//! What a host of two applications sends.
ghost use Rattle.std.specs.Prelude.{◌≡◌, IfOk, OnOk};
ghost use Rattle.controller_host.specs.Hosting.{policies_of};
ghost use Rattle.of10_messages.specs.Valid.{IsValidMessage};

use super::{App, Host};
use controller_api::{Controller, Outbox, UpItem};
use controller_apps::{Firewall, Learning};
use listed::Listed;
use of10_match::Match;
use of10_messages::{Features, Message};
use std::alloc::{AllocError, Global};
use std::test::Fail;

// A switch without ports tells its features.
fn features(alloc: Global) -> Message
    ensures { IsValidMessage result }
{
    let features = Features {
        datapath_id: 1,
        n_buffers: 0,
        n_tables: 1,
        capabilities: 0,
        actions: 0,
        ports: Listed::new(alloc),
    };
    Message::features_reply(0, features)
}

// A packet from an address to another one.
fn packet(alloc: Global) -> Result<Message, AllocError>
    ensures { IfOk result (λ message. IsValidMessage message) }
{
    let mut record = [0; 36];
    record[5] = 1;
    record[11] = 2;
    let content = Listed::of(record.to_vec(alloc)?);
    Ok(Message::packet_in(0, 1, 0, content))
}

// A learning switch and a firewall with one rule, as they start.
fn learning_and_firewall(alloc: Global) -> Result<Host, AllocError>
    ensures { IfOk result (λ host. policies_of host ≡ 0) }
{
    let rules = Listed::of(vec![in alloc; Match::any()]?);
    let mut apps = Listed::new(alloc);
    apps.push(App::Learning(Learning::new(alloc, 9)))?;
    apps.push(App::Firewall(Firewall::new(alloc, false, rules)))?;
    Host::new(alloc, apps).fresh()
}

// A host hears a message.
fn tell(host: &mut Host, s: u16, message: Message, out: &mut Outbox) -> Result<(), AllocError>
    requires policies { policies_of host.old ≡ 0 }
    requires valid { IsValidMessage message }
    ensures { OnOk result (policies_of host.new ≡ 0) }
{
    host.handle(&UpItem::FromSwitch(s, message), out)
}

// What the two send when two switches tell their features and a packet comes up.
fn run(alloc: Global, out: &mut Outbox) -> Result<Host, AllocError> {
    let mut host = learning_and_firewall(alloc)?;
    tell(&mut host, 7, Message::hello(8), out)?;
    tell(&mut host, 7, features(alloc), out)?;
    tell(&mut host, 7, packet(alloc)?, out)?;
    tell(
        &mut host,
        7,
        Message::echo_request(9, Listed::new(alloc)),
        out,
    )?;
    tell(&mut host, 3, features(alloc), out)?;
    host.copy()
}

// The cookie of a FLOW_MOD.
fn cookie_of(message: &Message) -> Option<u64> {
    match message {
        Message::FlowMod { mods, .. } => Some(mods.cookie),
        _ => None,
    }
}

// Whether the messages have these xids and cookies.
fn are_numbered(out: &Outbox, numbers: &[(u32, Option<u64>)]) -> bool {
    let sent = out.list();
    if sent.len() != numbers.len() {
        return false;
    }
    for (at, (xid, cookie)) in numbers.iter().enumerate() {
        let message = &sent[at].1;
        if message.xid() != *xid || cookie_of(message) != *cookie {
            return false;
        }
    }
    true
}

#[test]
fn messages_are_numbered(rt: HostRuntime) -> Result<(), Fail> {
    let mut out = Outbox::new(rt.alloc());
    let host = run(rt.alloc(), &mut out)?;
    let numbers = [
        (1, None),
        (2, None),
        (3, Some(1)),
        (4, None),
        (9, None),
        (5, Some(2)),
    ];
    assert!(rt; are_numbered(&out, &numbers));
    assert_eq!(rt; host.apps().len(), 2);
    let mut again = host.fresh()?;
    let mut more = Outbox::new(rt.alloc());
    tell(&mut again, 7, Message::hello(8), &mut more)?;
    assert!(rt; are_numbered(&more, &[(1, None), (2, None)]));
    Ok(())
}
