//! A host: up to four applications as one controller.
ghost use Rattle.std.specs.Prelude.{◌≡◌, ◌<◌, ◌≤◌, ◌^◌, [], ◌∷◌, ◌++◌, length, OnOk, OnErr};
ghost use Rattle.app_messages.specs.Extending.{Extends};
ghost use Rattle.controller_api.specs.Reaction.{CountsPolicies, IsValidUpItem};
ghost use Rattle.of10_messages.specs.declared.message.Message.TheVariants.{EchoReply, EchoRequest};
ghost use Rattle.of10_messages.specs.Valid.{IsValidMessage};

use crate::app::{App, Apps};
use crate::apps::{copy_all, fresh_all, hear_all, parts_of_all, send_all};
use crate::numbers::Numbers;
use controller_api::{Controller, Outbox, UpItem};
use controller_apps::laws::{a_firewall_sends_few, a_learning_controller_sends_few};
use listed::Plain;
use of10_messages::laws::lengths_of_messages;
use of10_messages::{Bytes, Message};
use route_app::laws::a_routing_controller_sends_few;
use std::alloc::{AllocError, Global};
use std::marker::Model;

/// The numbers with which a host begins.
const FIRST: Numbers = Numbers { xid: 1, cookie: 1 };

/// Applications as one controller. Contracts see them in order, and the next xid and the next cookie.
#[derive(Debug, Drop)]
pub struct Host {
    apps: Vec<App>,
    numbers: Numbers,
    alloc: Global,
}

impl Model for Host {
    ghost use Rattle.std.specs.Prelude.{◌≤◌, length};
    ghost use Rattle.controller_host.specs.Hosting.{Hosting};
    ghost use Rattle.std.specs.Coded.{codes};
    ghost use Rattle.controller_apps.specs.Ports.{ports_code};

    ghost Value = { Hosting };

    ghost coded = { Prim.hlevel (codes, ports_code) };

    ghost view = { λ h. record { apps = h.apps.items; xid = h.numbers.xid; cookie = h.numbers.cookie } };

    ghost invariant = { λ h. length h.apps.items ≤ 4 };
}

impl Host {
    ghost use Rattle.controller_host.specs.Hosting.{greeting, hosting, hosting_of, policies_of, telling};

    /// The applications as one controller, in this order. It takes no memory.
    pub fn new(alloc: Global, apps: Apps) -> Host
        requires { length apps ≤ 4 }
        ensures { result ≡ hosting_of apps }
    {
        Host {
            apps: apps.into_vec(),
            numbers: FIRST,
            alloc,
        }
    }

    /// The applications, in order.
    pub fn apps(&self) -> &[App]
        ensures { result.now ≡ self.now.apps }
    {
        self.apps.as_slice()
    }

    /// How much it sends at an item, and how many policies it has then: facts for the proof.
    fn bounds(&self, item: &UpItem)
        requires { policies_of self.now < 2 ^ 24 }
        ensures few { length (hosting self.now item.now).sent < 2 ^ 32 }
        ensures policies { CountsPolicies item.now (policies_of self.now) (policies_of (hosting self.now item.now).state) }
    {
        parts_of_all(self.apps.as_slice());
        a_learning_controller_sends_few();
        a_firewall_sends_few();
        a_routing_controller_sends_few();
    }

    /// Greets a switch, and asks what it can do. After want of memory some of it may have been sent.
    fn greet(&self, s: u16, out: &mut Outbox) -> Result<(), AllocError>
        ensures sent { OnOk result (out.new ≡ out.old ++ (greeting s self.now).sent) }
        ensures unsent { OnErr result (Extends out.old out.new) }
    {
        let mut own = Outbox::new(self.alloc);
        own.send(s, Message::hello(0))?;
        own.send(s, Message::features_request(0))?;
        self.numbers.send(own.into_list(), out)
    }

    /// Sends what the applications send at an item. After want of memory some of it may have been sent.
    fn send_theirs(&self, item: &UpItem, out: &mut Outbox) -> Result<(), AllocError>
        requires { IsValidUpItem item.now }
        ensures sent { OnOk result (out.new ≡ out.old ++ (telling self.now item.now).sent) }
        ensures unsent { OnErr result (Extends out.old out.new) }
    {
        let mut own = Outbox::new(self.alloc);
        send_all(self.apps.as_slice(), item, &mut own)?;
        self.numbers.send(own.into_list(), out)
    }

    /// Sends what answers an item, and changes nothing of itself. After want of memory some of it may have been sent.
    fn answer(&self, item: &UpItem, out: &mut Outbox) -> Result<(), AllocError>
        requires { IsValidUpItem item.now }
        ensures sent { OnOk result (out.new ≡ out.old ++ (hosting self.now item.now).sent) }
        ensures unsent { OnErr result (Extends out.old out.new) }
    {
        match item {
            UpItem::FromSwitch(s, Message::Hello { .. }) => self.greet(*s, out),
            UpItem::FromSwitch(s, Message::EchoRequest { xid, content }) => {
                echo(*s, *xid, content, out)
            }
            UpItem::FromSwitch(
                _,
                Message::FeaturesReply { .. }
                | Message::PacketIn { .. }
                | Message::PortStatus { .. },
            ) => self.send_theirs(item, out),
            UpItem::FromSwitch(..) => Ok(()),
            UpItem::Gone(_) | UpItem::Policy(_) => self.send_theirs(item, out),
        }
    }

    /// It has greeted a switch by these messages.
    fn count_greeting(&mut self, s: u16, sent: &[(u16, Message)])
        requires { sent.now ≡ (greeting s self.old).sent }
        ensures { self.new ≡ (greeting s self.old).state }
    {
        self.numbers = self.numbers.after(sent);
    }

    /// Tells each application of an item, where these are all messages that they send at it. After want of memory all is as it
    /// was.
    fn tell(&mut self, item: &UpItem, sent: &[(u16, Message)]) -> Result<(), AllocError>
        requires item { IsValidUpItem item.now }
        requires sent { sent.now ≡ (telling self.old item.now).sent }
        ensures state { OnOk result (self.new ≡ (telling self.old item.now).state) }
        ensures err { OnErr result (self.new ≡ self.old) }
    {
        hear_all(self.apps.as_mut_slice(), item)?;
        self.numbers = self.numbers.after(sent);
        Ok(())
    }
}

impl Controller for Host {
    ghost use Rattle.controller_host.specs.Hosting.{hosting, policies_of, starting};

    ghost react = { hosting };

    ghost start = { starting };

    ghost policies = { policies_of };

    fn fresh(&self) -> Result<Host, AllocError> {
        let apps = fresh_all(self.alloc, self.apps.as_slice())?;
        Ok(Host {
            apps,
            numbers: FIRST,
            alloc: self.alloc,
        })
    }

    fn send(&self, item: &UpItem, out: &mut Outbox) -> Result<(), AllocError> {
        self.bounds(item);
        let before = out.list().len();
        match self.answer(item, out) {
            Ok(()) => Ok(()),
            Err(error) => {
                out.truncate(before);
                Err(error)
            }
        }
    }

    fn hear(&mut self, item: &UpItem, sent: &[(u16, Message)]) -> Result<(), AllocError> {
        self.bounds(item);
        match item {
            UpItem::FromSwitch(s, Message::Hello { .. }) => {
                self.count_greeting(*s, sent);
                Ok(())
            }
            UpItem::FromSwitch(
                _,
                Message::FeaturesReply { .. }
                | Message::PacketIn { .. }
                | Message::PortStatus { .. },
            ) => self.tell(item, sent),
            UpItem::FromSwitch(..) => Ok(()),
            UpItem::Gone(_) | UpItem::Policy(_) => self.tell(item, sent),
        }
    }

    fn copy(&self) -> Result<Host, AllocError> {
        let apps = copy_all(self.alloc, self.apps.as_slice())?;
        Ok(Host {
            apps,
            numbers: self.numbers,
            alloc: self.alloc,
        })
    }
}

/// Answers an ECHO_REQUEST.
fn echo(s: u16, xid: u32, content: &Bytes, out: &mut Outbox) -> Result<(), AllocError>
    requires { IsValidMessage (EchoRequest xid content.now) }
    ensures ok { OnOk result (out.new ≡ out.old ++ (s, EchoReply xid content.now) ∷ []) }
    ensures err { OnErr result (out.new ≡ out.old) }
{
    lengths_of_messages();
    out.send(s, Message::echo_reply(xid, content.copy()?))
}
