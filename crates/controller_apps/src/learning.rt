//! A learning switch: it sends a packet to the port at which its destination was seen, and to all ports where it was not.
ghost use Rattle.std.specs.Prelude.{◌≡◌, ◌≤◌, ◌++◌, length, true, false, IsOk, OnOk, OnErr};
ghost use Rattle.app_messages.specs.Extending.{Extends};
ghost use Rattle.app_messages.specs.Sent.{header_of};
ghost use Rattle.controller_api.specs.Reaction.{IsValidUpItem};
ghost use Rattle.controller_apps.specs.Learning.{Learner, at_packet, is_packet, known_before, learning, learnt, port_of, unlearnt};

use crate::known::KnownPorts;
use app_messages::{Seen, add};
use controller_api::{Controller, Outbox, UpItem};
use of10_match::OFPP_FLOOD;
use of10_messages::{Action, Message, one_action};
use std::alloc::{AllocError, Global};
use std::marker::Model;

/// The priority of the entries that it adds.
const PRIORITY: u16 = 32_768;

/// A learning switch's application. Contracts see after how many idle seconds its entries go, and the ports that it knows.
#[derive(Debug, Drop)]
pub struct Learning {
    idle: u16,
    known: KnownPorts,
    alloc: Global,
}

impl Model for Learning {
    ghost use Rattle.controller_apps.specs.Learning.{Learner, learner_code};

    ghost Value = { Learner };

    ghost coded = { learner_code };

    ghost view = { λ l. record { idle = l.idle; known = l.known } };
}

impl Learning {
    /// One that knows no address. Its entries go after `idle` seconds without a packet, or never where that is 0. It takes no
    /// memory.
    pub fn new(alloc: Global, idle: u16) -> Learning
        ensures { result ≡ unlearnt idle }
    {
        Learning {
            idle,
            known: KnownPorts::new(alloc),
            alloc,
        }
    }

    /// After how many idle seconds its entries go.
    pub fn idle(&self) -> u16
        ensures { result ≡ self.now.idle }
    {
        self.idle
    }

    /// Sends what answers a packet. After want of memory some of it may have been sent.
    fn answer(&self, s: u16, seen: &Seen<'_>, out: &mut Outbox) -> Result<(), AllocError>
        ensures ok { OnOk result (out.new ≡ out.old ++ (at_packet s (record { in_port = seen.now.in_port; content = seen.now.content.now }) self.now).sent) }
        ensures err { OnErr result (Extends out.old out.new) }
    {
        match self.way_of(s, seen) {
            None => out.send(s, seen.sent_on(self.alloc, OFPP_FLOOD)?),
            Some(port) if port == seen.in_port => Ok(()),
            Some(port) => {
                let actions = one_action(self.alloc, Action::output(port))?;
                out.send(s, add(seen.exact_match(), PRIORITY, self.idle, actions))?;
                out.send(s, seen.sent_on(self.alloc, port)?)
            }
        }
    }

    /// The port of the packet's destination, once its source is learnt.
    fn way_of(&self, s: u16, seen: &Seen<'_>) -> Option<u16>
        ensures { result ≡ port_of (learnt s (record { in_port = seen.now.in_port; content = seen.now.content.now }) self.now) s (header_of (record { in_port = seen.now.in_port; content = seen.now.content.now })).dl_dst }
    {
        let header = seen.header();
        if header.dl_dst == header.dl_src {
            return Some(seen.in_port);
        }
        self.known.port(s, header.dl_dst)
    }

    /// Learns where the source of a packet is. After want of memory nothing was learnt.
    fn learn(&mut self, s: u16, seen: &Seen<'_>) -> Result<(), AllocError>
        ensures state { OnOk result (self.new ≡ learnt s (record { in_port = seen.now.in_port; content = seen.now.content.now }) self.old) }
        ensures err { OnErr result (self.new ≡ self.old) }
    {
        self.known
            .learn(self.alloc, s, seen.header().dl_src, seen.in_port)
    }

    /// Sends what answers an item, and changes nothing of itself. After want of memory some of it may have been sent.
    pub fn send(&self, item: &UpItem, out: &mut Outbox) -> Result<(), AllocError>
        requires { IsValidUpItem item.now }
        ensures sent { OnOk result (out.new ≡ out.old ++ (learning self.now item.now).sent) }
        ensures unsent { OnErr result (Extends out.old out.new) }
    {
        let UpItem::FromSwitch(s, message) = item else {
            return Ok(());
        };
        if let Message::FeaturesReply { .. } = message {
            return Ok(());
        }
        match Seen::of(message) {
            Some(seen) => self.answer(*s, &seen, out),
            None => Ok(()),
        }
    }

    /// Comes to the state after an item. After want of memory it is as it was; only a packet that came up can want any.
    pub fn hear(&mut self, item: &UpItem) -> Result<(), AllocError>
        ensures state { OnOk result (self.new ≡ (learning self.old item.now).state) }
        ensures err { OnErr result (self.new ≡ self.old) }
        ensures sure { is_packet item.now ≡ false → IsOk result }
    {
        let UpItem::FromSwitch(s, message) = item else {
            return Ok(());
        };
        if let Message::FeaturesReply { .. } = message {
            self.known.forget(*s);
            return Ok(());
        }
        match Seen::of(message) {
            Some(seen) => self.learn(*s, &seen),
            None => Ok(()),
        }
    }

    /// What is known of the address that an item teaches, for `undo`: `None` where nothing is known at the switch.
    pub fn known_before(&self, item: &UpItem) -> Option<Option<u16>>
        ensures { result ≡ known_before self.now item.now }
    {
        let UpItem::FromSwitch(s, message) = item else {
            return None;
        };
        let seen = Seen::of(message)?;
        self.known.entry(*s, seen.header().dl_src)
    }

    /// Goes back to the state before a packet that it heard last, with what was known before. It takes no memory.
    pub fn undo(&mut self, item: &UpItem, before: Option<Option<u16>>)
        ensures { (learner : Learner) → is_packet item.now ≡ true → self.old ≡ (learning learner item.now).state
            → before ≡ known_before learner item.now → self.new ≡ learner }
    {
        let UpItem::FromSwitch(s, message) = item else {
            return;
        };
        if let Some(seen) = Seen::of(message) {
            self.known.put_back(*s, seen.header().dl_src, before);
        }
    }
}

impl Controller for Learning {
    ghost react = { learning };

    ghost start = { λ learner. unlearnt learner.idle };

    ghost policies = { λ learner. 0 };

    fn fresh(&self) -> Result<Learning, AllocError> {
        Ok(Learning::new(self.alloc, self.idle))
    }

    fn send(&self, item: &UpItem, out: &mut Outbox) -> Result<(), AllocError> {
        let before = out.list().len();
        match Learning::send(self, item, out) {
            Ok(()) => Ok(()),
            Err(error) => {
                out.truncate(before);
                Err(error)
            }
        }
    }

    fn hear(&mut self, item: &UpItem, _sent: &[(u16, Message)]) -> Result<(), AllocError> {
        Learning::hear(self, item)
    }

    fn copy(&self) -> Result<Learning, AllocError> {
        let known = self.known.copy()?;
        Ok(Learning {
            idle: self.idle,
            known,
            alloc: self.alloc,
        })
    }
}
