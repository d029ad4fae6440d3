//! The numbers that a host gives to messages.
ghost use Rattle.std.specs.Prelude.{◌≡◌, ◌++◌, ℕ, List, if◌then◌else◌, OnOk, OnErr};
ghost use Rattle.app_messages.specs.Extending.{Extends};
ghost use Rattle.controller_api.specs.Reaction.{AreValidMessages};
ghost use Rattle.controller_host.specs.Numbering.{adds, cookie_after, cookie_past, next_cookie, next_xid, numbered, with_cookie, with_numbers, xid_past};
ghost use Rattle.of10_messages.specs.Valid.{IsValidMessage};
ghost use Rattle.of10_messages.specs.declared.message.Message.{Message as MessageValue};

use controller_api::{Outbox, SentMessages};
use of10_messages::laws::lengths_of_messages;
use of10_messages::{Message, OFPFC_ADD};
use std::alloc::AllocError;

/// The next xid and the next cookie.
#[derive(Clone, Copy, Debug)]
pub(crate) struct Numbers {
    pub(crate) xid: u32,
    pub(crate) cookie: u64,
}

impl Numbers {
    /// Gives a message its numbers.
    pub(crate) fn give(&mut self, message: Message) -> Message
        requires { IsValidMessage message }
        ensures value { result ≡ with_numbers self.old.xid self.old.cookie message }
        ensures valid { IsValidMessage result }
        ensures xid { self.new.xid ≡ next_xid self.old.xid }
        ensures cookie { self.new.cookie ≡ cookie_after self.old.cookie message }
    {
        let Numbers { xid, cookie } = *self;
        let added = adds(&message);
        self.pass(added);
        let numbered = message.with_xid(xid);
        if added {
            return with_cookie(numbered, cookie);
        }
        numbered
    }

    /// A message has its numbers; the next one gets others.
    fn pass(&mut self, added: bool)
        ensures xid { self.new.xid ≡ next_xid self.old.xid }
        ensures cookie { self.new.cookie ≡ (if added then next_cookie self.old.cookie else self.old.cookie) }
    {
        self.xid = self.xid.wrapping_add(1);
        if added {
            self.cookie = self.cookie.wrapping_add(1);
        }
    }

    /// Sends messages in order, each with its numbers. After want of memory some of them may have been sent.
    pub(crate) fn send(self, messages: SentMessages, out: &mut Outbox) -> Result<(), AllocError>
        requires { AreValidMessages messages }
        ensures sent { OnOk result (out.new ≡ out.old ++ (numbered self.xid self.cookie messages).sent) }
        ensures unsent { OnErr result (Extends out.old out.new) }
    {
        let mut numbers = self;
        for (s, message) in messages.into_vec() {
            let numbered = numbers.give(message);
            out.send(s, numbered)?;
        }
        Ok(())
    }

    /// The numbers after messages that were sent with these and the ones after them.
    pub(crate) fn after(self, sent: &[(u16, Message)]) -> Numbers
        ensures xid { result.xid ≡ xid_past self.xid sent.now }
        ensures cookie { result.cookie ≡ cookie_past self.cookie sent.now }
        ensures own_xid { (messages : List (ℕ × MessageValue)) → sent.now ≡ (numbered self.xid self.cookie messages).sent
            → result.xid ≡ (numbered self.xid self.cookie messages).xid }
        ensures own_cookie { (messages : List (ℕ × MessageValue)) → sent.now ≡ (numbered self.xid self.cookie messages).sent
            → result.cookie ≡ (numbered self.xid self.cookie messages).cookie }
    {
        let mut numbers = self;
        for one in sent {
            numbers.pass(adds(&one.1));
        }
        numbers
    }
}

/// Whether a message adds an entry.
fn adds(message: &Message) -> bool
    ensures { result ≡ adds message.now }
{
    match message {
        Message::FlowMod { mods, .. } => mods.command == OFPFC_ADD,
        _ => false,
    }
}

/// A FLOW_MOD with another cookie.
fn with_cookie(message: Message, cookie: u64) -> Message
    requires { IsValidMessage message }
    ensures value { result ≡ with_cookie cookie message }
    ensures valid { IsValidMessage result }
{
    lengths_of_messages();
    match message {
        Message::FlowMod { xid, mods } => Message::FlowMod {
            xid,
            mods: mods.with_cookie(cookie),
        },
        other => other,
    }
}
