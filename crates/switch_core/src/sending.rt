//! What a step sends, as it is put together.

ghost use Rattle.std.specs.Prelude.{◌≡◌, ◌+◌, ◌<◌, ◌≤◌, ◌^◌, IfOk, OnOk};
ghost use Rattle.flow_table.specs.Entry.{IsValidEntry};
ghost use Rattle.of10_messages.specs.Valid.{IsValidMessage};
ghost use Rattle.switch_core.specs.Leaving.{IsSent, IsValidLeaving, leave, nothing_sent, xid_after};
ghost use Rattle.switch_core.specs.declared.leaving.Leaving.TheVariants.{Told};
ghost use Rattle.switch_core.specs.declared.leaving.News.TheVariants.{Removal};

use crate::leaving::{Leaving, removal};
use crate::outs::{Emits, Outs};
use flow_table::Entry;
use listed::Listed;
use of10_messages::Message;
use std::alloc::{AllocError, Global};
use std::marker::Model;

/// What was sent so far. Contracts see it, and beside it the room for messages, so that one that follows a `reserve` can't
/// fail.
#[derive(Debug, Drop)]
pub(crate) struct Sending {
    up: Vec<Message>,
    out: Emits,
    next_xid: u32,
}

impl Model for Sending {
    ghost use Rattle.std.specs.Prelude.{◌-◌, vec_len, vec_capacity};
    ghost use Rattle.switch_core.specs.Leaving.{IsSent, Room};

    ghost Value = { Room };

    ghost view = { λ s. record {
      sent = record { up = s.up.items; out = s.out; next_xid = s.next_xid };
      spare = vec_capacity s.up - vec_len s.up;
    } };

    ghost invariant = { λ s. IsSent (record { up = s.up.items; out = s.out; next_xid = s.next_xid }) };
}

impl Sending {
    /// Nothing was sent yet, and the next message has this xid.
    pub(crate) fn new(alloc: Global, next_xid: u32) -> Sending
        ensures { result.sent ≡ nothing_sent next_xid }
    {
        Sending {
            up: Vec::new(alloc),
            out: Listed::new(alloc),
            next_xid,
        }
    }

    /// Makes room for `more` messages.
    pub(crate) fn reserve(&mut self, more: usize) -> Result<(), AllocError>
        ensures room { OnOk result (more ≤ self.new.spare) }
        ensures sent { self.new.sent ≡ self.old.sent }
    {
        self.up.reserve(more)
    }

    /// Sends one thing more.
    pub(crate) fn send(&mut self, alloc: Global, leaving: Leaving) -> Result<(), AllocError>
        requires { IsValidLeaving leaving }
        ensures { OnOk result (self.new.sent ≡ leave self.old.sent leaving) }
    {
        match leaving {
            Leaving::Told(news) => {
                let message = news.message(alloc, self.next_xid)?;
                self.up.push(message)?;
                self.next_xid = xid_after(self.next_xid);
            }
            Leaving::Emitted { port, packet } => self.out.push((port, packet))?,
        }
        Ok(())
    }

    /// Tells of an entry that goes at a time, where there is room for the message.
    pub(crate) fn tell_removal(&mut self, entry: Entry, reason: u8, now: u32)
        requires entry { IsValidEntry entry }
        requires past { entry.added ≤ now }
        requires room { 0 < self.old.spare }
        ensures sent { self.new.sent ≡ leave self.old.sent (Told (Removal entry reason now)) }
        ensures spare { self.old.spare ≤ self.new.spare + 1 }
    {
        let message = removal(self.next_xid, &entry, reason, now);
        self.up.push(message).unwrap();
        self.next_xid = xid_after(self.next_xid);
    }

    /// All that was sent, and the xid of the next message.
    pub(crate) fn finish(self) -> (Outs, u32)
        ensures up { result.0.up ≡ self.sent.up }
        ensures out { result.0.out ≡ self.sent.out }
        ensures next_xid { result.1 ≡ self.sent.next_xid }
        ensures valid { IsSent self.sent }
    {
        let Sending { up, out, next_xid } = self;
        let up = Listed::of(up);
        (Outs { up, out }, next_xid)
    }
}

/// The xid after one.
fn xid_after(xid: u32) -> u32
    ensures { result ≡ xid_after xid }
{
    xid.wrapping_add(1)
}
