//! What a switch sends by itself. The definitions of its steps name these types.

ghost use Rattle.std.specs.Prelude.{◌≡◌, ◌≤◌, IfOk};
ghost use Rattle.flow_table.specs.Entry.{IsValidEntry};
ghost use Rattle.of10_messages.specs.Valid.{IsValidMessage};
ghost use Rattle.switch_core.specs.Leaving.{IsValidNews, told};
ghost use Rattle.switch_core.specs.declared.leaving.News.TheVariants.{Removal};

use flow_table::Entry;
use listed::Listed;
use of10_match::Packet;
use of10_messages::{Message, OFPPR_MODIFY, PortDesc, laws};
use std::alloc::{AllocError, Global};

/// What a switch tells its controller by itself.
#[derive(Debug, Drop)]
pub enum News {
    /// It has come to its controller.
    Greeting,
    /// A packet came in by a port, and is told for `OFPR_NO_MATCH` or `OFPR_ACTION`.
    Arrival {
        port: u16,
        reason: u8,
        packet: Packet,
    },
    /// An entry went at a time, for a reason of `ofp_flow_removed_reason`.
    Removal {
        entry: Entry,
        reason: u8,
        now: u32,
    },
    /// A port has changed.
    PortChange(PortDesc),
}

/// Something that a switch sends by itself.
#[derive(Debug, Drop)]
pub enum Leaving {
    /// A message of its own to the controller.
    Told(News),
    /// A packet out of a port.
    Emitted { port: u16, packet: Packet },
}

impl News {
    /// The message by which the controller is told.
    pub(crate) fn message(&self, alloc: Global, xid: u32) -> Result<Message, AllocError>
        requires { IsValidNews self.now }
        ensures message { IfOk result (λ m. m ≡ told xid self.now) }
        ensures valid { IfOk result (λ m. IsValidMessage m) }
    {
        match self {
            News::Greeting => Ok(Message::hello(xid)),
            News::Arrival {
                port,
                reason,
                packet,
            } => {
                let content = Vec::from_slice(alloc, &packet.to_record())?;
                Ok(Message::packet_in(xid, *port, *reason, Listed::of(content)))
            }
            News::Removal { entry, reason, now } => Ok(removal(xid, entry, *reason, *now)),
            News::PortChange(port) => Ok(Message::port_status(xid, OFPPR_MODIFY, *port)),
        }
    }
}

/// The FLOW_REMOVED of an entry that goes at a time.
pub(crate) fn removal(xid: u32, entry: &Entry, reason: u8, now: u32) -> Message
    requires entry { IsValidEntry entry.now }
    requires past { entry.now.added ≤ now }
    ensures message { result ≡ told xid (Removal entry.now reason now) }
    ensures valid { IsValidMessage result }
{
    laws::lengths_of_messages();
    Message::FlowRemoved {
        xid,
        matches: entry.matches,
        cookie: entry.cookie,
        priority: entry.priority,
        reason,
        duration_sec: now - entry.added,
        duration_nsec: 0,
        idle_timeout: entry.idle,
        packet_count: entry.packets,
        byte_count: entry.bytes,
    }
}
