//! The mask of an item.
ghost use Rattle.std.specs.Prelude.{◌≡◌, IfOk};
ghost use Rattle.masked_equivalence.specs.Mask.{masked, masked_message};

use listed::Plain;
use message_pools::Item;
use of10_messages::Message;
use std::alloc::{AllocError, Global};
use std::marker::Model;

/// An item that was masked. Contracts see the item that is left.
#[derive(Debug, Drop)]
pub struct Masked {
    item: Item,
}

impl Model for Masked {
    ghost use Rattle.std.specs.Prelude.{◌≡◌};
    ghost use Rattle.masked_equivalence.specs.Mask.{masked};
    ghost use Rattle.message_pools.specs.declared.item.Item.{Item};

    ghost Value = { Item };

    ghost view = { λ m. m.item };

    ghost invariant = { λ m. masked m.item ≡ m.item };
}

impl Masked {
    /// What is left of the item.
    pub fn item(&self) -> &Item
        ensures value { result.now ≡ self.now }
        ensures masked { masked result.now ≡ result.now }
    {
        &self.item
    }
}

/// The item without what may differ between two equal behaviours. The lists in it come from the allocator of the item's own.
pub fn mask(_alloc: Global, item: &Item) -> Result<Masked, AllocError>
    ensures { IfOk result (λ m. m ≡ masked item.now) }
{
    let mut copy = item.copy()?;
    if let Item::Message(message) = &mut copy {
        mask_message(message);
    }
    Ok(Masked { item: copy })
}

/// Sets to 0 what a mask hides of a message.
fn mask_message(message: &mut Message)
    ensures { message.new ≡ masked_message message.old }
{
    match message {
        Message::Hello { xid } => *xid = 0,
        Message::Error { xid, .. } => *xid = 0,
        Message::EchoRequest { xid, .. } => *xid = 0,
        Message::EchoReply { xid, .. } => *xid = 0,
        Message::FeaturesRequest { xid } => *xid = 0,
        Message::FeaturesReply { xid, .. } => *xid = 0,
        Message::GetConfigRequest { xid } => *xid = 0,
        Message::GetConfigReply { xid, .. } => *xid = 0,
        Message::SetConfig { xid, .. } => *xid = 0,
        Message::PacketIn { xid, buffer_id, .. } => {
            *xid = 0;
            *buffer_id = 0;
        }
        Message::FlowRemoved {
            xid,
            cookie,
            duration_sec,
            duration_nsec,
            packet_count,
            byte_count,
            ..
        } => {
            *xid = 0;
            *cookie = 0;
            *duration_sec = 0;
            *duration_nsec = 0;
            *packet_count = 0;
            *byte_count = 0;
        }
        Message::PortStatus { xid, .. } => *xid = 0,
        Message::PacketOut { xid, buffer_id, .. } => {
            *xid = 0;
            *buffer_id = 0;
        }
        Message::FlowMod { xid, mods } => {
            *xid = 0;
            mods.cookie = 0;
            mods.buffer_id = 0;
        }
        Message::BarrierRequest { xid } => *xid = 0,
        Message::BarrierReply { xid } => *xid = 0,
        Message::Other { xid, .. } => *xid = 0,
    }
}
