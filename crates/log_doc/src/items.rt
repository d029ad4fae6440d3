//! The bytes of items.
ghost use Rattle.std.specs.Prelude.{◌≡◌, ◌<◌, IfOk, IfSome, is_none};
ghost use Rattle.of10_messages.specs.Refusal.{refusal_of};
ghost use Rattle.message_pools.specs.Item.{IsValidItem};
ghost use Rattle.log_doc.specs.Items.{item_in, message_in, news_in, notice_in, packet_in, policy_in};

use message_pools::Item;
use of10_match::{Match, Packet};
use of10_messages::{BadMessage, Notice, decode};
use std::alloc::{AllocError, Global};
use wire_bytes::{u16_at, u32_at, u64_at};

/// The kinds of pools, by what they hold.
#[derive(Clone, Copy)]
pub(crate) enum ItemKind {
    Message,
    Packet,
    Notice,
    /// What a controller hears of a switch.
    News,
    Policy,
}

/// The item that bytes are in a pool of a kind, if they are of that kind.
pub(crate) fn item_in(
    alloc: Global,
    kind: ItemKind,
    bytes: &[u8],
) -> Result<Option<Item>, AllocError>
    ensures item { IfOk result (λ item. item ≡ item_in kind bytes.now) }
    ensures valid { IfOk result (λ item. IfSome item IsValidItem) }
{
    match kind {
        ItemKind::Message => message_in(alloc, bytes),
        ItemKind::Packet => Ok(packet_in(bytes)),
        ItemKind::Notice => Ok(notice_in(bytes)),
        ItemKind::News => news_in(alloc, bytes),
        ItemKind::Policy => Ok(policy_in(bytes)),
    }
}

fn message_in(alloc: Global, bytes: &[u8]) -> Result<Option<Item>, AllocError>
    ensures item { IfOk result (λ item. item ≡ message_in bytes.now) }
    ensures valid { IfOk result (λ item. IfSome item IsValidItem) }
{
    match decode(alloc, bytes) {
        Ok(message) => Ok(Some(Item::Message(message))),
        Err(BadMessage::OutOfMemory) => Err(AllocError),
        Err(_) => Ok(None),
    }
}

fn news_in(alloc: Global, bytes: &[u8]) -> Result<Option<Item>, AllocError>
    ensures item { IfOk result (λ item. item ≡ news_in bytes.now) }
    ensures valid { IfOk result (λ item. IfSome item IsValidItem) }
{
    if bytes.is_empty() {
        return Ok(Some(Item::Gone));
    }
    message_in(alloc, bytes)
}

fn packet_in(bytes: &[u8]) -> Option<Item>
    ensures item { result ≡ packet_in bytes.now }
    ensures valid { IfSome result IsValidItem }
{
    if bytes.len() != 36 {
        return None;
    }
    let mut record = [0; 36];
    record.copy_from_slice(bytes);
    Some(Item::Packet(Packet::from_record(&record)))
}

fn policy_in(bytes: &[u8]) -> Option<Item>
    ensures item { result ≡ policy_in bytes.now }
    ensures valid { IfSome result IsValidItem }
{
    if bytes.len() != 40 {
        return None;
    }
    let mut wire = [0; 40];
    wire.copy_from_slice(bytes);
    Some(Item::Policy(Match::from_wire(&wire)))
}

fn notice_in(bytes: &[u8]) -> Option<Item>
    ensures item { result ≡ notice_in bytes.now }
    ensures valid { IfSome result IsValidItem }
{
    if bytes.len() == 5 && bytes[0] == 0 {
        return Some(Item::Notice(Notice::Tick(u32_at(bytes, 1))));
    }
    if bytes.len() == 4 && bytes[0] == 1 && bytes[3] <= 1 {
        return Some(Item::Notice(Notice::Port {
            port: u16_at(bytes, 1),
            down: bytes[3] == 1,
        }));
    }
    if bytes.len() == 9 && bytes[0] == 2 {
        return Some(Item::Notice(Notice::Join {
            down: u64_at(bytes, 1),
        }));
    }
    None
}
