//! The bytes of items as they are written.
ghost use Rattle.std.specs.Prelude.{◌≡◌, ◌<◌, ◌^◌, ◌∷◌, ◌++◌, [], IfOk, Some};
ghost use Rattle.byteorder.specs.Endian.{big_bytes};
ghost use Rattle.message_pools.specs.Item.{IsValidItem};
ghost use Rattle.log_doc.specs.Items.{item_in};
ghost use Rattle.log_doc.specs.Written.{IsItemOf, IsNarrowItem, IsNarrowNotice, item_bytes, mark_byte, notice_bytes};
ghost use Rattle.log_doc.specs.declared.items.ItemKind.{ItemKind};

use byteorder::{BigEndian, ByteOrder};
use message_pools::Item;
use of10_match::laws::{match_reads_back, record_reads_back};
use of10_messages::laws::message_reads_back;
use of10_messages::{Notice, encode};
use std::alloc::{AllocError, Global};

/// The bytes of an item.
pub(crate) fn item_bytes(alloc: Global, item: &Item) -> Result<Vec<u8>, AllocError>
    requires { IsValidItem item.now }
    ensures { IfOk result (λ bytes. bytes.items ≡ item_bytes item.now) }
{
    match item {
        Item::Message(message) => encode(alloc, message),
        Item::Gone => Ok(Vec::new(alloc)),
        Item::Packet(packet) => packet.to_record().to_vec(alloc),
        Item::Notice(notice) => notice_bytes(alloc, *notice),
        Item::Policy(deny) => deny.to_wire().to_vec(alloc),
    }
}

fn notice_bytes(alloc: Global, notice: Notice) -> Result<Vec<u8>, AllocError>
    ensures { IfOk result (λ bytes. bytes.items ≡ notice_bytes notice) }
{
    match notice {
        Notice::Tick(seconds) => tick_bytes(alloc, seconds),
        Notice::Port { port, down } => port_bytes(alloc, port, down),
        Notice::Join { down } => join_bytes(alloc, down),
    }
}

fn tick_bytes(alloc: Global, seconds: u32) -> Result<Vec<u8>, AllocError>
    ensures { IfOk result (λ bytes. bytes.items ≡ 0 ∷ big_bytes 4 seconds) }
{
    let mut number = [0; 4];
    BigEndian::write_u32(&mut number, seconds);
    let mut bytes = Vec::with_capacity(alloc, 5)?;
    bytes.push(0)?;
    bytes.extend_from_slice(&number)?;
    Ok(bytes)
}

fn port_bytes(alloc: Global, port: u16, down: bool) -> Result<Vec<u8>, AllocError>
    ensures { IfOk result (λ bytes. bytes.items ≡ 1 ∷ (big_bytes 2 port ++ mark_byte down ∷ [])) }
{
    let mut number = [0; 2];
    BigEndian::write_u16(&mut number, port);
    let mut bytes = Vec::with_capacity(alloc, 4)?;
    bytes.push(1)?;
    bytes.extend_from_slice(&number)?;
    bytes.push(u8::from(down))?;
    Ok(bytes)
}

fn join_bytes(alloc: Global, down: u64) -> Result<Vec<u8>, AllocError>
    ensures { IfOk result (λ bytes. bytes.items ≡ 2 ∷ big_bytes 8 down) }
{
    let mut number = [0; 8];
    BigEndian::write_u64(&mut number, down);
    let mut bytes = Vec::with_capacity(alloc, 9)?;
    bytes.push(2)?;
    bytes.extend_from_slice(&number)?;
    Ok(bytes)
}

/// The bytes of an item are that item in a pool of its kind: a fact for proofs.
pub(crate) fn item_reads(item: &Item)
    requires { IsValidItem item.now }
    ensures { (pool : ItemKind) → IsItemOf pool item.now → item_in pool (item_bytes item.now) ≡ Some item.now }
{
    message_reads_back();
    record_reads_back();
    match_reads_back();
    narrow_item(item);
}

fn narrow_item(item: &Item)
    ensures { IsNarrowItem item.now }
{
    if let Item::Notice(notice) = item {
        narrow_notice(*notice);
    }
}

fn narrow_notice(notice: Notice)
    ensures { IsNarrowNotice notice }
{
    match notice {
        Notice::Tick(seconds) => narrow_seconds(seconds),
        Notice::Port { port, .. } => narrow_port(port),
        Notice::Join { down } => narrow_bits(down),
    }
}

fn narrow_seconds(seconds: u32)
    ensures { seconds < 2 ^ 32 }
{}

fn narrow_port(port: u16)
    ensures { port < 2 ^ 16 }
{}

fn narrow_bits(down: u64)
    ensures { down < 2 ^ 64 }
{}
