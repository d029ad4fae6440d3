//! Whether bytes are a message, and else why not.

ghost use Rattle.std.specs.Prelude.{◌≡◌, ◌+◌, ◌-◌, ◌<◌, ◌≤◌, ◌^◌, true, false, None, length, take, drop};
ghost use Rattle.of10_messages.specs.Refusal.{IsAccepted, IsGoodAction, bad_action, bad_action_of, fixed_length, has_body, is_bad_action, kind_at_start, refusal_of};

use crate::bad::BadMessage;
use crate::extents::{Extent, extent_of};
use crate::kinds::*;
use wire_bytes::{front_of, rest_at, u16_at};

/// The length of an action by its type, up to `OFPAT_ENQUEUE`.
fn fixed_length(kind: u16) -> usize
    ensures { result ≡ fixed_length kind }
{
    if kind == OFPAT_SET_DL_SRC || kind == OFPAT_SET_DL_DST || kind == OFPAT_ENQUEUE {
        16
    } else {
        8
    }
}

/// Whether the action at the start of some bytes is bad.
#[tactic(auto, unfolding(crate::specs::Refusal::is_bad_action))]
fn is_bad_action(bytes: &[u8]) -> bool
    ensures bad { result ≡ is_bad_action bytes.now }
    ensures good { result ≡ false → IsGoodAction bytes.now }
{
    if bytes.len() < 8 {
        return true;
    }
    let kind = u16_at(bytes, 0);
    let length = usize::from(u16_at(bytes, 2));
    length < 8
        || length % 8 != 0
        || bytes.len() < length
        || (kind <= OFPAT_ENQUEUE && length != fixed_length(kind))
}

/// The type at the start of an action, or 0 where fewer than two bytes are left.
fn kind_at_start(bytes: &[u8]) -> u16
    ensures { result ≡ kind_at_start bytes.now }
{
    if bytes.len() < 2 { 0 } else { u16_at(bytes, 0) }
}

/// The refusal for the first bad action of the actions that stand at a place of a message.
fn bad_action(place: usize, bytes: &[u8]) -> Option<BadMessage>
    requires { place + length bytes.now < 2 ^ 16 }
    ensures { result ≡ bad_action place bytes.now }
{
    let mut at = 0;
    while at < bytes.len() {
        let rest = rest_at(bytes, at);
        if is_bad_action(rest) {
            return Some(BadMessage::BadAction {
                place: (place + at) as u16,
                kind: kind_at_start(rest),
            });
        }
        at += usize::from(u16_at(rest, 2));
    }
    None
}

/// The refusal for the first bad action of a message.
fn bad_action_of(bytes: &[u8]) -> Option<BadMessage>
    requires header { 8 ≤ length bytes.now }
    requires most { length bytes.now < 2 ^ 16 }
    requires body { has_body bytes.now ≡ true }
    ensures { result ≡ bad_action_of bytes.now }
{
    match bytes[1] {
        OFPT_PACKET_OUT => {
            let len = usize::from(u16_at(bytes, 14));
            bad_action(16, front_of(rest_at(bytes, 16), len))
        }
        OFPT_FLOW_MOD => bad_action(72, rest_at(bytes, 72)),
        _ => None,
    }
}

/// Whether bytes have a length of their type.
#[tactic(auto, unfolding(crate::specs::Refusal::has_body))]
fn has_body(bytes: &[u8]) -> bool
    requires { 8 ≤ length bytes.now }
    ensures { result ≡ has_body bytes.now }
{
    let kind = bytes[1];
    let least = match extent_of(kind) {
        Extent::Exactly(length) => return bytes.len() == length,
        Extent::AtLeast(length) => length,
    };
    if bytes.len() < least {
        return false;
    }
    if kind == OFPT_FEATURES_REPLY {
        (bytes.len() - 32) % 48 == 0
    } else if kind == OFPT_PACKET_OUT {
        16 + usize::from(u16_at(bytes, 14)) <= bytes.len()
    } else {
        true
    }
}

/// Why bytes are not read as a message, or `None` where they are. It takes no memory.
#[tactic(auto, unfolding(crate::specs::Refusal::refusal_of))]
pub fn refusal(bytes: &[u8]) -> Option<BadMessage>
    ensures { result ≡ refusal_of bytes.now }
{
    if bytes.len() < 8 {
        return Some(BadMessage::Short);
    }
    let version = bytes[0];
    if version != OFP_VERSION {
        return Some(BadMessage::Version(version));
    }
    let said = u16_at(bytes, 2);
    let given = bytes.len() as u64;
    if u64::from(said) != given {
        return Some(BadMessage::Length { said, given });
    }
    let kind = bytes[1];
    if kind > OFPT_QUEUE_GET_CONFIG_REPLY {
        return Some(BadMessage::Kind(kind));
    }
    if !has_body(bytes) {
        return Some(BadMessage::BodyLength { kind, length: said });
    }
    bad_action_of(bytes)
}
