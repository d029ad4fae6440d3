//! A message's bytes, and the parts that they lend.

ghost use Rattle.std.specs.Prelude.{◌≡◌, ◌≤◌, ◌+◌, ℕ, List, ◌≢◌, None, Some, IfErr, IfOk, OnOk, IfSome, IsNone, drop, length, slice_index};
ghost use Rattle.byteorder.specs.Endian.{big_from};
ghost use Rattle.of10_messages.specs.Refusal.{first_bad, out_actions, refusal_of};
ghost use Rattle.of10_messages.specs.declared.bad.BadMessage.TheVariants.{OutOfMemory};
ghost use Rattle.of10_view.specs.Parts.{actions_part, data_part, header_of, match_part};

use crate::actions::Actions;
use of10_messages::laws::{no_refusal_is_want_of_memory, what_is_not_refused};
use of10_messages::{
    BadMessage, OFPT_ECHO_REPLY, OFPT_ECHO_REQUEST, OFPT_ERROR, OFPT_FLOW_MOD, OFPT_FLOW_REMOVED,
    OFPT_PACKET_IN, OFPT_PACKET_OUT, OFPT_PORT_MOD, OFPT_QUEUE_GET_CONFIG_REPLY,
    OFPT_QUEUE_GET_CONFIG_REQUEST, OFPT_STATS_REPLY, OFPT_STATS_REQUEST, OFPT_VENDOR, refusal,
};
use wire_bytes::{front_of, rest_at, u16_at, u32_at};

/// The bytes of a message that [`decode`](of10_messages::decode) reads, borrowed. Its parts live as long as the bytes do.
#[derive(Clone, Copy, Debug)]
pub struct View<'a> {
    bytes: &'a [u8],
    ghost read: { refusal_of bytes.now ≡ None },
}

impl<'a> View<'a> {
    ghost use Rattle.of10_view.specs.Lent.{view_bytes};

    /// The view of the bytes of one message. It refuses what [`decode`](of10_messages::decode) refuses, for the same
    /// reasons in the same order, and takes no memory.
    pub fn of(bytes: &'a [u8]) -> Result<View<'a>, BadMessage>
        ensures ok { IfOk result (λ v. view_bytes v ≡ bytes.now) }
        ensures read { OnOk result (refusal_of bytes.now ≡ None) }
        ensures refused { IfErr result (λ e. refusal_of bytes.now ≡ Some e) }
        ensures no_memory { IfErr result (λ e. e ≢ OutOfMemory) }
    {
        // A law does nothing at run time: its clauses are facts for the proof.
        no_refusal_is_want_of_memory();
        match refusal(bytes) {
            Some(bad) => Err(bad),
            None => Ok(View { bytes }),
        }
    }

    /// The view of bytes that are known to be read.
    pub(crate) fn known(bytes: &'a [u8]) -> View<'a>
        requires { refusal_of bytes.now ≡ None }
        ensures { view_bytes result ≡ bytes.now }
    {
        View { bytes }
    }

    /// The type, and with it what the length allows to read.
    fn kind(&self) -> u8
        ensures kind { result ≡ slice_index (view_bytes self.now) 1 }
        ensures header { 8 ≤ length (view_bytes self.now) }
        ensures error { result ≡ 1 → 12 ≤ length (view_bytes self.now) }
        ensures packet_in { result ≡ 10 → 18 ≤ length (view_bytes self.now) }
        ensures flow_removed { result ≡ 11 → 88 ≤ length (view_bytes self.now) }
        ensures packet_out { result ≡ 13 → 16 + big_from 14 2 (view_bytes self.now) ≤ length (view_bytes self.now) }
        ensures flow_mod { result ≡ 14 → 72 ≤ length (view_bytes self.now) }
        ensures out_actions { result ≡ 13 → first_bad (out_actions (view_bytes self.now)) ≡ None }
        ensures mod_actions { result ≡ 14 → first_bad (drop 72 (view_bytes self.now)) ≡ None }
    {
        // Facts for the proof, as above.
        what_is_not_refused();
        self.bytes[1]
    }

    /// All bytes of the message.
    pub fn bytes(&self) -> &'a [u8]
        ensures bytes { result.now ≡ (view_bytes self.now) }
        ensures read { refusal_of (view_bytes self.now) ≡ None }
    {
        self.bytes
    }

    /// The type, the length in bytes and the xid.
    pub fn header(&self) -> (u8, u16, u32)
        ensures { result ≡ header_of (view_bytes self.now) }
    {
        (self.kind(), u16_at(self.bytes, 2), u32_at(self.bytes, 4))
    }

    /// The forty bytes of the match of a FLOW_REMOVED or a FLOW_MOD; `None` for every other type.
    pub fn match_bytes(&self) -> Option<&'a [u8]>
        ensures some { IfSome result (λ bytes. match_part (view_bytes self.now) ≡ Some bytes.now) }
        ensures none { IsNone result → match_part (view_bytes self.now) ≡ None }
        ensures forty { IfSome result (λ bytes. length bytes.now ≡ 40) }
    {
        match self.kind() {
            OFPT_FLOW_REMOVED | OFPT_FLOW_MOD => Some(front_of(rest_at(self.bytes, 8), 40)),
            _ => None,
        }
    }

    /// The actions of a PACKET_OUT or a FLOW_MOD; none for every other type.
    pub fn actions(&self) -> Actions<'a>
        ensures { result ≡ actions_part (view_bytes self.now) }
    {
        Actions::of(match self.kind() {
            OFPT_PACKET_OUT => {
                let len = usize::from(u16_at(self.bytes, 14));
                front_of(rest_at(self.bytes, 16), len)
            }
            OFPT_FLOW_MOD => rest_at(self.bytes, 72),
            _ => front_of(self.bytes, 0),
        })
    }

    /// The data of an ERROR, an ECHO_REQUEST, an ECHO_REPLY, a PACKET_IN or a PACKET_OUT, and the body of a type that is
    /// not decoded; empty for every other type.
    #[tactic(auto, unfolding(crate::specs::Parts::data_part))]
    pub fn data(&self) -> &'a [u8]
        ensures { result.now ≡ data_part (view_bytes self.now) }
    {
        match self.kind() {
            OFPT_ERROR => rest_at(self.bytes, 12),
            OFPT_ECHO_REQUEST | OFPT_ECHO_REPLY => rest_at(self.bytes, 8),
            OFPT_PACKET_IN => rest_at(self.bytes, 18),
            OFPT_PACKET_OUT => {
                let len = usize::from(u16_at(self.bytes, 14));
                rest_at(rest_at(self.bytes, 16), len)
            }
            OFPT_VENDOR
            | OFPT_PORT_MOD
            | OFPT_STATS_REQUEST
            | OFPT_STATS_REPLY
            | OFPT_QUEUE_GET_CONFIG_REQUEST
            | OFPT_QUEUE_GET_CONFIG_REPLY => rest_at(self.bytes, 8),
            _ => front_of(self.bytes, 0),
        }
    }
}
