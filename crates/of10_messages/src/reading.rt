//! Messages from their bytes.

ghost use Rattle.std.specs.Prelude.{◌≡◌, ◌+◌, ◌-◌, ◌*◌, ◌/◌, ◌≤◌, ◌≢◌, Some, None, IfOk, IfErr, length, take, drop};
ghost use Rattle.of10_messages.specs.declared.bad.BadMessage.TheVariants.{OutOfMemory};
ghost use Rattle.of10_messages.specs.Reading.{Reads, action_of, actions_of, features_of, message_of, message_of_kind, port_of, ports_of};
ghost use Rattle.of10_messages.specs.Refusal.{IsAccepted, IsGoodAction, first_bad, out_actions, refusal_of};
ghost use Rattle.of10_messages.specs.Valid.{IsValidMessage};
ghost use Rattle.of10_messages.specs.declared.message.Message.TheVariants.{PacketOut};
ghost use Rattle.byteorder.specs.Endian.{big_from};

use crate::action::{Action, Actions10};
use crate::bad::BadMessage;
use crate::kinds::*;
use crate::laws::{bytes_hold_valid_messages, no_refusal_is_want_of_memory};
use crate::message::{Features, FlowMod, Message};
use crate::parts::{copy_at, match_at};
use crate::port::{PortDesc, PortDescs};
use crate::refusals::refusal;
use listed::Listed;
use std::alloc::{AllocError, Global};
use wire_bytes::{front_of, rest_at, u16_at, u32_at, u48_at, u64_at};

/// The action at the start of some bytes.
#[tactic(auto, unfolding(crate::specs::Reading::action_of))]
pub fn read_action(alloc: Global, bytes: &[u8]) -> Result<Action, AllocError>
    requires { IsGoodAction bytes.now }
    ensures { IfOk result (λ a. a ≡ action_of bytes.now) }
{
    let length = usize::from(u16_at(bytes, 2));
    Ok(match u16_at(bytes, 0) {
        OFPAT_OUTPUT => Action::Output {
            port: u16_at(bytes, 4),
            max_len: u16_at(bytes, 6),
        },
        OFPAT_SET_VLAN_VID => Action::SetVlanVid(u16_at(bytes, 4)),
        OFPAT_SET_VLAN_PCP => Action::SetVlanPcp(bytes[4]),
        OFPAT_STRIP_VLAN => Action::StripVlan,
        OFPAT_SET_DL_SRC => Action::SetDlSrc(u48_at(bytes, 4)),
        OFPAT_SET_DL_DST => Action::SetDlDst(u48_at(bytes, 4)),
        OFPAT_SET_NW_SRC => Action::SetNwSrc(u32_at(bytes, 4)),
        OFPAT_SET_NW_DST => Action::SetNwDst(u32_at(bytes, 4)),
        OFPAT_SET_NW_TOS => Action::SetNwTos(bytes[4]),
        OFPAT_SET_TP_SRC => Action::SetTpSrc(u16_at(bytes, 4)),
        OFPAT_SET_TP_DST => Action::SetTpDst(u16_at(bytes, 4)),
        kind => Action::Other {
            kind,
            body: copy_at(alloc, front_of(bytes, length), 4)?,
        },
    })
}

/// The actions that stand one after the other.
fn actions_of(alloc: Global, bytes: &[u8]) -> Result<Actions10, AllocError>
    requires { first_bad bytes.now ≡ None }
    ensures { IfOk result (λ actions. actions ≡ actions_of bytes.now) }
{
    // no action has fewer than 8 bytes
    let mut actions = Listed::of(Vec::with_capacity(alloc, bytes.len() / 8)?);
    let mut at = 0;
    while at < bytes.len() {
        let rest = rest_at(bytes, at);
        actions.push(read_action(alloc, rest)?)?;
        at += usize::from(u16_at(rest, 2));
    }
    Ok(actions)
}

/// The port at the start of some bytes.
#[tactic(auto, unfolding(crate::specs::Reading::port_of))]
fn port_of(bytes: &[u8]) -> PortDesc
    requires { 48 ≤ length bytes.now }
    ensures { result ≡ port_of bytes.now }
{
    let mut name = [0; 16];
    name.copy_from_slice(front_of(rest_at(bytes, 8), 16));
    PortDesc {
        port_no: u16_at(bytes, 0),
        hw_addr: u48_at(bytes, 2),
        name,
        config: u32_at(bytes, 24),
        state: u32_at(bytes, 28),
        curr: u32_at(bytes, 32),
        advertised: u32_at(bytes, 36),
        supported: u32_at(bytes, 40),
        peer: u32_at(bytes, 44),
    }
}

/// So many ports, one after the other.
fn ports_of(alloc: Global, count: usize, bytes: &[u8]) -> Result<PortDescs, AllocError>
    requires { 48 * count ≤ length bytes.now }
    ensures { IfOk result (λ ports. ports ≡ ports_of count bytes.now) }
{
    let mut ports = Listed::new(alloc);
    for at in 0..count {
        ports.push(port_of(rest_at(bytes, 48 * at)))?;
    }
    Ok(ports)
}

/// What a FEATURES_REPLY says.
#[tactic(auto, unfolding(crate::specs::Reading::features_of))]
fn features_of(alloc: Global, bytes: &[u8]) -> Result<Features, AllocError>
    requires { 32 ≤ length bytes.now }
    ensures { IfOk result (λ features. features ≡ features_of bytes.now) }
{
    Ok(Features {
        datapath_id: u64_at(bytes, 8),
        n_buffers: u32_at(bytes, 16),
        n_tables: bytes[20],
        capabilities: u32_at(bytes, 24),
        actions: u32_at(bytes, 28),
        ports: ports_of(alloc, (bytes.len() - 32) / 48, rest_at(bytes, 32))?,
    })
}

/// The FLOW_MOD of bytes whose actions are not bad.
#[tactic(auto, unfolding(crate::specs::Reading::flow_mod_of))]
fn flow_mod(alloc: Global, xid: u32, bytes: &[u8]) -> Result<Message, BadMessage>
    requires header { 72 ≤ length bytes.now }
    requires actions { first_bad (drop 72 bytes.now) ≡ None }
    ensures ok { IfOk result (λ m. m ≡ message_of_kind 14 xid bytes.now) }
    ensures err { IfErr result (λ e. e ≡ OutOfMemory) }
{
    let actions = actions_of(alloc, rest_at(bytes, 72))?;
    Ok(Message::FlowMod {
        xid,
        mods: FlowMod {
            matches: match_at(bytes, 8),
            cookie: u64_at(bytes, 48),
            command: u16_at(bytes, 56),
            idle_timeout: u16_at(bytes, 58),
            hard_timeout: u16_at(bytes, 60),
            priority: u16_at(bytes, 62),
            buffer_id: u32_at(bytes, 64),
            out_port: u16_at(bytes, 68),
            flags: u16_at(bytes, 70),
            actions,
        },
    })
}

/// The message of bytes that are not refused.
#[tactic(auto, unfolding(crate::specs::Reading::message_of))]
fn message_of(alloc: Global, bytes: &[u8]) -> Result<Message, BadMessage>
    requires { IsAccepted bytes.now }
    ensures ok { IfOk result (λ m. m ≡ message_of bytes.now) }
    ensures err { IfErr result (λ e. e ≡ OutOfMemory) }
{
    let xid = u32_at(bytes, 4);
    match bytes[1] {
        OFPT_HELLO => Ok(Message::Hello { xid }),
        OFPT_ERROR => error(alloc, xid, bytes),
        OFPT_ECHO_REQUEST => Ok(Message::EchoRequest {
            xid,
            content: copy_at(alloc, bytes, 8)?,
        }),
        OFPT_ECHO_REPLY => Ok(Message::EchoReply {
            xid,
            content: copy_at(alloc, bytes, 8)?,
        }),
        OFPT_FEATURES_REQUEST => Ok(Message::FeaturesRequest { xid }),
        OFPT_FEATURES_REPLY => Ok(Message::FeaturesReply {
            xid,
            features: features_of(alloc, bytes)?,
        }),
        OFPT_GET_CONFIG_REQUEST => Ok(Message::GetConfigRequest { xid }),
        OFPT_GET_CONFIG_REPLY => Ok(get_config_reply(xid, bytes)),
        OFPT_SET_CONFIG => Ok(set_config(xid, bytes)),
        OFPT_PACKET_IN => packet_in(alloc, xid, bytes),
        OFPT_FLOW_REMOVED => Ok(flow_removed(xid, bytes)),
        OFPT_PORT_STATUS => Ok(port_status(xid, bytes)),
        OFPT_PACKET_OUT => packet_out(alloc, xid, bytes),
        OFPT_FLOW_MOD => flow_mod(alloc, xid, bytes),
        OFPT_BARRIER_REQUEST => Ok(Message::BarrierRequest { xid }),
        OFPT_BARRIER_REPLY => Ok(Message::BarrierReply { xid }),
        kind => Ok(Message::Other {
            xid,
            kind,
            body: copy_at(alloc, bytes, 8)?,
        }),
    }
}

fn error(alloc: Global, xid: u32, bytes: &[u8]) -> Result<Message, BadMessage>
    requires { 12 ≤ length bytes.now }
    ensures ok { IfOk result (λ m. m ≡ message_of_kind 1 xid bytes.now) }
    ensures err { IfErr result (λ e. e ≡ OutOfMemory) }
{
    Ok(Message::Error {
        xid,
        kind: u16_at(bytes, 8),
        code: u16_at(bytes, 10),
        content: copy_at(alloc, bytes, 12)?,
    })
}

fn get_config_reply(xid: u32, bytes: &[u8]) -> Message
    requires { 12 ≤ length bytes.now }
    ensures { result ≡ message_of_kind 8 xid bytes.now }
{
    Message::GetConfigReply {
        xid,
        flags: u16_at(bytes, 8),
        miss_send_len: u16_at(bytes, 10),
    }
}

fn set_config(xid: u32, bytes: &[u8]) -> Message
    requires { 12 ≤ length bytes.now }
    ensures { result ≡ message_of_kind 9 xid bytes.now }
{
    Message::SetConfig {
        xid,
        flags: u16_at(bytes, 8),
        miss_send_len: u16_at(bytes, 10),
    }
}

fn packet_in(alloc: Global, xid: u32, bytes: &[u8]) -> Result<Message, BadMessage>
    requires { 18 ≤ length bytes.now }
    ensures ok { IfOk result (λ m. m ≡ message_of_kind 10 xid bytes.now) }
    ensures err { IfErr result (λ e. e ≡ OutOfMemory) }
{
    Ok(Message::PacketIn {
        xid,
        buffer_id: u32_at(bytes, 8),
        total_len: u16_at(bytes, 12),
        in_port: u16_at(bytes, 14),
        reason: bytes[16],
        content: copy_at(alloc, bytes, 18)?,
    })
}

fn flow_removed(xid: u32, bytes: &[u8]) -> Message
    requires { 88 ≤ length bytes.now }
    ensures { result ≡ message_of_kind 11 xid bytes.now }
{
    Message::FlowRemoved {
        xid,
        matches: match_at(bytes, 8),
        cookie: u64_at(bytes, 48),
        priority: u16_at(bytes, 56),
        reason: bytes[58],
        duration_sec: u32_at(bytes, 60),
        duration_nsec: u32_at(bytes, 64),
        idle_timeout: u16_at(bytes, 68),
        packet_count: u64_at(bytes, 72),
        byte_count: u64_at(bytes, 80),
    }
}

fn port_status(xid: u32, bytes: &[u8]) -> Message
    requires { 64 ≤ length bytes.now }
    ensures { result ≡ message_of_kind 12 xid bytes.now }
{
    Message::PortStatus {
        xid,
        reason: bytes[8],
        port: port_of(rest_at(bytes, 16)),
    }
}

/// The PACKET_OUT of bytes whose actions are not bad.
fn packet_out(alloc: Global, xid: u32, bytes: &[u8]) -> Result<Message, BadMessage>
    requires header { 16 ≤ length bytes.now }
    requires room { 16 + big_from 14 2 bytes.now ≤ length bytes.now }
    requires actions { first_bad (out_actions bytes.now) ≡ None }
    ensures ok { IfOk result (λ m. m ≡ PacketOut xid (big_from 8 4 bytes.now) (big_from 12 2 bytes.now) (big_from 14 2 bytes.now)
        (actions_of (out_actions bytes.now)) (drop (big_from 14 2 bytes.now) (drop 16 bytes.now))) }
    ensures err { IfErr result (λ e. e ≡ OutOfMemory) }
{
    let actions_len = u16_at(bytes, 14);
    let len = usize::from(actions_len);
    let rest = rest_at(bytes, 16);
    Ok(Message::PacketOut {
        xid,
        buffer_id: u32_at(bytes, 8),
        in_port: u16_at(bytes, 12),
        actions_len,
        actions: actions_of(alloc, front_of(rest, len))?,
        content: copy_at(alloc, rest, len)?,
    })
}

/// The message of the bytes: OpenFlow 1.0.0 section 5. Padding, the body of a HELLO, and the values and bits of a match
/// that are not compared are dropped. The reasons of a refusal are tried in the order of [`BadMessage`], and before memory is
/// asked for.
#[tactic(auto, using(crate::proofs::Accepted::accepted))]
pub fn decode(alloc: Global, bytes: &[u8]) -> Result<Message, BadMessage>
    ensures ok { IfOk result (λ m. Reads bytes.now m) }
    ensures valid { IfOk result (λ m. IsValidMessage m) }
    ensures refused { IfErr result (λ e. e ≢ OutOfMemory → refusal_of bytes.now ≡ Some e) }
    ensures memory { IfErr result (λ e. e ≡ OutOfMemory → refusal_of bytes.now ≡ None) }
{
    // A law does nothing at run time: its clause is a fact for the proof.
    no_refusal_is_want_of_memory();
    if let Some(bad) = refusal(bytes) {
        return Err(bad);
    }
    bytes_hold_valid_messages();
    message_of(alloc, bytes)
}
