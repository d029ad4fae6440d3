//! Messages as bytes.

ghost use Rattle.std.specs.Prelude.{◌≡◌, ◌+◌, ◌∷◌, ◌<◌, ◌^◌, ◌++◌, [], All, length, replicate, IfOk, OnOk};
ghost use Rattle.std.specs.List.{flat_map};
ghost use Rattle.byteorder.specs.Endian.{big_bytes};
ghost use Rattle.of10_messages.specs.Valid.{HasValidBody, IsValidAction, IsValidFeatures, IsValidFlowMod, IsValidMessage, IsValidPort};
ghost use Rattle.of10_messages.specs.Wire.{action_body, action_bytes, actions_bytes, body_bytes, canon_bytes, features_bytes, features_fields, flow_mod_bytes, flow_mod_fields, port_bytes, port_head, port_tail, removal_fields};
ghost use Rattle.of10_match.specs.Match.{IsValidMatch};
ghost use Rattle.of10_match.specs.Wire.{match_bytes};

use crate::action::Action;
use crate::kinds::*;
use crate::lengths::encoded_len;
use crate::message::{Features, FlowMod, Message};
use crate::port::PortDesc;
use byteorder::{BigEndian, ByteOrder};
use of10_match::Match;
use std::alloc::{AllocError, Global};

fn put_u16(out: &mut Vec<u8>, number: u16) -> Result<(), AllocError>
    ensures { OnOk result (out.new.items ≡ out.old.items ++ big_bytes 2 number) }
{
    let mut bytes = [0; 2];
    BigEndian::write_u16(&mut bytes, number);
    out.extend_from_slice(&bytes)
}

fn put_u32(out: &mut Vec<u8>, number: u32) -> Result<(), AllocError>
    ensures { OnOk result (out.new.items ≡ out.old.items ++ big_bytes 4 number) }
{
    let mut bytes = [0; 4];
    BigEndian::write_u32(&mut bytes, number);
    out.extend_from_slice(&bytes)
}

fn put_u48(out: &mut Vec<u8>, number: u64) -> Result<(), AllocError>
    requires { number < 2 ^ 48 }
    ensures { OnOk result (out.new.items ≡ out.old.items ++ big_bytes 6 number) }
{
    let mut bytes = [0; 6];
    BigEndian::write_u48(&mut bytes, number);
    out.extend_from_slice(&bytes)
}

fn put_match(out: &mut Vec<u8>, matches: &Match) -> Result<(), AllocError>
    requires { IsValidMatch matches.now }
    ensures { OnOk result (out.new.items ≡ out.old.items ++ match_bytes matches.now) }
{
    let bytes = matches.to_wire();
    out.extend_from_slice(&bytes)
}

/// Adds the type and the length of an action, whose body has so many bytes.
fn put_action_header(out: &mut Vec<u8>, kind: u16, body_len: usize) -> Result<(), AllocError>
    requires { 4 + body_len < 2 ^ 16 }
    ensures { OnOk result (out.new.items ≡ out.old.items ++ (big_bytes 2 kind ++ big_bytes 2 (4 + body_len))) }
{
    put_u16(out, kind)?;
    put_u16(out, (4 + body_len) as u16)
}

fn put_address_action(out: &mut Vec<u8>, kind: u16, address: u64) -> Result<(), AllocError>
    requires { address < 2 ^ 48 }
    ensures { OnOk result (out.new.items
        ≡ out.old.items ++ (big_bytes 2 kind ++ (big_bytes 2 16 ++ (big_bytes 6 address ++ replicate 6 0)))) }
{
    put_action_header(out, kind, 12)?;
    put_u48(out, address)?;
    out.extend_from_slice(&[0; 6])
}

/// Adds an action with a number of two bytes and two bytes after it.
fn put_short_action(out: &mut Vec<u8>, kind: u16, number: u16, after: u16) -> Result<(), AllocError>
    ensures { OnOk result (out.new.items
        ≡ out.old.items ++ (big_bytes 2 kind ++ (big_bytes 2 8 ++ (big_bytes 2 number ++ big_bytes 2 after)))) }
{
    put_action_header(out, kind, 4)?;
    put_u16(out, number)?;
    put_u16(out, after)
}

fn put_byte_action(out: &mut Vec<u8>, kind: u16, number: u8) -> Result<(), AllocError>
    ensures { OnOk result (out.new.items
        ≡ out.old.items ++ (big_bytes 2 kind ++ (big_bytes 2 8 ++ (number ∷ replicate 3 0)))) }
{
    put_action_header(out, kind, 4)?;
    out.push(number)?;
    out.extend_from_slice(&[0; 3])
}

/// Adds an action with a number of four bytes.
fn put_word_action(out: &mut Vec<u8>, kind: u16, word: u32) -> Result<(), AllocError>
    ensures { OnOk result (out.new.items
        ≡ out.old.items ++ (big_bytes 2 kind ++ (big_bytes 2 8 ++ big_bytes 4 word))) }
{
    put_action_header(out, kind, 4)?;
    put_u32(out, word)
}

#[tactic(auto, unfolding(crate::specs::Wire::action_bytes))]
fn put_action(out: &mut Vec<u8>, action: &Action) -> Result<(), AllocError>
    requires valid { IsValidAction action.now }
    requires fits { length (action_bytes action.now) < 2 ^ 16 }
    ensures { OnOk result (out.new.items ≡ out.old.items ++ action_bytes action.now) }
{
    match action {
        Action::Output { port, max_len } => put_short_action(out, OFPAT_OUTPUT, *port, *max_len),
        Action::SetVlanVid(vlan) => put_short_action(out, OFPAT_SET_VLAN_VID, *vlan, 0),
        Action::SetVlanPcp(pcp) => put_byte_action(out, OFPAT_SET_VLAN_PCP, *pcp),
        Action::StripVlan => put_word_action(out, OFPAT_STRIP_VLAN, 0),
        Action::SetDlSrc(address) => put_address_action(out, OFPAT_SET_DL_SRC, *address),
        Action::SetDlDst(address) => put_address_action(out, OFPAT_SET_DL_DST, *address),
        Action::SetNwSrc(address) => put_word_action(out, OFPAT_SET_NW_SRC, *address),
        Action::SetNwDst(address) => put_word_action(out, OFPAT_SET_NW_DST, *address),
        Action::SetNwTos(tos) => put_byte_action(out, OFPAT_SET_NW_TOS, *tos),
        Action::SetTpSrc(port) => put_short_action(out, OFPAT_SET_TP_SRC, *port, 0),
        Action::SetTpDst(port) => put_short_action(out, OFPAT_SET_TP_DST, *port, 0),
        Action::Other { kind, body } => {
            put_action_header(out, *kind, body.len())?;
            out.extend_from_slice(body.as_slice())
        }
    }
}

fn put_actions(out: &mut Vec<u8>, actions: &[Action]) -> Result<(), AllocError>
    requires valid { All IsValidAction actions.now }
    requires fits { length (actions_bytes actions.now) < 2 ^ 16 }
    ensures { OnOk result (out.new.items ≡ out.old.items ++ actions_bytes actions.now) }
{
    for action in actions {
        put_action(out, action)?;
    }
    Ok(())
}

/// The number and the address of a port.
#[tactic(auto, unfolding(crate::specs::Wire::port_head))]
fn port_head(port: &PortDesc) -> [u8; 8]
    requires { IsValidPort port.now }
    ensures { result ≡ port_head port.now }
{
    let mut bytes = [0; 8];
    BigEndian::write_u16(&mut bytes[0..2], port.port_no);
    BigEndian::write_u48(&mut bytes[2..8], port.hw_addr);
    bytes
}

/// What follows the name of a port.
#[tactic(auto, unfolding(crate::specs::Wire::port_tail))]
fn port_tail(port: &PortDesc) -> [u8; 24]
    ensures { result ≡ port_tail port.now }
{
    let mut bytes = [0; 24];
    BigEndian::write_u32(&mut bytes[0..4], port.config);
    BigEndian::write_u32(&mut bytes[4..8], port.state);
    BigEndian::write_u32(&mut bytes[8..12], port.curr);
    BigEndian::write_u32(&mut bytes[12..16], port.advertised);
    BigEndian::write_u32(&mut bytes[16..20], port.supported);
    BigEndian::write_u32(&mut bytes[20..24], port.peer);
    bytes
}

#[tactic(auto, unfolding(crate::specs::Wire::port_bytes))]
fn put_port(out: &mut Vec<u8>, port: &PortDesc) -> Result<(), AllocError>
    requires { IsValidPort port.now }
    ensures { OnOk result (out.new.items ≡ out.old.items ++ port_bytes port.now) }
{
    let head = port_head(port);
    let tail = port_tail(port);
    out.extend_from_slice(&head)?;
    out.extend_from_slice(&port.name)?;
    out.extend_from_slice(&tail)?;
    Ok(())
}

fn put_ports(out: &mut Vec<u8>, ports: &[PortDesc]) -> Result<(), AllocError>
    requires { All IsValidPort ports.now }
    ensures { OnOk result (out.new.items ≡ out.old.items ++ flat_map port_bytes ports.now) }
{
    for port in ports {
        put_port(out, port)?;
    }
    Ok(())
}

/// The fields of a FEATURES_REPLY up to its ports.
#[tactic(auto, unfolding(crate::specs::Wire::features_fields))]
fn features_fields(features: &Features) -> [u8; 24]
    ensures { result ≡ features_fields features.now }
{
    let mut bytes = [0; 24];
    BigEndian::write_u64(&mut bytes[0..8], features.datapath_id);
    BigEndian::write_u32(&mut bytes[8..12], features.n_buffers);
    bytes[12] = features.n_tables;
    BigEndian::write_u32(&mut bytes[16..20], features.capabilities);
    BigEndian::write_u32(&mut bytes[20..24], features.actions);
    bytes
}

#[tactic(auto, unfolding(crate::specs::Wire::features_bytes))]
fn put_features(out: &mut Vec<u8>, features: &Features) -> Result<(), AllocError>
    requires { IsValidFeatures features.now }
    ensures { OnOk result (out.new.items ≡ out.old.items ++ features_bytes features.now) }
{
    let fields = features_fields(features);
    out.extend_from_slice(&fields)?;
    put_ports(out, features.ports.as_slice())?;
    Ok(())
}

/// The fields of a FLOW_MOD from its match up to its actions.
#[tactic(auto, unfolding(crate::specs::Wire::flow_mod_fields))]
fn flow_mod_fields(mods: &FlowMod) -> [u8; 24]
    ensures { result ≡ flow_mod_fields mods.now }
{
    let mut bytes = [0; 24];
    BigEndian::write_u64(&mut bytes[0..8], mods.cookie);
    BigEndian::write_u16(&mut bytes[8..10], mods.command);
    BigEndian::write_u16(&mut bytes[10..12], mods.idle_timeout);
    BigEndian::write_u16(&mut bytes[12..14], mods.hard_timeout);
    BigEndian::write_u16(&mut bytes[14..16], mods.priority);
    BigEndian::write_u32(&mut bytes[16..20], mods.buffer_id);
    BigEndian::write_u16(&mut bytes[20..22], mods.out_port);
    BigEndian::write_u16(&mut bytes[22..24], mods.flags);
    bytes
}

#[tactic(auto, unfolding(crate::specs::Wire::flow_mod_bytes))]
fn put_flow_mod(out: &mut Vec<u8>, mods: &FlowMod) -> Result<(), AllocError>
    requires valid { IsValidFlowMod mods.now }
    requires fits { length (actions_bytes mods.now.actions) < 2 ^ 16 }
    ensures { OnOk result (out.new.items ≡ out.old.items ++ flow_mod_bytes mods.now) }
{
    let fields = flow_mod_fields(mods);
    put_match(out, &mods.matches)?;
    out.extend_from_slice(&fields)?;
    put_actions(out, mods.actions.as_slice())?;
    Ok(())
}

/// The fields of a FLOW_REMOVED after its match.
#[tactic(auto, unfolding(crate::specs::Wire::removal_fields))]
fn removal_fields(
    cookie: u64,
    priority: u16,
    reason: u8,
    duration_sec: u32,
    duration_nsec: u32,
    idle_timeout: u16,
    packet_count: u64,
    byte_count: u64,
) -> [u8; 40]
    ensures { result ≡ removal_fields cookie priority reason duration_sec duration_nsec idle_timeout packet_count byte_count }
{
    let mut bytes = [0; 40];
    BigEndian::write_u64(&mut bytes[0..8], cookie);
    BigEndian::write_u16(&mut bytes[8..10], priority);
    bytes[10] = reason;
    BigEndian::write_u32(&mut bytes[12..16], duration_sec);
    BigEndian::write_u32(&mut bytes[16..20], duration_nsec);
    BigEndian::write_u16(&mut bytes[20..22], idle_timeout);
    BigEndian::write_u64(&mut bytes[24..32], packet_count);
    BigEndian::write_u64(&mut bytes[32..40], byte_count);
    bytes
}

/// Adds what follows the header of a message.
fn put_body(out: &mut Vec<u8>, message: &Message) -> Result<(), AllocError>
    requires valid { HasValidBody message.now }
    requires fits { length (body_bytes message.now) < 2 ^ 16 }
    ensures { OnOk result (out.new.items ≡ out.old.items ++ body_bytes message.now) }
{
    match message {
        Message::Hello { .. }
        | Message::FeaturesRequest { .. }
        | Message::GetConfigRequest { .. }
        | Message::BarrierRequest { .. }
        | Message::BarrierReply { .. } => Ok(()),
        Message::Error {
            kind,
            code,
            content,
            ..
        } => {
            put_u16(out, *kind)?;
            put_u16(out, *code)?;
            out.extend_from_slice(content.as_slice())
        }
        Message::EchoRequest { content, .. } | Message::EchoReply { content, .. } => {
            out.extend_from_slice(content.as_slice())
        }
        Message::FeaturesReply { features, .. } => put_features(out, features),
        Message::GetConfigReply {
            flags,
            miss_send_len,
            ..
        }
        | Message::SetConfig {
            flags,
            miss_send_len,
            ..
        } => {
            put_u16(out, *flags)?;
            put_u16(out, *miss_send_len)
        }
        Message::PacketIn {
            buffer_id,
            total_len,
            in_port,
            reason,
            content,
            ..
        } => {
            put_u32(out, *buffer_id)?;
            put_u16(out, *total_len)?;
            put_u16(out, *in_port)?;
            out.extend_from_slice(&[*reason, 0])?;
            out.extend_from_slice(content.as_slice())
        }
        Message::FlowRemoved {
            matches,
            cookie,
            priority,
            reason,
            duration_sec,
            duration_nsec,
            idle_timeout,
            packet_count,
            byte_count,
            ..
        } => {
            let bytes = removal_fields(
                *cookie,
                *priority,
                *reason,
                *duration_sec,
                *duration_nsec,
                *idle_timeout,
                *packet_count,
                *byte_count,
            );
            put_match(out, matches)?;
            out.extend_from_slice(&bytes)?;
            Ok(())
        }
        Message::PortStatus { reason, port, .. } => {
            out.push(*reason)?;
            out.extend_from_slice(&[0; 7])?;
            put_port(out, port)
        }
        Message::PacketOut {
            buffer_id,
            in_port,
            actions_len,
            actions,
            content,
            ..
        } => {
            put_u32(out, *buffer_id)?;
            put_u16(out, *in_port)?;
            put_u16(out, *actions_len)?;
            put_actions(out, actions.as_slice())?;
            out.extend_from_slice(content.as_slice())
        }
        Message::FlowMod { mods, .. } => put_flow_mod(out, mods),
        Message::Other { body, .. } => out.extend_from_slice(body.as_slice()),
    }
}

/// The one encoding of the message: OpenFlow 1.0.0 section 5, with zeros for padding.
#[tactic(auto, unfolding(crate::specs::Wire::canon_bytes))]
pub fn encode(alloc: Global, message: &Message) -> Result<Vec<u8>, AllocError>
    requires { IsValidMessage message.now }
    ensures { IfOk result (λ v. v.items ≡ canon_bytes message.now) }
{
    let len = encoded_len(message) as u16;
    let mut out = Vec::with_capacity(alloc, usize::from(len))?;
    out.extend_from_slice(&[OFP_VERSION, message.kind()])?;
    put_u16(&mut out, len)?;
    put_u32(&mut out, message.xid())?;
    put_body(&mut out, message)?;
    Ok(out)
}
