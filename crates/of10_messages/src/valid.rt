//! Whether messages and their parts are valid: exact tests, none of which takes memory. A number that is read and not used
//! tells the proof that it fits its type.

ghost use Rattle.std.specs.Prelude.{◌≡◌, ◌↔◌, ◌<◌, ◌^◌, All, IsTrue, length};
ghost use Rattle.of10_messages.specs.Valid.{HasValidBody, IsOtherAction, IsOtherKind, IsValidAction, IsValidFeatures, IsValidFlowMod, IsValidMessage, IsValidPort};
ghost use Rattle.of10_messages.specs.Wire.{actions_bytes, message_xid};

use crate::action::Action;
use crate::kinds::*;
use crate::lengths::{actions_len, encoded_len};
use crate::message::{Features, FlowMod, Message};
use crate::parts::bytes_are_bytes;
use crate::port::PortDesc;

impl Action {
    /// Whether each field lies within its width: the types see to all but Ethernet addresses, and the length of an action
    /// that is kept as it is.
    pub fn is_valid(&self) -> bool
        ensures { IsTrue result ↔ IsValidAction self.now }
    {
        match self {
            Action::SetDlSrc(address) | Action::SetDlDst(address) => *address < 1 << 48,
            Action::Other { kind, body } => is_other_action(*kind, body.as_slice()),
            Action::Output { port, max_len } => {
                let _fit = (*port, *max_len);
                true
            }
            Action::SetVlanVid(number) | Action::SetTpSrc(number) | Action::SetTpDst(number) => {
                let _fits = *number;
                true
            }
            Action::SetNwSrc(address) | Action::SetNwDst(address) => {
                let _fits = *address;
                true
            }
            Action::SetVlanPcp(number) | Action::SetNwTos(number) => {
                let _fits = *number;
                true
            }
            Action::StripVlan => true,
        }
    }
}

impl PortDesc {
    /// Whether each field lies within its width: the types see to all but the Ethernet address.
    pub fn is_valid(&self) -> bool
        ensures { IsTrue result ↔ IsValidPort self.now }
    {
        let _port_no = self.port_no;
        let _config = self.config;
        let _state = self.state;
        let _curr = self.curr;
        let _advertised = self.advertised;
        let _supported = self.supported;
        let _peer = self.peer;
        bytes_are_bytes(&self.name);
        self.hw_addr < 1 << 48
    }
}

impl Features {
    /// Whether each port is valid: the types see to the other fields.
    pub fn is_valid(&self) -> bool
        ensures { IsTrue result ↔ IsValidFeatures self.now }
    {
        let _datapath_id = self.datapath_id;
        let _n_buffers = self.n_buffers;
        let _n_tables = self.n_tables;
        let _capabilities = self.capabilities;
        let _actions = self.actions;
        are_ports(self.ports.as_slice())
    }
}

impl FlowMod {
    /// Whether the match and each action is valid: the types see to the other fields.
    pub fn is_valid(&self) -> bool
        ensures { IsTrue result ↔ IsValidFlowMod self.now }
    {
        let _cookie = self.cookie;
        let _command = self.command;
        let _idle_timeout = self.idle_timeout;
        let _hard_timeout = self.hard_timeout;
        let _priority = self.priority;
        let _buffer_id = self.buffer_id;
        let _out_port = self.out_port;
        let _flags = self.flags;
        self.matches.is_valid() & are_actions(self.actions.as_slice())
    }
}

impl Message {
    /// Whether the message has an encoding that is read as it: its fields are valid, and its length fits the header.
    pub fn is_valid(&self) -> bool
        ensures { IsTrue result ↔ IsValidMessage self.now }
    {
        let _xid = self.xid();
        has_valid_body(self) && encoded_len(self) < 1 << 16
    }
}

/// Whether an action whose body is kept as it is has another type than those with fields, and a length that it may have.
fn is_other_action(kind: u16, body: &[u8]) -> bool
    ensures { IsTrue result ↔ IsOtherAction kind body.now }
{
    bytes_are_bytes(body);
    kind > OFPAT_SET_TP_DST && body.len() % 8 == 4 && (kind != OFPAT_ENQUEUE || body.len() == 12)
}

fn are_actions(actions: &[Action]) -> bool
    ensures { IsTrue result ↔ All IsValidAction actions.now }
{
    actions.iter().all(|action| action.is_valid())
}

fn are_ports(ports: &[PortDesc]) -> bool
    ensures { IsTrue result ↔ All IsValidPort ports.now }
{
    ports.iter().all(|port| port.is_valid())
}

/// Whether the bodies of messages of a type are kept as they are.
fn is_other_kind(kind: u8) -> bool
    ensures { IsTrue result ↔ IsOtherKind kind }
{
    kind == OFPT_VENDOR
        || (OFPT_PORT_MOD..=OFPT_STATS_REPLY).contains(&kind)
        || (OFPT_QUEUE_GET_CONFIG_REQUEST..=OFPT_QUEUE_GET_CONFIG_REPLY).contains(&kind)
}

/// Whether a PACKET_OUT tells the length of its actions.
fn is_length(told: u16, actions: &[Action]) -> bool
    ensures { IsTrue result ↔ (told ≡ length (actions_bytes actions.now)) }
{
    u64::from(told) == actions_len(actions)
}

/// Whether the fields after the xid are valid.
fn has_valid_body(message: &Message) -> bool
    ensures { IsTrue result ↔ HasValidBody message.now }
{
    match message {
        Message::Hello { .. }
        | Message::FeaturesRequest { .. }
        | Message::GetConfigRequest { .. }
        | Message::BarrierRequest { .. }
        | Message::BarrierReply { .. } => true,
        Message::Error {
            kind,
            code,
            content,
            ..
        } => {
            let _fit = (*kind, *code);
            bytes_are_bytes(content.as_slice());
            true
        }
        Message::EchoRequest { content, .. } | Message::EchoReply { content, .. } => {
            bytes_are_bytes(content.as_slice());
            true
        }
        Message::FeaturesReply { features, .. } => features.is_valid(),
        Message::GetConfigReply {
            flags,
            miss_send_len,
            ..
        }
        | Message::SetConfig {
            flags,
            miss_send_len,
            ..
        } => {
            let _fit = (*flags, *miss_send_len);
            true
        }
        Message::PacketIn {
            buffer_id,
            total_len,
            in_port,
            reason,
            content,
            ..
        } => {
            let _fit = (*buffer_id, *total_len, *in_port, *reason);
            bytes_are_bytes(content.as_slice());
            true
        }
        Message::FlowRemoved {
            matches,
            cookie,
            priority,
            reason,
            duration_sec,
            duration_nsec,
            idle_timeout,
            packet_count,
            byte_count,
            ..
        } => {
            let _fit = (
                *cookie,
                *priority,
                *reason,
                *duration_sec,
                *duration_nsec,
                *idle_timeout,
                *packet_count,
                *byte_count,
            );
            matches.is_valid()
        }
        Message::PortStatus { reason, port, .. } => {
            let _fits = *reason;
            port.is_valid()
        }
        Message::PacketOut {
            buffer_id,
            in_port,
            actions_len,
            actions,
            content,
            ..
        } => {
            let _fit = (*buffer_id, *in_port);
            bytes_are_bytes(content.as_slice());
            let told = is_length(*actions_len, actions.as_slice());
            told & are_actions(actions.as_slice())
        }
        Message::FlowMod { mods, .. } => mods.is_valid(),
        Message::Other { kind, body, .. } => {
            bytes_are_bytes(body.as_slice());
            is_other_kind(*kind)
        }
    }
}

#[cfg(test)]
mod tests {
    use super::*;
    use crate::action::Bytes;
    use crate::values::OFP_NO_BUFFER;
    use listed::Listed;
    use of10_match::{Match, OFPP_NONE};
    use std::alloc::Global;
    use std::test::Fail;

    const TOO_MUCH: u64 = 1 << 48;

    fn zeros(alloc: Global, count: usize) -> Result<Bytes, Fail> {
        Ok(Listed::of(vec![in alloc; 0u8; count]?))
    }

    #[test]
    fn actions(rt: HostRuntime) -> Result<(), Fail> {
        let alloc = rt.alloc();
        assert!(rt; Action::StripVlan.is_valid() && Action::SetDlSrc(TOO_MUCH - 1).is_valid());
        assert!(rt; !Action::SetDlDst(TOO_MUCH).is_valid());
        for (kind, count, valid) in [
            (OFPAT_ENQUEUE, 12usize, true),
            (OFPAT_ENQUEUE, 4, false),
            (OFPAT_VENDOR, 4, true),
            (OFPAT_VENDOR, 5, false),
            (OFPAT_SET_TP_DST, 4, false),
        ] {
            let action = Action::Other {
                kind,
                body: zeros(alloc, count)?,
            };
            assert_eq!(rt; action.is_valid(), valid, "{count} bytes of type {kind}");
        }
        Ok(())
    }

    #[test]
    fn messages(rt: HostRuntime) -> Result<(), Fail> {
        let alloc = rt.alloc();
        for (kind, valid) in [(OFPT_PORT_MOD, true), (OFPT_HELLO, false)] {
            let message = Message::Other {
                xid: 1,
                kind,
                body: zeros(alloc, 2)?,
            };
            assert_eq!(rt; message.is_valid(), valid, "type {kind}");
        }
        for (actions_len, valid) in [(8u16, true), (0, false)] {
            let message = Message::PacketOut {
                xid: 1,
                buffer_id: OFP_NO_BUFFER,
                in_port: OFPP_NONE,
                actions_len,
                actions: Listed::of(vec![in alloc; Action::StripVlan]?),
                content: zeros(alloc, 2)?,
            };
            assert_eq!(rt; message.is_valid(), valid, "{actions_len} bytes of actions");
        }
        Ok(())
    }

    #[test]
    fn addresses(rt: HostRuntime) -> Result<(), Fail> {
        let alloc = rt.alloc();
        for (address, valid) in [(TOO_MUCH - 1, true), (TOO_MUCH, false)] {
            let port = PortDesc {
                port_no: 1,
                hw_addr: address,
                name: [0; 16],
                config: 0,
                state: 0,
                curr: 0,
                advertised: 0,
                supported: 0,
                peer: 0,
            };
            let features = Features {
                datapath_id: 1,
                n_buffers: 0,
                n_tables: 1,
                capabilities: 0,
                actions: 0,
                ports: Listed::of(vec![in alloc; port]?),
            };
            let mods = FlowMod {
                matches: Match {
                    dl_src: Some(address),
                    ..Match::any()
                },
                cookie: 0,
                command: 0,
                idle_timeout: 0,
                hard_timeout: 0,
                priority: 0,
                buffer_id: OFP_NO_BUFFER,
                out_port: OFPP_NONE,
                flags: 0,
                actions: Listed::new(alloc),
            };
            assert_eq!(rt; port.is_valid(), valid);
            assert_eq!(rt; features.is_valid(), valid);
            assert_eq!(rt; mods.is_valid(), valid);
        }
        Ok(())
    }
}
