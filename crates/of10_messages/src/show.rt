//! Actions, FLOW_MODs and messages as text, in the manner of `ovs-ofctl`.

use crate::action::Action;
use crate::kinds::*;
use crate::message::{Features, FlowMod, Message};
use crate::port::PortDesc;
use crate::values::*;
use of10_match::{EthernetAddress, OFPP_CONTROLLER, OFPP_IN_PORT, OFPP_NONE, Port};
use std::fmt;
use std::net::Ipv4Addr;

/// A number, shown by the name that OpenFlow gives it where it has one.
#[derive(Clone, Copy)]
struct Named {
    number: u16,
    name: Option<&'static str>,
}

impl fmt::Display for Named {
    fn fmt<W: fmt::Write>(&self, f: &mut fmt::Formatter<W>) -> fmt::Result {
        match self.name {
            Some(name) => f.write_str(name),
            None => write!(f, "{}", self.number),
        }
    }
}

fn command_name(command: u16) -> Named {
    let name = match command {
        OFPFC_ADD => Some("ADD"),
        OFPFC_MODIFY => Some("MODIFY"),
        OFPFC_MODIFY_STRICT => Some("MODIFY_STRICT"),
        OFPFC_DELETE => Some("DELETE"),
        OFPFC_DELETE_STRICT => Some("DELETE_STRICT"),
        _ => None,
    };
    Named {
        number: command,
        name,
    }
}

fn packet_in_reason(reason: u8) -> Named {
    let name = match reason {
        OFPR_NO_MATCH => Some("no_match"),
        OFPR_ACTION => Some("action"),
        _ => None,
    };
    Named {
        number: u16::from(reason),
        name,
    }
}

fn flow_removed_reason(reason: u8) -> Named {
    let name = match reason {
        OFPRR_IDLE_TIMEOUT => Some("idle"),
        OFPRR_HARD_TIMEOUT => Some("hard"),
        OFPRR_DELETE => Some("delete"),
        _ => None,
    };
    Named {
        number: u16::from(reason),
        name,
    }
}

fn port_status_reason(reason: u8) -> Named {
    let name = match reason {
        OFPPR_ADD => Some("ADD"),
        OFPPR_DELETE => Some("DELETE"),
        OFPPR_MODIFY => Some("MODIFY"),
        _ => None,
    };
    Named {
        number: u16::from(reason),
        name,
    }
}

fn type_name(kind: u8) -> Named {
    let name = match kind {
        OFPT_HELLO => Some("OFPT_HELLO"),
        OFPT_ERROR => Some("OFPT_ERROR"),
        OFPT_ECHO_REQUEST => Some("OFPT_ECHO_REQUEST"),
        OFPT_ECHO_REPLY => Some("OFPT_ECHO_REPLY"),
        OFPT_VENDOR => Some("OFPT_VENDOR"),
        OFPT_FEATURES_REQUEST => Some("OFPT_FEATURES_REQUEST"),
        OFPT_FEATURES_REPLY => Some("OFPT_FEATURES_REPLY"),
        OFPT_GET_CONFIG_REQUEST => Some("OFPT_GET_CONFIG_REQUEST"),
        OFPT_GET_CONFIG_REPLY => Some("OFPT_GET_CONFIG_REPLY"),
        OFPT_SET_CONFIG => Some("OFPT_SET_CONFIG"),
        OFPT_PACKET_IN => Some("OFPT_PACKET_IN"),
        OFPT_FLOW_REMOVED => Some("OFPT_FLOW_REMOVED"),
        OFPT_PORT_STATUS => Some("OFPT_PORT_STATUS"),
        OFPT_PACKET_OUT => Some("OFPT_PACKET_OUT"),
        OFPT_FLOW_MOD => Some("OFPT_FLOW_MOD"),
        OFPT_PORT_MOD => Some("OFPT_PORT_MOD"),
        OFPT_STATS_REQUEST => Some("OFPT_STATS_REQUEST"),
        OFPT_STATS_REPLY => Some("OFPT_STATS_REPLY"),
        OFPT_BARRIER_REQUEST => Some("OFPT_BARRIER_REQUEST"),
        OFPT_BARRIER_REPLY => Some("OFPT_BARRIER_REPLY"),
        OFPT_QUEUE_GET_CONFIG_REQUEST => Some("OFPT_QUEUE_GET_CONFIG_REQUEST"),
        OFPT_QUEUE_GET_CONFIG_REPLY => Some("OFPT_QUEUE_GET_CONFIG_REPLY"),
        _ => None,
    };
    Named {
        number: u16::from(kind),
        name,
    }
}

/// A number of a packet that a switch keeps, or that it keeps none.
#[derive(Clone, Copy)]
struct Buffer(u32);

impl fmt::Display for Buffer {
    fn fmt<W: fmt::Write>(&self, f: &mut fmt::Formatter<W>) -> fmt::Result {
        match self.0 {
            OFP_NO_BUFFER => f.write_str("none"),
            number => write!(f, "{number:#x}"),
        }
    }
}

/// Ports from `OFPP_IN_PORT` on have names.
fn show_output<W: fmt::Write>(f: &mut fmt::Formatter<W>, port: u16, max_len: u16) -> fmt::Result {
    if port == OFPP_CONTROLLER {
        write!(f, "{}:{max_len}", Port(port))
    } else if port >= OFPP_IN_PORT {
        write!(f, "{}", Port(port))
    } else {
        write!(f, "output:{port}")
    }
}

impl fmt::Display for Action {
    fn fmt<W: fmt::Write>(&self, f: &mut fmt::Formatter<W>) -> fmt::Result {
        match self {
            Action::Output { port, max_len } => show_output(f, *port, *max_len),
            Action::SetVlanVid(vlan) => write!(f, "mod_vlan_vid:{vlan}"),
            Action::SetVlanPcp(pcp) => write!(f, "mod_vlan_pcp:{pcp}"),
            Action::StripVlan => f.write_str("strip_vlan"),
            Action::SetDlSrc(address) => write!(f, "mod_dl_src:{}", EthernetAddress(*address)),
            Action::SetDlDst(address) => write!(f, "mod_dl_dst:{}", EthernetAddress(*address)),
            Action::SetNwSrc(address) => write!(f, "mod_nw_src:{}", Ipv4Addr::from(*address)),
            Action::SetNwDst(address) => write!(f, "mod_nw_dst:{}", Ipv4Addr::from(*address)),
            Action::SetNwTos(tos) => write!(f, "mod_nw_tos:{tos}"),
            Action::SetTpSrc(port) => write!(f, "mod_tp_src:{port}"),
            Action::SetTpDst(port) => write!(f, "mod_tp_dst:{port}"),
            Action::Other { kind, body } => write!(f, "type {kind}, {} bytes", body.len()),
        }
    }
}

fn show_actions<W: fmt::Write>(f: &mut fmt::Formatter<W>, actions: &[Action]) -> fmt::Result {
    if actions.is_empty() {
        return f.write_str("drop");
    }
    for (at, action) in actions.iter().enumerate() {
        if at > 0 {
            f.write_str(",")?;
        }
        write!(f, "{action}")?;
    }
    Ok(())
}

impl fmt::Display for FlowMod {
    fn fmt<W: fmt::Write>(&self, f: &mut fmt::Formatter<W>) -> fmt::Result {
        write!(
            f,
            "{} {} priority={} cookie:{:#x} idle:{} hard:{}",
            command_name(self.command),
            self.matches,
            self.priority,
            self.cookie,
            self.idle_timeout,
            self.hard_timeout
        )?;
        if self.buffer_id != OFP_NO_BUFFER {
            write!(f, " buffer:{}", Buffer(self.buffer_id))?;
        }
        if self.out_port != OFPP_NONE {
            write!(f, " out_port:{}", Port(self.out_port))?;
        }
        write!(f, " flags:{:#x} actions=", self.flags)?;
        show_actions(f, self.actions.as_slice())
    }
}

/// The number, the address and the state of a port.
fn show_port<W: fmt::Write>(f: &mut fmt::Formatter<W>, port: &PortDesc) -> fmt::Result {
    write!(
        f,
        "{} addr:{} config:{:#x} state:{:#x}",
        Port(port.port_no),
        EthernetAddress(port.hw_addr),
        port.config,
        port.state
    )
}

fn show_features<W: fmt::Write>(f: &mut fmt::Formatter<W>, features: &Features) -> fmt::Result {
    write!(
        f,
        "dpid:{:016x} n_buffers:{} n_tables:{} capabilities:{:#x} actions:{:#x}",
        features.datapath_id,
        features.n_buffers,
        features.n_tables,
        features.capabilities,
        features.actions
    )?;
    for port in features.ports.as_slice() {
        f.write_str("; port ")?;
        show_port(f, port)?;
    }
    Ok(())
}

/// The fields of a message, after a colon where it has any.
fn show_fields<W: fmt::Write>(f: &mut fmt::Formatter<W>, message: &Message) -> fmt::Result {
    match message {
        Message::Hello { .. }
        | Message::FeaturesRequest { .. }
        | Message::GetConfigRequest { .. }
        | Message::BarrierRequest { .. }
        | Message::BarrierReply { .. } => Ok(()),
        Message::Error {
            kind,
            code,
            content,
            ..
        } => write!(f, ": type={kind} code={code} data_len={}", content.len()),
        Message::EchoRequest { content, .. } | Message::EchoReply { content, .. } => {
            write!(f, ": data_len={}", content.len())
        }
        Message::FeaturesReply { features, .. } => {
            f.write_str(": ")?;
            show_features(f, features)
        }
        Message::GetConfigReply {
            flags,
            miss_send_len,
            ..
        }
        | Message::SetConfig {
            flags,
            miss_send_len,
            ..
        } => write!(f, ": flags={flags:#x} miss_send_len={miss_send_len}"),
        Message::PortStatus { reason, port, .. } => {
            write!(f, ": {} port ", port_status_reason(*reason))?;
            show_port(f, port)
        }
        Message::FlowMod { mods, .. } => write!(f, ": {mods}"),
        Message::Other { body, .. } => write!(f, ": {} bytes", body.len()),
        Message::PacketIn {
            buffer_id,
            total_len,
            in_port,
            reason,
            content,
            ..
        } => write!(
            f,
            ": in_port={} reason={} buffer={} total_len={total_len} data_len={}",
            Port(*in_port),
            packet_in_reason(*reason),
            Buffer(*buffer_id),
            content.len()
        ),
        Message::FlowRemoved {
            matches,
            cookie,
            priority,
            reason,
            duration_sec,
            duration_nsec,
            idle_timeout,
            packet_count,
            byte_count,
            ..
        } => {
            write!(
                f,
                ": {matches} priority={priority} reason={} cookie:{cookie:#x} duration:{duration_sec}.{duration_nsec:09}s",
                flow_removed_reason(*reason)
            )?;
            write!(
                f,
                " idle:{idle_timeout} packets:{packet_count} bytes:{byte_count}"
            )
        }
        Message::PacketOut {
            buffer_id,
            in_port,
            actions,
            content,
            ..
        } => {
            write!(
                f,
                ": in_port={} buffer={} data_len={} actions=",
                Port(*in_port),
                Buffer(*buffer_id),
                content.len()
            )?;
            show_actions(f, actions.as_slice())
        }
    }
}

impl fmt::Display for Message {
    fn fmt<W: fmt::Write>(&self, f: &mut fmt::Formatter<W>) -> fmt::Result {
        write!(f, "{} (xid={:#x})", type_name(self.kind()), self.xid())?;
        show_fields(f, self)
    }
}
