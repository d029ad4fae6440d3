//! The messages of OpenFlow 1.0.0.

ghost use Rattle.listed.specs.Plain.{plain};

use crate::action::{Actions10, Bytes};
use crate::port::{PortDesc, PortDescs};
use listed::Plain;
use of10_match::Match;

/// A change of the flow table, after OpenFlow 1.0.0 section 5.3.3 (`ofp_flow_mod`).
#[derive(Clone, Debug, Drop)]
pub struct FlowMod {
    pub matches: Match,
    /// A number of the controller's, which the switch keeps with the entry.
    pub cookie: u64,
    /// `OFPFC_ADD` to `OFPFC_DELETE_STRICT`.
    pub command: u16,
    /// Seconds without a packet after which the entry goes, or 0 for never.
    pub idle_timeout: u16,
    /// Seconds after which the entry goes, or 0 for never.
    pub hard_timeout: u16,
    /// Of entries with wildcards the one of highest priority counts.
    pub priority: u16,
    /// A packet that the switch keeps, or `OFP_NO_BUFFER`.
    pub buffer_id: u32,
    /// The port by which a DELETE picks entries, or `OFPP_NONE` for all.
    pub out_port: u16,
    /// Bits `OFPFF_SEND_FLOW_REM`, `OFPFF_CHECK_OVERLAP`, `OFPFF_EMERG`.
    pub flags: u16,
    pub actions: Actions10,
}

impl Plain for FlowMod {
    fn same(&self, other: &Self) -> bool {
        Plain::same(&self.matches, &other.matches)
            && self.cookie == other.cookie
            && self.command == other.command
            && self.idle_timeout == other.idle_timeout
            && self.hard_timeout == other.hard_timeout
            && self.priority == other.priority
            && self.buffer_id == other.buffer_id
            && self.out_port == other.out_port
            && self.flags == other.flags
            && self.actions.same(&other.actions)
    }

    ghost clones = { Prim.search plain };
}

/// What a switch can do, after OpenFlow 1.0.0 section 5.3.1 (`ofp_switch_features`).
#[derive(Clone, Debug, Drop)]
pub struct Features {
    /// The number of the switch.
    pub datapath_id: u64,
    /// How many packets it can keep.
    pub n_buffers: u32,
    /// How many flow tables it has.
    pub n_tables: u8,
    /// Bits of `ofp_capabilities`.
    pub capabilities: u32,
    /// One bit for each type of action that the switch has.
    pub actions: u32,
    pub ports: PortDescs,
}

impl Plain for Features {
    fn same(&self, other: &Self) -> bool {
        self.datapath_id == other.datapath_id
            && self.n_buffers == other.n_buffers
            && self.n_tables == other.n_tables
            && self.capabilities == other.capabilities
            && self.actions == other.actions
            && self.ports.same(&other.ports)
    }

    ghost clones = { Prim.search plain };
}

/// A message, after OpenFlow 1.0.0 section 5. Each has an `xid`, the number by which an answer names its request.
#[derive(Clone, Debug, Drop)]
pub enum Message {
    /// Section 5.5.1. A body is read and dropped.
    Hello {
        xid: u32,
    },
    /// Section 5.4.4.
    Error {
        xid: u32,
        /// `OFPET_HELLO_FAILED` to `OFPET_QUEUE_OP_FAILED`.
        kind: u16,
        /// By the type: `OFPBRC_..` of a bad request, `OFPBAC_..` of a bad action, `OFPFMFC_..` of a FLOW_MOD.
        code: u16,
        /// At least 64 bytes of the request that failed, or all of it.
        content: Bytes,
    },
    /// Section 5.5.2.
    EchoRequest {
        xid: u32,
        content: Bytes,
    },
    /// Section 5.5.3.
    EchoReply {
        xid: u32,
        content: Bytes,
    },
    /// Section 5.3.1.
    FeaturesRequest {
        xid: u32,
    },
    /// Section 5.3.1.
    FeaturesReply {
        xid: u32,
        features: Features,
    },
    /// Section 5.3.2.
    GetConfigRequest {
        xid: u32,
    },
    /// Section 5.3.2.
    GetConfigReply {
        xid: u32,
        flags: u16,
        miss_send_len: u16,
    },
    /// Section 5.3.2.
    SetConfig {
        xid: u32,
        flags: u16,
        miss_send_len: u16,
    },
    /// Section 5.4.1.
    PacketIn {
        xid: u32,
        /// The packet where the switch keeps it, or `OFP_NO_BUFFER`.
        buffer_id: u32,
        /// The length of the whole packet, of which `content` may be a beginning.
        total_len: u16,
        in_port: u16,
        /// `OFPR_NO_MATCH` or `OFPR_ACTION`.
        reason: u8,
        content: Bytes,
    },
    /// Section 5.4.2.
    FlowRemoved {
        xid: u32,
        matches: Match,
        cookie: u64,
        priority: u16,
        /// `OFPRR_IDLE_TIMEOUT`, `OFPRR_HARD_TIMEOUT` or `OFPRR_DELETE`.
        reason: u8,
        duration_sec: u32,
        duration_nsec: u32,
        idle_timeout: u16,
        packet_count: u64,
        byte_count: u64,
    },
    /// Section 5.4.3.
    PortStatus {
        xid: u32,
        /// `OFPPR_ADD`, `OFPPR_DELETE` or `OFPPR_MODIFY`.
        reason: u8,
        port: PortDesc,
    },
    /// Section 5.3.6.
    PacketOut {
        xid: u32,
        /// A packet that the switch keeps, or `OFP_NO_BUFFER` where `content` is the packet.
        buffer_id: u32,
        in_port: u16,
        /// The length of the actions in bytes.
        actions_len: u16,
        actions: Actions10,
        content: Bytes,
    },
    /// Section 5.3.3.
    FlowMod {
        xid: u32,
        mods: FlowMod,
    },
    /// Section 5.3.7.
    BarrierRequest {
        xid: u32,
    },
    /// Section 5.3.7.
    BarrierReply {
        xid: u32,
    },
    /// A message of the types VENDOR, PORT_MOD, STATS_REQUEST, STATS_REPLY, QUEUE_GET_CONFIG_REQUEST
    /// and QUEUE_GET_CONFIG_REPLY: what stands after its header.
    Other {
        xid: u32,
        kind: u8,
        body: Bytes,
    },
}

impl Plain for Message {
    fn same(&self, other: &Self) -> bool {
        match (self, other) {
            (Message::Hello { xid }, Message::Hello { xid: other_xid }) => xid == other_xid,
            (
                Message::Error {
                    xid,
                    kind,
                    code,
                    content,
                },
                Message::Error {
                    xid: other_xid,
                    kind: other_kind,
                    code: other_code,
                    content: other_content,
                },
            ) => xid == other_xid
                && kind == other_kind
                && code == other_code
                && content.same(other_content),
            (
                Message::EchoRequest { xid, content },
                Message::EchoRequest {
                    xid: other_xid,
                    content: other_content,
                },
            ) => xid == other_xid && content.same(other_content),
            (
                Message::EchoReply { xid, content },
                Message::EchoReply {
                    xid: other_xid,
                    content: other_content,
                },
            ) => xid == other_xid && content.same(other_content),
            (Message::FeaturesRequest { xid }, Message::FeaturesRequest { xid: other_xid }) => xid
                == other_xid,
            (
                Message::FeaturesReply { xid, features },
                Message::FeaturesReply {
                    xid: other_xid,
                    features: other_features,
                },
            ) => xid == other_xid && features.same(other_features),
            (Message::GetConfigRequest { xid }, Message::GetConfigRequest { xid: other_xid }) => xid
                == other_xid,
            (
                Message::GetConfigReply {
                    xid,
                    flags,
                    miss_send_len,
                },
                Message::GetConfigReply {
                    xid: other_xid,
                    flags: other_flags,
                    miss_send_len: other_miss_send_len,
                },
            ) => xid == other_xid && flags == other_flags && miss_send_len == other_miss_send_len,
            (
                Message::SetConfig {
                    xid,
                    flags,
                    miss_send_len,
                },
                Message::SetConfig {
                    xid: other_xid,
                    flags: other_flags,
                    miss_send_len: other_miss_send_len,
                },
            ) => xid == other_xid && flags == other_flags && miss_send_len == other_miss_send_len,
            (
                Message::PacketIn {
                    xid,
                    buffer_id,
                    total_len,
                    in_port,
                    reason,
                    content,
                },
                Message::PacketIn {
                    xid: other_xid,
                    buffer_id: other_buffer_id,
                    total_len: other_total_len,
                    in_port: other_in_port,
                    reason: other_reason,
                    content: other_content,
                },
            ) => xid == other_xid
                && buffer_id == other_buffer_id
                && total_len == other_total_len
                && in_port == other_in_port
                && reason == other_reason
                && content.same(other_content),
            (
                Message::FlowRemoved {
                    xid,
                    matches,
                    cookie,
                    priority,
                    reason,
                    duration_sec,
                    duration_nsec,
                    idle_timeout,
                    packet_count,
                    byte_count,
                },
                Message::FlowRemoved {
                    xid: other_xid,
                    matches: other_matches,
                    cookie: other_cookie,
                    priority: other_priority,
                    reason: other_reason,
                    duration_sec: other_duration_sec,
                    duration_nsec: other_duration_nsec,
                    idle_timeout: other_idle_timeout,
                    packet_count: other_packet_count,
                    byte_count: other_byte_count,
                },
            ) => xid == other_xid
                && Plain::same(matches, other_matches)
                && cookie == other_cookie
                && priority == other_priority
                && reason == other_reason
                && duration_sec == other_duration_sec
                && duration_nsec == other_duration_nsec
                && idle_timeout == other_idle_timeout
                && packet_count == other_packet_count
                && byte_count == other_byte_count,
            (
                Message::PortStatus { xid, reason, port },
                Message::PortStatus {
                    xid: other_xid,
                    reason: other_reason,
                    port: other_port,
                },
            ) => xid == other_xid && reason == other_reason && port.same(other_port),
            (
                Message::PacketOut {
                    xid,
                    buffer_id,
                    in_port,
                    actions_len,
                    actions,
                    content,
                },
                Message::PacketOut {
                    xid: other_xid,
                    buffer_id: other_buffer_id,
                    in_port: other_in_port,
                    actions_len: other_actions_len,
                    actions: other_actions,
                    content: other_content,
                },
            ) => xid == other_xid
                && buffer_id == other_buffer_id
                && in_port == other_in_port
                && actions_len == other_actions_len
                && actions.same(other_actions)
                && content.same(other_content),
            (
                Message::FlowMod { xid, mods },
                Message::FlowMod {
                    xid: other_xid,
                    mods: other_mods,
                },
            ) => xid == other_xid && mods.same(other_mods),
            (Message::BarrierRequest { xid }, Message::BarrierRequest { xid: other_xid }) => xid
                == other_xid,
            (Message::BarrierReply { xid }, Message::BarrierReply { xid: other_xid }) => xid
                == other_xid,
            (
                Message::Other { xid, kind, body },
                Message::Other {
                    xid: other_xid,
                    kind: other_kind,
                    body: other_body,
                },
            ) => xid == other_xid && kind == other_kind && body.same(other_body),
            _ => false,
        }
    }

    ghost clones = { Prim.search plain };
}
