//! The numbers of OpenFlow 1.0.0: its version, and the types of messages and actions.

/// The version in a header, section 5.1.
pub const OFP_VERSION: u8 = 1;

/// `ofp_type`, section 5.1.
pub const OFPT_HELLO: u8 = 0;

pub const OFPT_ERROR: u8 = 1;

pub const OFPT_ECHO_REQUEST: u8 = 2;

pub const OFPT_ECHO_REPLY: u8 = 3;

pub const OFPT_VENDOR: u8 = 4;

pub const OFPT_FEATURES_REQUEST: u8 = 5;

pub const OFPT_FEATURES_REPLY: u8 = 6;

pub const OFPT_GET_CONFIG_REQUEST: u8 = 7;

pub const OFPT_GET_CONFIG_REPLY: u8 = 8;

pub const OFPT_SET_CONFIG: u8 = 9;

pub const OFPT_PACKET_IN: u8 = 10;

pub const OFPT_FLOW_REMOVED: u8 = 11;

pub const OFPT_PORT_STATUS: u8 = 12;

pub const OFPT_PACKET_OUT: u8 = 13;

pub const OFPT_FLOW_MOD: u8 = 14;

pub const OFPT_PORT_MOD: u8 = 15;

pub const OFPT_STATS_REQUEST: u8 = 16;

pub const OFPT_STATS_REPLY: u8 = 17;

pub const OFPT_BARRIER_REQUEST: u8 = 18;

pub const OFPT_BARRIER_REPLY: u8 = 19;

pub const OFPT_QUEUE_GET_CONFIG_REQUEST: u8 = 20;

pub const OFPT_QUEUE_GET_CONFIG_REPLY: u8 = 21;

/// `ofp_action_type`, section 5.2.4.
pub const OFPAT_OUTPUT: u16 = 0;

pub const OFPAT_SET_VLAN_VID: u16 = 1;

pub const OFPAT_SET_VLAN_PCP: u16 = 2;

pub const OFPAT_STRIP_VLAN: u16 = 3;

pub const OFPAT_SET_DL_SRC: u16 = 4;

pub const OFPAT_SET_DL_DST: u16 = 5;

pub const OFPAT_SET_NW_SRC: u16 = 6;

pub const OFPAT_SET_NW_DST: u16 = 7;

pub const OFPAT_SET_NW_TOS: u16 = 8;

pub const OFPAT_SET_TP_SRC: u16 = 9;

pub const OFPAT_SET_TP_DST: u16 = 10;

pub const OFPAT_ENQUEUE: u16 = 11;

pub const OFPAT_VENDOR: u16 = 0xffff;
