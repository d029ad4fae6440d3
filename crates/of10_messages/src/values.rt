//! The values of fields that OpenFlow 1.0.0 names.

/// `ofp_flow_mod_command`, section 5.3.3.
pub const OFPFC_ADD: u16 = 0;

pub const OFPFC_MODIFY: u16 = 1;

pub const OFPFC_MODIFY_STRICT: u16 = 2;

pub const OFPFC_DELETE: u16 = 3;

pub const OFPFC_DELETE_STRICT: u16 = 4;

/// `ofp_flow_mod_flags`, section 5.3.3: tell the controller when the entry goes.
pub const OFPFF_SEND_FLOW_REM: u16 = 1 << 0;

/// Refuse the entry where it overlaps one of its priority.
pub const OFPFF_CHECK_OVERLAP: u16 = 1 << 1;

/// The entry is for emergencies.
pub const OFPFF_EMERG: u16 = 1 << 2;

/// `ofp_packet_in_reason`, section 5.4.1: no entry took the packet.
pub const OFPR_NO_MATCH: u8 = 0;

/// An action sent it.
pub const OFPR_ACTION: u8 = 1;

/// `ofp_flow_removed_reason`, section 5.4.2.
pub const OFPRR_IDLE_TIMEOUT: u8 = 0;

pub const OFPRR_HARD_TIMEOUT: u8 = 1;

pub const OFPRR_DELETE: u8 = 2;

/// `ofp_port_reason`, section 5.4.3.
pub const OFPPR_ADD: u8 = 0;

pub const OFPPR_DELETE: u8 = 1;

pub const OFPPR_MODIFY: u8 = 2;

/// `ofp_port_state`, section 5.2.1: no link at the port, or it is down.
pub const OFPPS_LINK_DOWN: u32 = 1 << 0;

/// The `buffer_id` that stands for no buffer, sections 5.3.3, 5.3.6 and 5.4.1.
pub const OFP_NO_BUFFER: u32 = 0xffff_ffff;
