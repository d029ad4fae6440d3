//! The types and codes of errors that OpenFlow 1.0.0 names.

/// `ofp_error_type`, section 5.4.4: the versions do not fit.
pub const OFPET_HELLO_FAILED: u16 = 0;

/// The request was not understood.
pub const OFPET_BAD_REQUEST: u16 = 1;

/// An action was not understood.
pub const OFPET_BAD_ACTION: u16 = 2;

/// The flow table could not be changed.
pub const OFPET_FLOW_MOD_FAILED: u16 = 3;

/// A port could not be changed.
pub const OFPET_PORT_MOD_FAILED: u16 = 4;

/// A queue could not be used.
pub const OFPET_QUEUE_OP_FAILED: u16 = 5;

/// `ofp_bad_request_code`, section 5.4.4: the codes of `OFPET_BAD_REQUEST`.
pub const OFPBRC_BAD_VERSION: u16 = 0;

pub const OFPBRC_BAD_TYPE: u16 = 1;

pub const OFPBRC_BAD_STAT: u16 = 2;

pub const OFPBRC_BAD_VENDOR: u16 = 3;

pub const OFPBRC_BAD_SUBTYPE: u16 = 4;

pub const OFPBRC_EPERM: u16 = 5;

pub const OFPBRC_BAD_LEN: u16 = 6;

pub const OFPBRC_BUFFER_EMPTY: u16 = 7;

pub const OFPBRC_BUFFER_UNKNOWN: u16 = 8;

/// `ofp_bad_action_code`, section 5.4.4: the codes of `OFPET_BAD_ACTION`.
pub const OFPBAC_BAD_TYPE: u16 = 0;

pub const OFPBAC_BAD_LEN: u16 = 1;

pub const OFPBAC_BAD_VENDOR: u16 = 2;

pub const OFPBAC_BAD_VENDOR_TYPE: u16 = 3;

pub const OFPBAC_BAD_OUT_PORT: u16 = 4;

pub const OFPBAC_BAD_ARGUMENT: u16 = 5;

pub const OFPBAC_EPERM: u16 = 6;

pub const OFPBAC_TOO_MANY: u16 = 7;

pub const OFPBAC_BAD_QUEUE: u16 = 8;

/// `ofp_flow_mod_failed_code`, section 5.4.4: the codes of `OFPET_FLOW_MOD_FAILED`.
pub const OFPFMFC_ALL_TABLES_FULL: u16 = 0;

pub const OFPFMFC_OVERLAP: u16 = 1;

pub const OFPFMFC_EPERM: u16 = 2;

pub const OFPFMFC_BAD_EMERG_TIMEOUT: u16 = 3;

pub const OFPFMFC_BAD_COMMAND: u16 = 4;

pub const OFPFMFC_UNSUPPORTED: u16 = 5;
