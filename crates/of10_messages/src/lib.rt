//! OpenFlow 1.0.0: the messages between switches and controllers, and their bytes in both directions.
#![tactic(auto)]

mod about;
mod action;
mod bad;
mod build;
pub mod errors;
mod extents;
mod kinds;
pub mod laws;
mod lengths;
mod message;
mod notice;
mod parts;
mod pinned;
mod port;
mod reading;
mod refusals;
mod show;
mod valid;
mod values;
mod writing;

pub use action::{Action, Actions10, Bytes};
pub use bad::BadMessage;
pub use build::{no_actions, one_action};
pub use kinds::{
    OFP_VERSION, OFPAT_ENQUEUE, OFPAT_OUTPUT, OFPAT_SET_DL_DST, OFPAT_SET_DL_SRC, OFPAT_SET_NW_DST,
    OFPAT_SET_NW_SRC, OFPAT_SET_NW_TOS, OFPAT_SET_TP_DST, OFPAT_SET_TP_SRC, OFPAT_SET_VLAN_PCP,
    OFPAT_SET_VLAN_VID, OFPAT_STRIP_VLAN, OFPAT_VENDOR, OFPT_BARRIER_REPLY, OFPT_BARRIER_REQUEST,
    OFPT_ECHO_REPLY, OFPT_ECHO_REQUEST, OFPT_ERROR, OFPT_FEATURES_REPLY, OFPT_FEATURES_REQUEST,
    OFPT_FLOW_MOD, OFPT_FLOW_REMOVED, OFPT_GET_CONFIG_REPLY, OFPT_GET_CONFIG_REQUEST, OFPT_HELLO,
    OFPT_PACKET_IN, OFPT_PACKET_OUT, OFPT_PORT_MOD, OFPT_PORT_STATUS, OFPT_QUEUE_GET_CONFIG_REPLY,
    OFPT_QUEUE_GET_CONFIG_REQUEST, OFPT_SET_CONFIG, OFPT_STATS_REPLY, OFPT_STATS_REQUEST,
    OFPT_VENDOR,
};
pub use lengths::{actions_len, encoded_len};
pub use listed::{Listed, Plain};
pub use message::{Features, FlowMod, Message};
pub use notice::Notice;
pub use port::{PortDesc, PortDescs};
pub use reading::{decode, read_action};
pub use refusals::refusal;
pub use values::{
    OFP_NO_BUFFER, OFPFC_ADD, OFPFC_DELETE, OFPFC_DELETE_STRICT, OFPFC_MODIFY, OFPFC_MODIFY_STRICT,
    OFPFF_CHECK_OVERLAP, OFPFF_EMERG, OFPFF_SEND_FLOW_REM, OFPPR_ADD, OFPPR_DELETE, OFPPR_MODIFY,
    OFPPS_LINK_DOWN, OFPR_ACTION, OFPR_NO_MATCH, OFPRR_DELETE, OFPRR_HARD_TIMEOUT,
    OFPRR_IDLE_TIMEOUT,
};
pub use writing::encode;

#[cfg(test)]
mod tests;
