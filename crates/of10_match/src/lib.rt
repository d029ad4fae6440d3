//! OpenFlow 1.0.0: the header of a packet, the packet, and the match of a flow entry.
#![tactic(auto)]

mod field;
mod header;
pub mod laws;
mod matches;
mod packet;
mod ports;
mod show;
mod wildcards;
mod wire;

pub use field::Prefix;
pub use header::Header;
pub use matches::Match;
pub use packet::Packet;
pub use ports::{
    OFPP_ALL, OFPP_CONTROLLER, OFPP_FLOOD, OFPP_IN_PORT, OFPP_LOCAL, OFPP_MAX, OFPP_NONE,
    OFPP_NORMAL, OFPP_TABLE,
};
pub use show::{EthernetAddress, Port};
pub use wildcards::{
    OFPFW_ALL, OFPFW_DL_DST, OFPFW_DL_SRC, OFPFW_DL_TYPE, OFPFW_DL_VLAN, OFPFW_DL_VLAN_PCP,
    OFPFW_IN_PORT, OFPFW_NW_DST_ALL, OFPFW_NW_DST_BITS, OFPFW_NW_DST_MASK, OFPFW_NW_DST_SHIFT,
    OFPFW_NW_PROTO, OFPFW_NW_SRC_ALL, OFPFW_NW_SRC_BITS, OFPFW_NW_SRC_MASK, OFPFW_NW_SRC_SHIFT,
    OFPFW_NW_TOS, OFPFW_TP_DST, OFPFW_TP_SRC,
};
