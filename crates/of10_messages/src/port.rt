//! The description of a port.

ghost use Rattle.listed.specs.Plain.{plain};

use listed::{Listed, Plain};

/// A port, after OpenFlow 1.0.0 section 5.2.1 (`ofp_phy_port`).
#[derive(Clone, Copy, Debug, PartialEq, Eq)]
pub struct PortDesc {
    pub port_no: u16,
    /// The port's Ethernet address, 48 bits.
    pub hw_addr: u64,
    /// Text, by convention ended by a zero, which nothing tests.
    pub name: [u8; 16],
    /// Bits of `ofp_port_config`.
    pub config: u32,
    /// Bits of `ofp_port_state`: [`OFPPS_LINK_DOWN`](crate::OFPPS_LINK_DOWN) where the link is down.
    pub state: u32,
    /// Bits of `ofp_port_features`: what the port does now, what it announces, what it can, what its peer announces.
    pub curr: u32,
    pub advertised: u32,
    pub supported: u32,
    pub peer: u32,
}

/// Ports in the order in which a switch lists them.
pub type PortDescs = Listed<PortDesc>;

impl Plain for PortDesc {
    fn same(&self, other: &Self) -> bool {
        *self == *other
    }

    ghost clones = { Prim.search plain };
}
