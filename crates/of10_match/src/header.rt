//! The fields of a packet that a match can name.

ghost use Rattle.std.specs.Prelude.{◌≡◌, ◌↔◌, IsTrue};
ghost use Rattle.listed.specs.Plain.{plain};

use listed::Plain;

/// The eleven fields of a packet's header, after OpenFlow 1.0.0 section 3.4, figure 4 (the twelfth,
/// the ingress port, is no part of the packet). Headers are ordered field by field, as they stand here.
///
/// A header is valid where each field lies within its width. The types see to that for all but the
/// two Ethernet addresses, which are below 2^48.
#[derive(Clone, Copy, Debug, PartialEq, Eq, PartialOrd, Ord)]
pub struct Header {
    /// Ethernet source address, 48 bits.
    pub dl_src: u64,
    /// Ethernet destination address, 48 bits.
    pub dl_dst: u64,
    /// VLAN id.
    pub dl_vlan: u16,
    /// VLAN priority.
    pub dl_vlan_pcp: u8,
    /// Ethernet frame type.
    pub dl_type: u16,
    /// IP type of service.
    pub nw_tos: u8,
    /// IP protocol, or the lower eight bits of the ARP opcode.
    pub nw_proto: u8,
    /// IPv4 source address.
    pub nw_src: u32,
    /// IPv4 destination address.
    pub nw_dst: u32,
    /// TCP or UDP source port, or ICMP type.
    pub tp_src: u16,
    /// TCP or UDP destination port, or ICMP code.
    pub tp_dst: u16,
}

impl Header {
    ghost use Rattle.of10_match.specs.Header.{IsValidHeader};

    /// Whether each field lies within its width: the types see to all but the two Ethernet addresses.
    pub fn is_valid(&self) -> bool
        ensures { IsTrue result ↔ IsValidHeader self.now }
    {
        let header = *self;
        header.dl_src < 1 << 48 && header.dl_dst < 1 << 48
    }
}

impl Plain for Header {
    fn same(&self, other: &Self) -> bool {
        *self == *other
    }

    ghost clones = { Prim.search plain };
}
