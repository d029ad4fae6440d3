//! The match of a flow entry.

ghost use Rattle.std.specs.Prelude.{◌≡◌, ◌↔◌, IsTrue};
ghost use Rattle.listed.specs.Plain.{plain};

use crate::field::{self, Prefix};
use crate::header::Header;
use listed::Plain;

/// The match of a flow entry, after OpenFlow 1.0.0 section 5.2.3 (`ofp_match`). A field that is `None`
/// is wildcarded. Each field counts by itself: no field asks for a value of another one.
///
/// A match is valid where each field lies within its width and each address is a valid [`Prefix`].
#[derive(Clone, Copy, Debug, PartialEq, Eq)]
pub struct Match {
    /// Ingress port.
    pub in_port: Option<u16>,
    /// Ethernet source address, 48 bits.
    pub dl_src: Option<u64>,
    /// Ethernet destination address, 48 bits.
    pub dl_dst: Option<u64>,
    /// VLAN id.
    pub dl_vlan: Option<u16>,
    /// VLAN priority.
    pub dl_vlan_pcp: Option<u8>,
    /// Ethernet frame type.
    pub dl_type: Option<u16>,
    /// IP type of service.
    pub nw_tos: Option<u8>,
    /// IP protocol, or the lower eight bits of the ARP opcode.
    pub nw_proto: Option<u8>,
    /// IPv4 source address and the number of its compared bits.
    pub nw_src: Option<Prefix>,
    /// IPv4 destination address and the number of its compared bits.
    pub nw_dst: Option<Prefix>,
    /// TCP or UDP source port, or ICMP type.
    pub tp_src: Option<u16>,
    /// TCP or UDP destination port, or ICMP code.
    pub tp_dst: Option<u16>,
}

impl Match {
    ghost use Rattle.of10_match.specs.Field.{IsValidNumber};
    ghost use Rattle.of10_match.specs.Match.{any_match, covers, has_wildcard, overlaps, same, takes, Covers, IsValidMatch, Overlaps, Takes};

    /// The match with every field wildcarded.
    pub fn any() -> Match
        ensures { result ≡ any_match }
    {
        Match {
            in_port: None,
            dl_src: None,
            dl_dst: None,
            dl_vlan: None,
            dl_vlan_pcp: None,
            dl_type: None,
            nw_tos: None,
            nw_proto: None,
            nw_src: None,
            nw_dst: None,
            tp_src: None,
            tp_dst: None,
        }
    }

    /// Whether each field lies within its width: the types see to all but the two Ethernet addresses
    /// and the two IPv4 ones.
    pub fn is_valid(&self) -> bool
        ensures { IsTrue result ↔ IsValidMatch self.now }
    {
        self.narrow_fields();
        let ethernet = field::fits_48_bits(self.dl_src) & field::fits_48_bits(self.dl_dst);
        let ip = field::is_valid_address(self.nw_src) & field::is_valid_address(self.nw_dst);
        ethernet & ip
    }

    /// The fields whose types see to their widths: facts for the proof.
    fn narrow_fields(&self)
        ensures in_port { IsValidNumber 16 self.now.in_port }
        ensures dl_vlan { IsValidNumber 16 self.now.dl_vlan }
        ensures dl_vlan_pcp { IsValidNumber 8 self.now.dl_vlan_pcp }
        ensures dl_type { IsValidNumber 16 self.now.dl_type }
        ensures nw_tos { IsValidNumber 8 self.now.nw_tos }
        ensures nw_proto { IsValidNumber 8 self.now.nw_proto }
        ensures tp_src { IsValidNumber 16 self.now.tp_src }
        ensures tp_dst { IsValidNumber 16 self.now.tp_dst }
    {
        field::fits_16_bits(self.in_port);
        field::fits_16_bits(self.dl_vlan);
        field::fits_8_bits(self.dl_vlan_pcp);
        field::fits_16_bits(self.dl_type);
        field::fits_8_bits(self.nw_tos);
        field::fits_8_bits(self.nw_proto);
        field::fits_16_bits(self.tp_src);
        field::fits_16_bits(self.tp_dst);
    }

    /// Whether the match takes a packet that comes in by a port.
    pub fn matches(&self, in_port: u16, header: &Header) -> bool
        requires { IsValidMatch self.now }
        ensures test { result ≡ takes self.now in_port header.now }
        ensures takes { IsTrue result ↔ Takes self.now in_port header.now }
    {
        self.each_takes(in_port, header)
    }

    /// Whether each field takes its number.
    #[tactic(auto, unfolding(crate::specs::Match::takes))]
    fn each_takes(&self, in_port: u16, header: &Header) -> bool
        requires { IsValidMatch self.now }
        ensures { result ≡ takes self.now in_port header.now }
    {
        field::takes(self.in_port, in_port)
            && field::takes(self.dl_src, header.dl_src)
            && field::takes(self.dl_dst, header.dl_dst)
            && field::takes(self.dl_vlan, header.dl_vlan)
            && field::takes(self.dl_vlan_pcp, header.dl_vlan_pcp)
            && field::takes(self.dl_type, header.dl_type)
            && field::takes(self.nw_tos, header.nw_tos)
            && field::takes(self.nw_proto, header.nw_proto)
            && field::takes_address(self.nw_src, header.nw_src)
            && field::takes_address(self.nw_dst, header.nw_dst)
            && field::takes(self.tp_src, header.tp_src)
            && field::takes(self.tp_dst, header.tp_dst)
    }

    /// Whether the match takes all that another one takes.
    pub fn covers(&self, other: &Match) -> bool
        requires valid { IsValidMatch self.now }
        requires other { IsValidMatch other.now }
        ensures test { result ≡ covers self.now other.now }
        ensures covers { IsTrue result ↔ Covers self.now other.now }
    {
        self.each_covers(other)
    }

    /// Whether each field covers that of the other match.
    #[tactic(auto, unfolding(crate::specs::Match::covers))]
    fn each_covers(&self, other: &Match) -> bool
        requires valid { IsValidMatch self.now }
        requires other { IsValidMatch other.now }
        ensures { result ≡ covers self.now other.now }
    {
        field::covers(self.in_port, other.in_port)
            && field::covers(self.dl_src, other.dl_src)
            && field::covers(self.dl_dst, other.dl_dst)
            && field::covers(self.dl_vlan, other.dl_vlan)
            && field::covers(self.dl_vlan_pcp, other.dl_vlan_pcp)
            && field::covers(self.dl_type, other.dl_type)
            && field::covers(self.nw_tos, other.nw_tos)
            && field::covers(self.nw_proto, other.nw_proto)
            && field::covers_address(self.nw_src, other.nw_src)
            && field::covers_address(self.nw_dst, other.nw_dst)
            && field::covers(self.tp_src, other.tp_src)
            && field::covers(self.tp_dst, other.tp_dst)
    }

    /// Whether some port and some valid header are taken by both matches.
    pub fn overlaps(&self, other: &Match) -> bool
        requires valid { IsValidMatch self.now }
        requires other { IsValidMatch other.now }
        ensures test { result ≡ overlaps self.now other.now }
        ensures overlaps { IsTrue result ↔ Overlaps self.now other.now }
    {
        self.each_overlaps(other)
    }

    /// Whether each field overlaps that of the other match.
    #[tactic(auto, unfolding(crate::specs::Match::overlaps))]
    fn each_overlaps(&self, other: &Match) -> bool
        requires valid { IsValidMatch self.now }
        requires other { IsValidMatch other.now }
        ensures { result ≡ overlaps self.now other.now }
    {
        field::overlaps(self.in_port, other.in_port)
            && field::overlaps(self.dl_src, other.dl_src)
            && field::overlaps(self.dl_dst, other.dl_dst)
            && field::overlaps(self.dl_vlan, other.dl_vlan)
            && field::overlaps(self.dl_vlan_pcp, other.dl_vlan_pcp)
            && field::overlaps(self.dl_type, other.dl_type)
            && field::overlaps(self.nw_tos, other.nw_tos)
            && field::overlaps(self.nw_proto, other.nw_proto)
            && field::overlaps_address(self.nw_src, other.nw_src)
            && field::overlaps_address(self.nw_dst, other.nw_dst)
            && field::overlaps(self.tp_src, other.tp_src)
            && field::overlaps(self.tp_dst, other.tp_dst)
    }

    /// Whether the two matches are one.
    #[tactic(auto, unfolding(crate::specs::Match::same))]
    pub fn same(&self, other: &Match) -> bool
        ensures test { result ≡ same self.now other.now }
        ensures equal { IsTrue result ↔ (self.now ≡ other.now) }
    {
        self == other
    }

    /// Whether a field is absent or an address compares fewer than 32 bits.
    #[tactic(auto, unfolding(crate::specs::Match::has_wildcard))]
    pub fn has_wildcard(&self) -> bool
        ensures { result ≡ has_wildcard self.now }
    {
        self.in_port.is_none()
            || self.dl_src.is_none()
            || self.dl_dst.is_none()
            || self.dl_vlan.is_none()
            || self.dl_vlan_pcp.is_none()
            || self.dl_type.is_none()
            || self.nw_tos.is_none()
            || self.nw_proto.is_none()
            || self.nw_src.is_none_or(|(_, bits)| bits < 32)
            || self.nw_dst.is_none_or(|(_, bits)| bits < 32)
            || self.tp_src.is_none()
            || self.tp_dst.is_none()
    }
}

impl Plain for Match {
    fn same(&self, other: &Self) -> bool {
        Match::same(self, other)
    }

    ghost clones = { Prim.search plain };
}

#[cfg(test)]
mod tests {
    use super::*;

    const NETWORK: u32 = 0x0a00_0000;

    const SUBNET: u32 = 0x0a01_0000;

    #[test]
    fn prefixes_ports_and_wildcards(rt: HostRuntime) {
        let any = Match::any();
        let network = Match {
            nw_src: Some((NETWORK, 8)),
            ..any
        };
        let subnet = Match {
            nw_src: Some((SUBNET, 16)),
            tp_dst: Some(80),
            ..any
        };
        let other_port = Match {
            in_port: Some(2),
            ..network
        };
        let inside = Header {
            dl_src: 1,
            dl_dst: 2,
            dl_vlan: 65535,
            dl_vlan_pcp: 0,
            dl_type: 2048,
            nw_tos: 0,
            nw_proto: 6,
            nw_src: SUBNET + 5,
            nw_dst: 20,
            tp_src: 1000,
            tp_dst: 80,
        };
        assert!(rt; any.matches(1, &inside) && network.matches(1, &inside));
        assert!(rt; subnet.matches(1, &inside) && !other_port.matches(1, &inside));
        assert!(rt; any.covers(&network) && network.covers(&subnet) && !subnet.covers(&network));
        assert!(rt; subnet.overlaps(&other_port) && !subnet.covers(&other_port));
        assert!(rt; network.same(&network) && !network.same(&subnet));
        assert!(rt; any.has_wildcard() && subnet.has_wildcard());
    }
}
