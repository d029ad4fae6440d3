//! The forty bytes of a match: OpenFlow 1.0.0 section 5.2.3, `ofp_match`.

ghost use Rattle.std.specs.Prelude.{◌≡◌, ◌==◌, ◌≤◌, ◌%◌, ◌^◌, bit_and, if◌then◌else◌, is_none};
ghost use Rattle.of10_match.specs.Wire.{address_of, open_bits, prefix_read};
ghost use Rattle.of10_match.specs.Field.{IsValidAddress};

use crate::field::Prefix;
use crate::matches::Match;
use crate::wildcards::*;
use byteorder::{BigEndian, ByteOrder};
use wire_bytes::{u16_at, u32_at, u48_at};

/// The number field of a number and its bit of the wildcards: absent where the bit is set.
fn number<T: Copy>(wildcards: u32, bit: u32, value: T) -> Option<T>
    ensures { result ≡ if bit_and wildcards bit == 0 then Some value else None }
{
    (wildcards & bit == 0).then_some(value)
}

/// The address field of an address and a count, in the low six bits, of low bits that are not
/// compared.
fn prefix(counts: u32, address: u32) -> Option<Prefix>
    ensures { result ≡ prefix_read (counts % 2 ^ 6) address }
{
    let count = counts % (1 << OFPFW_NW_SRC_BITS);
    if count >= 32 {
        None
    } else {
        Some(((address >> count) << count, (32 - count) as u8))
    }
}

/// The wildcard bit of a field: set where the field is absent.
fn wildcard<T: Copy>(field: Option<T>, bit: u32) -> u32
    ensures flag { result ≡ if is_none field then bit else 0 }
    ensures most { result ≤ bit }
{
    if field.is_none() { bit } else { 0 }
}

/// How many low bits of an address field are not compared.
fn open_bits(field: Option<Prefix>) -> u32
    requires { IsValidAddress field }
    ensures count { result ≡ open_bits field }
    ensures most { result ≤ 32 }
{
    match field {
        None => 32,
        Some((_, bits)) => 32 - u32::from(bits),
    }
}

/// The address of an address field, zero where it is absent.
fn address(field: Option<Prefix>) -> u32
    ensures { result ≡ address_of field }
{
    match field {
        None => 0,
        Some((address, _)) => address,
    }
}

impl Match {
    ghost use Rattle.of10_match.specs.Match.{IsValidMatch};
    ghost use Rattle.of10_match.specs.Wire.{match_bytes, match_of, wildcards_of};

    /// The match that forty bytes stand for. Values of wildcarded fields, address bits that are not
    /// compared, padding and other bits of the wildcards are dropped.
    #[tactic(auto, unfolding(crate::specs::Wire::match_of))]
    pub fn from_wire(bytes: &[u8; 40]) -> Match
        ensures read { result ≡ match_of bytes.now }
        ensures valid { IsValidMatch result }
    {
        let wildcards = u32_at(bytes, 0);
        Match {
            in_port: number(wildcards, OFPFW_IN_PORT, u16_at(bytes, 4)),
            dl_src: number(wildcards, OFPFW_DL_SRC, u48_at(bytes, 6)),
            dl_dst: number(wildcards, OFPFW_DL_DST, u48_at(bytes, 12)),
            dl_vlan: number(wildcards, OFPFW_DL_VLAN, u16_at(bytes, 18)),
            dl_vlan_pcp: number(wildcards, OFPFW_DL_VLAN_PCP, bytes[20]),
            dl_type: number(wildcards, OFPFW_DL_TYPE, u16_at(bytes, 22)),
            nw_tos: number(wildcards, OFPFW_NW_TOS, bytes[24]),
            nw_proto: number(wildcards, OFPFW_NW_PROTO, bytes[25]),
            nw_src: prefix(wildcards >> OFPFW_NW_SRC_SHIFT, u32_at(bytes, 28)),
            nw_dst: prefix(wildcards >> OFPFW_NW_DST_SHIFT, u32_at(bytes, 32)),
            tp_src: number(wildcards, OFPFW_TP_SRC, u16_at(bytes, 36)),
            tp_dst: number(wildcards, OFPFW_TP_DST, u16_at(bytes, 38)),
        }
    }

    /// The forty bytes of the match, with zeros for wildcarded fields and padding. A wildcarded address
    /// has the count 32.
    #[tactic(auto, unfolding(crate::specs::Wire::match_bytes))]
    pub fn to_wire(&self) -> [u8; 40]
        requires { IsValidMatch self.now }
        ensures { result ≡ match_bytes self.now }
    {
        let mut bytes = [0; 40];
        BigEndian::write_u32(&mut bytes[0..4], self.wildcards());
        BigEndian::write_u16(&mut bytes[4..6], self.in_port.unwrap_or(0));
        BigEndian::write_u48(&mut bytes[6..12], self.dl_src.unwrap_or(0));
        BigEndian::write_u48(&mut bytes[12..18], self.dl_dst.unwrap_or(0));
        BigEndian::write_u16(&mut bytes[18..20], self.dl_vlan.unwrap_or(0));
        bytes[20] = self.dl_vlan_pcp.unwrap_or(0);
        BigEndian::write_u16(&mut bytes[22..24], self.dl_type.unwrap_or(0));
        bytes[24] = self.nw_tos.unwrap_or(0);
        bytes[25] = self.nw_proto.unwrap_or(0);
        BigEndian::write_u32(&mut bytes[28..32], address(self.nw_src));
        BigEndian::write_u32(&mut bytes[32..36], address(self.nw_dst));
        BigEndian::write_u16(&mut bytes[36..38], self.tp_src.unwrap_or(0));
        BigEndian::write_u16(&mut bytes[38..40], self.tp_dst.unwrap_or(0));
        bytes
    }

    /// The wildcards of the match. Each bit and each count has a place of its own, so they add up.
    fn wildcards(&self) -> u32
        requires { IsValidMatch self.now }
        ensures { result ≡ wildcards_of self.now }
    {
        wildcard(self.in_port, OFPFW_IN_PORT)
            + wildcard(self.dl_vlan, OFPFW_DL_VLAN)
            + wildcard(self.dl_src, OFPFW_DL_SRC)
            + wildcard(self.dl_dst, OFPFW_DL_DST)
            + wildcard(self.dl_type, OFPFW_DL_TYPE)
            + wildcard(self.nw_proto, OFPFW_NW_PROTO)
            + wildcard(self.tp_src, OFPFW_TP_SRC)
            + wildcard(self.tp_dst, OFPFW_TP_DST)
            + (open_bits(self.nw_src) << OFPFW_NW_SRC_SHIFT)
            + (open_bits(self.nw_dst) << OFPFW_NW_DST_SHIFT)
            + wildcard(self.dl_vlan_pcp, OFPFW_DL_VLAN_PCP)
            + wildcard(self.nw_tos, OFPFW_NW_TOS)
    }
}

#[cfg(test)]
mod tests {
    use super::*;

    // The match of a flow-mod that a learning switch gets for a web server's answer, by its bytes.
    const ANSWER: [u8; 40] =
        *b"\x00\x00\x00\x00\x00\x02\x00\x00\x00\x00\x00\x02\x00\x00\x00\x00\x00\x01\xff\xff\x00\x00\x08\x00\x00\x06\x00\x00\x00\x00\x00\x14\x00\x00\x00\x0a\x00\x50\x03\xe8";

    #[test]
    fn an_exact_match_and_its_bytes(rt: HostRuntime) {
        let answer = Match {
            in_port: Some(2),
            dl_src: Some(2),
            dl_dst: Some(1),
            dl_vlan: Some(65535),
            dl_vlan_pcp: Some(0),
            dl_type: Some(2048),
            nw_tos: Some(0),
            nw_proto: Some(6),
            nw_src: Some((20, 32)),
            nw_dst: Some((10, 32)),
            tp_src: Some(80),
            tp_dst: Some(1000),
        };
        assert_eq!(rt; Match::from_wire(&ANSWER), answer);
        assert_eq!(rt; answer.to_wire(), ANSWER);
        assert!(rt; !answer.has_wildcard());
    }

    #[test]
    fn wildcards_as_senders_write_them(rt: HostRuntime) {
        // Values of wildcarded fields, padding, other bits of the wildcards and counts above 32.
        let mut bytes = [0x5a; 40];
        for wildcards in [0x003f_ffff, 0xffff_ffff, 0x0038_20ff] {
            BigEndian::write_u32(&mut bytes[0..4], wildcards);
            assert_eq!(rt; Match::from_wire(&bytes), Match::any(), "at {wildcards}");
        }
        let mut written = [0; 40];
        BigEndian::write_u32(&mut written[0..4], 0x0038_20ff);
        assert_eq!(rt; Match::any().to_wire(), written);
        // A count of 33 is the whole field, and of 8 all but the low byte.
        for (count, nw_src) in [(33, None), (8, Some((0x5a5a_5a00, 24)))] {
            BigEndian::write_u32(&mut bytes[0..4], 0x0038_00ff + count * 256);
            let read = Match::from_wire(&bytes);
            assert_eq!(rt;
                read,
                Match {
                    nw_src,
                    ..Match::any()
                },
                "at {count}"
            );
        }
    }
}
