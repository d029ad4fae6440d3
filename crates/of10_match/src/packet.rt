//! A packet and its record of 36 bytes.

ghost use Rattle.std.specs.Prelude.{◌≡◌, ◌↔◌, IsTrue};
ghost use Rattle.listed.specs.Plain.{plain};

use crate::header::Header;
use byteorder::{BigEndian, ByteOrder};
use listed::Plain;
use wire_bytes::{u16_at, u32_at, u48_at};

/// A simulated packet: its header, and a tag that tells it from others.
#[derive(Clone, Copy, Debug, PartialEq, Eq)]
pub struct Packet {
    pub header: Header,
    pub tag: u32,
}

impl Packet {
    ghost use Rattle.of10_match.specs.Packet.{IsValidPacket, packet_of, record_of};

    /// Whether the header is valid; a tag always is.
    pub fn is_valid(&self) -> bool
        ensures { IsTrue result ↔ IsValidPacket self.now }
    {
        let _tag = self.tag;
        self.header.is_valid()
    }

    /// The record of the packet: the header's fields in their order and the tag, big-endian, and one
    /// zero byte.
    #[tactic(auto, unfolding(crate::specs::Packet::record_of))]
    pub fn to_record(&self) -> [u8; 36]
        requires { IsValidPacket self.now }
        ensures { result ≡ record_of self.now }
    {
        let header = &self.header;
        let mut record = [0; 36];
        BigEndian::write_u48(&mut record[0..6], header.dl_src);
        BigEndian::write_u48(&mut record[6..12], header.dl_dst);
        BigEndian::write_u16(&mut record[12..14], header.dl_vlan);
        record[14] = header.dl_vlan_pcp;
        BigEndian::write_u16(&mut record[15..17], header.dl_type);
        record[17] = header.nw_tos;
        record[18] = header.nw_proto;
        BigEndian::write_u32(&mut record[19..23], header.nw_src);
        BigEndian::write_u32(&mut record[23..27], header.nw_dst);
        BigEndian::write_u16(&mut record[27..29], header.tp_src);
        BigEndian::write_u16(&mut record[29..31], header.tp_dst);
        BigEndian::write_u32(&mut record[31..35], self.tag);
        record
    }

    /// The packet of a record. The last byte is not looked at.
    #[tactic(auto, unfolding(crate::specs::Packet::packet_of))]
    pub fn from_record(bytes: &[u8; 36]) -> Packet
        ensures packet { result ≡ packet_of bytes.now }
        ensures valid { IsValidPacket result }
    {
        let header = Header {
            dl_src: u48_at(bytes, 0),
            dl_dst: u48_at(bytes, 6),
            dl_vlan: u16_at(bytes, 12),
            dl_vlan_pcp: bytes[14],
            dl_type: u16_at(bytes, 15),
            nw_tos: bytes[17],
            nw_proto: bytes[18],
            nw_src: u32_at(bytes, 19),
            nw_dst: u32_at(bytes, 23),
            tp_src: u16_at(bytes, 27),
            tp_dst: u16_at(bytes, 29),
        };
        Packet {
            header,
            tag: u32_at(bytes, 31),
        }
    }
}

impl Plain for Packet {
    fn same(&self, other: &Self) -> bool {
        *self == *other
    }

    ghost clones = { Prim.search plain };
}

#[cfg(test)]
mod tests {
    use super::*;

    // A web request from host 1 to host 2, tag 7, and its record as logs of the simulator write it.
    const PACKET: Packet = Packet {
        header: Header {
            dl_src: 1,
            dl_dst: 2,
            dl_vlan: 65535,
            dl_vlan_pcp: 0,
            dl_type: 2048,
            nw_tos: 0,
            nw_proto: 6,
            nw_src: 10,
            nw_dst: 20,
            tp_src: 1000,
            tp_dst: 80,
        },
        tag: 7,
    };

    const RECORD: [u8; 36] =
        *b"\x00\x00\x00\x00\x00\x01\x00\x00\x00\x00\x00\x02\xff\xff\x00\x08\x00\x00\x06\x00\x00\x00\x0a\x00\x00\x00\x14\x03\xe8\x00\x50\x00\x00\x00\x07\x00";

    #[test]
    fn a_logged_packet_and_its_record(rt: HostRuntime) {
        assert_eq!(rt; PACKET.to_record(), RECORD);
        let mut record = RECORD;
        record[35] = 99;
        assert_eq!(rt; Packet::from_record(&record), PACKET);
    }
}
