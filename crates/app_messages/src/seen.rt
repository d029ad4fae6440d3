//! A packet that a switch sent up.
ghost use Rattle.std.specs.Prelude.{◌≡◌, IfOk, Some, option_map};
ghost use Rattle.of10_match.specs.Field.{IsValidNumber};
ghost use Rattle.of10_match.specs.Header.{IsValidHeader};
ghost use Rattle.of10_match.specs.Match.{IsValidMatch};
ghost use Rattle.of10_messages.specs.Valid.{IsValidMessage};
ghost use Rattle.app_messages.specs.Sent.{exact_match, header_of, seen_in, sent_on};

use listed::Listed;
use of10_match::{Header, Match, Packet};
use of10_messages::{Action, Message, one_action};
use std::alloc::{AllocError, Global};

/// A packet that a switch sent up whole, as a record of 36 bytes.
#[derive(Clone, Copy, Debug)]
pub struct Seen<'a> {
    /// The port by which it came in.
    pub in_port: u16,
    pub content: &'a [u8; 36],
}

impl Seen<'_> {
    /// The packet of a PACKET_IN. `None` where the message is none, or its data are no record: they have not 36 bytes.
    pub fn of(message: &Message) -> Option<Seen<'_>>
        ensures { option_map (λ seen. record { in_port = seen.in_port; content = seen.content.now }) result ≡ seen_in message.now }
    {
        let Message::PacketIn {
            in_port,
            content,
            ..
        } = message
        else {
            return None;
        };
        if content.len() != 36 {
            return None;
        }
        let content = content.as_slice().first_chunk::<36>()?;
        Some(Seen {
            in_port: *in_port,
            content,
        })
    }

    pub fn header(&self) -> Header
        ensures value { result ≡ header_of (record { in_port = self.now.in_port; content = self.now.content.now }) }
        ensures valid { IsValidHeader result }
    {
        Packet::from_record(self.content).header
    }

    /// The match that takes packets with this header by this port, and no others.
    pub fn exact_match(&self) -> Match
        ensures value { result ≡ exact_match self.now.in_port (header_of (record { in_port = self.now.in_port; content = self.now.content.now })) }
        ensures valid { IsValidMatch result }
    {
        let header = self.header();
        Match {
            in_port: port_field(self.in_port),
            dl_src: Some(header.dl_src),
            dl_dst: Some(header.dl_dst),
            dl_vlan: Some(header.dl_vlan),
            dl_vlan_pcp: Some(header.dl_vlan_pcp),
            dl_type: Some(header.dl_type),
            nw_tos: Some(header.nw_tos),
            nw_proto: Some(header.nw_proto),
            nw_src: Some((header.nw_src, 32)),
            nw_dst: Some((header.nw_dst, 32)),
            tp_src: Some(header.tp_src),
            tp_dst: Some(header.tp_dst),
        }
    }

    /// The PACKET_OUT that sends the packet on out of a port, which may be one of the reserved ones.
    pub fn sent_on(&self, alloc: Global, port: u16) -> Result<Message, AllocError>
        ensures value { IfOk result (λ message. message ≡ sent_on (record { in_port = self.now.in_port; content = self.now.content.now }) port) }
        ensures valid { IfOk result (λ message. IsValidMessage message) }
    {
        let actions = one_action(alloc, Action::output(port))?;
        let record = self.content;
        let content = Listed::of(record.to_vec(alloc)?);
        Ok(Message::packet_out(0, self.in_port, actions, content))
    }
}

/// The field of a match that takes one port.
fn port_field(in_port: u16) -> Option<u16>
    ensures value { result ≡ Some in_port }
    ensures valid { IsValidNumber 16 result }
{
    Some(in_port)
}
