//! What every message has: a type and a number.

ghost use Rattle.std.specs.Prelude.{◌≡◌};
ghost use Rattle.of10_messages.specs.Valid.{IsValidMessage};
ghost use Rattle.of10_messages.specs.Wire.{message_kind, message_xid, with_xid};

use crate::kinds::*;
use crate::laws::lengths_of_messages;
use crate::message::Message;

impl Message {
    /// The type in the message's header, one of the `OFPT_` constants where the message is valid.
    pub fn kind(&self) -> u8
        ensures { result ≡ message_kind self.now }
    {
        match self {
            Message::Hello { .. } => OFPT_HELLO,
            Message::Error { .. } => OFPT_ERROR,
            Message::EchoRequest { .. } => OFPT_ECHO_REQUEST,
            Message::EchoReply { .. } => OFPT_ECHO_REPLY,
            Message::FeaturesRequest { .. } => OFPT_FEATURES_REQUEST,
            Message::FeaturesReply { .. } => OFPT_FEATURES_REPLY,
            Message::GetConfigRequest { .. } => OFPT_GET_CONFIG_REQUEST,
            Message::GetConfigReply { .. } => OFPT_GET_CONFIG_REPLY,
            Message::SetConfig { .. } => OFPT_SET_CONFIG,
            Message::PacketIn { .. } => OFPT_PACKET_IN,
            Message::FlowRemoved { .. } => OFPT_FLOW_REMOVED,
            Message::PortStatus { .. } => OFPT_PORT_STATUS,
            Message::PacketOut { .. } => OFPT_PACKET_OUT,
            Message::FlowMod { .. } => OFPT_FLOW_MOD,
            Message::BarrierRequest { .. } => OFPT_BARRIER_REQUEST,
            Message::BarrierReply { .. } => OFPT_BARRIER_REPLY,
            Message::Other { kind, .. } => *kind,
        }
    }

    /// The number by which an answer names the message.
    pub fn xid(&self) -> u32
        ensures { result ≡ message_xid self.now }
    {
        match self {
            Message::Hello { xid }
            | Message::Error { xid, .. }
            | Message::EchoRequest { xid, .. }
            | Message::EchoReply { xid, .. }
            | Message::FeaturesRequest { xid }
            | Message::FeaturesReply { xid, .. }
            | Message::GetConfigRequest { xid }
            | Message::GetConfigReply { xid, .. }
            | Message::SetConfig { xid, .. }
            | Message::PacketIn { xid, .. }
            | Message::FlowRemoved { xid, .. }
            | Message::PortStatus { xid, .. }
            | Message::PacketOut { xid, .. }
            | Message::FlowMod { xid, .. }
            | Message::BarrierRequest { xid }
            | Message::BarrierReply { xid }
            | Message::Other { xid, .. } => *xid,
        }
    }

    /// The same message under another number.
    pub fn with_xid(mut self, new: u32) -> Message
        requires { IsValidMessage self }
        ensures value { result ≡ with_xid new self }
        ensures valid { IsValidMessage result }
    {
        lengths_of_messages();
        match &mut self {
            Message::Hello { xid } => *xid = new,
            Message::Error { xid, .. } => *xid = new,
            Message::EchoRequest { xid, .. } => *xid = new,
            Message::EchoReply { xid, .. } => *xid = new,
            Message::FeaturesRequest { xid } => *xid = new,
            Message::FeaturesReply { xid, .. } => *xid = new,
            Message::GetConfigRequest { xid } => *xid = new,
            Message::GetConfigReply { xid, .. } => *xid = new,
            Message::SetConfig { xid, .. } => *xid = new,
            Message::PacketIn { xid, .. } => *xid = new,
            Message::FlowRemoved { xid, .. } => *xid = new,
            Message::PortStatus { xid, .. } => *xid = new,
            Message::PacketOut { xid, .. } => *xid = new,
            Message::FlowMod { xid, .. } => *xid = new,
            Message::BarrierRequest { xid } => *xid = new,
            Message::BarrierReply { xid } => *xid = new,
            Message::Other { xid, .. } => *xid = new,
        }
        self
    }
}
