//! Messages, FLOW_MODs and actions that are valid as they are built.

ghost use Rattle.std.specs.Prelude.{◌≡◌, ◌+◌, ◌*◌, ◌<◌, ◌^◌, ◌∷◌, [], All, IfOk, length, take};
ghost use Rattle.of10_match.specs.Match.{IsValidMatch};
ghost use Rattle.of10_messages.specs.Lengths.{actions_len};
ghost use Rattle.of10_messages.specs.Valid.{IsValidAction, IsValidFeatures, IsValidFlowMod, IsValidMessage, IsValidPort};
ghost use Rattle.of10_messages.specs.Wire.{canon_bytes, message_xid};

use crate::action::{Action, Actions10, Bytes};
use crate::laws::{lengths_of_actions, lengths_of_messages};
use crate::lengths::actions_len;
use crate::message::{Features, FlowMod, Message};
use crate::parts::bytes_are_bytes;
use crate::port::PortDesc;
use crate::values::{OFP_NO_BUFFER, OFPFC_ADD, OFPFC_DELETE};
use crate::writing::encode;
use listed::Listed;
use of10_match::{Match, OFPP_NONE};
use std::alloc::{AllocError, Global};

/// How much of a request its ERROR has at most.
const ERROR_CONTENT: usize = 64;

impl Message {
    ghost use Rattle.of10_messages.specs.declared.message.Message.TheVariants.{BarrierReply, BarrierRequest, EchoReply, EchoRequest, Error, FeaturesReply, FeaturesRequest, FlowMod as FlowModMessage, GetConfigReply, GetConfigRequest, Hello, PacketIn, PacketOut, PortStatus, SetConfig};

    #[tactic(auto, unfolding(crate::specs::Wire::canon_bytes))]
    pub fn hello(xid: u32) -> Message
        ensures message { result ≡ Hello xid }
        ensures valid { IsValidMessage result }
    {
        Message::Hello { xid }
    }

    #[tactic(auto, unfolding(crate::specs::Wire::canon_bytes))]
    pub fn features_request(xid: u32) -> Message
        ensures message { result ≡ FeaturesRequest xid }
        ensures valid { IsValidMessage result }
    {
        Message::FeaturesRequest { xid }
    }

    #[tactic(auto, unfolding(crate::specs::Wire::canon_bytes))]
    pub fn get_config_request(xid: u32) -> Message
        ensures message { result ≡ GetConfigRequest xid }
        ensures valid { IsValidMessage result }
    {
        Message::GetConfigRequest { xid }
    }

    #[tactic(auto, unfolding(crate::specs::Wire::canon_bytes))]
    pub fn barrier_request(xid: u32) -> Message
        ensures message { result ≡ BarrierRequest xid }
        ensures valid { IsValidMessage result }
    {
        Message::BarrierRequest { xid }
    }

    #[tactic(auto, unfolding(crate::specs::Wire::canon_bytes))]
    pub fn barrier_reply(xid: u32) -> Message
        ensures message { result ≡ BarrierReply xid }
        ensures valid { IsValidMessage result }
    {
        Message::BarrierReply { xid }
    }

    #[tactic(auto, unfolding(crate::specs::Wire::canon_bytes))]
    pub fn echo_request(xid: u32, content: Bytes) -> Message
        requires { 8 + length content < 2 ^ 16 }
        ensures message { result ≡ EchoRequest xid content }
        ensures valid { IsValidMessage result }
    {
        bytes_are_bytes(content.as_slice());
        Message::EchoRequest { xid, content }
    }

    /// The answer to an ECHO_REQUEST with the same `xid` and content.
    #[tactic(auto, unfolding(crate::specs::Wire::canon_bytes))]
    pub fn echo_reply(xid: u32, content: Bytes) -> Message
        requires { 8 + length content < 2 ^ 16 }
        ensures message { result ≡ EchoReply xid content }
        ensures valid { IsValidMessage result }
    {
        bytes_are_bytes(content.as_slice());
        Message::EchoReply { xid, content }
    }

    /// The refusal of a request, after OpenFlow 1.0.0 section 5.4.4, with the first 64 bytes of it or all of them.
    #[tactic(auto, unfolding(crate::specs::Wire::canon_bytes))]
    pub fn error(
        alloc: Global,
        kind: u16,
        code: u16,
        request: &Message,
    ) -> Result<Message, AllocError>
        requires { IsValidMessage request.now }
        ensures message { IfOk result (λ m. m ≡ Error (message_xid request.now) kind code (take 64 (canon_bytes request.now))) }
        ensures valid { IfOk result (λ m. IsValidMessage m) }
    {
        let mut bytes = encode(alloc, request)?;
        bytes.truncate(ERROR_CONTENT);
        bytes_are_bytes(bytes.as_slice());
        Ok(Message::Error {
            xid: request.xid(),
            kind,
            code,
            content: Listed::of(bytes),
        })
    }

    /// What a switch can do.
    pub fn features_reply(xid: u32, features: Features) -> Message
        requires valid { IsValidFeatures features }
        requires fits { 32 + 48 * length features.ports < 2 ^ 16 }
        ensures message { result ≡ FeaturesReply xid features }
        ensures valid { IsValidMessage result }
    {
        lengths_of_messages();
        Message::FeaturesReply { xid, features }
    }

    #[tactic(auto, unfolding(crate::specs::Wire::canon_bytes))]
    pub fn get_config_reply(xid: u32, flags: u16, miss_send_len: u16) -> Message
        ensures message { result ≡ GetConfigReply xid flags miss_send_len }
        ensures valid { IsValidMessage result }
    {
        Message::GetConfigReply {
            xid,
            flags,
            miss_send_len,
        }
    }

    #[tactic(auto, unfolding(crate::specs::Wire::canon_bytes))]
    pub fn set_config(xid: u32, flags: u16, miss_send_len: u16) -> Message
        ensures message { result ≡ SetConfig xid flags miss_send_len }
        ensures valid { IsValidMessage result }
    {
        Message::SetConfig {
            xid,
            flags,
            miss_send_len,
        }
    }

    /// A port that was added or deleted, or has changed.
    pub fn port_status(xid: u32, reason: u8, port: PortDesc) -> Message
        requires { IsValidPort port }
        ensures message { result ≡ PortStatus xid reason port }
        ensures valid { IsValidMessage result }
    {
        lengths_of_messages();
        Message::PortStatus { xid, reason, port }
    }

    /// A whole packet that the switch does not keep.
    #[tactic(auto, unfolding(crate::specs::Wire::canon_bytes))]
    pub fn packet_in(xid: u32, in_port: u16, reason: u8, content: Bytes) -> Message
        requires { 18 + length content < 2 ^ 16 }
        ensures message { result ≡ PacketIn xid 4294967295 (length content) in_port reason content }
        ensures valid { IsValidMessage result }
    {
        bytes_are_bytes(content.as_slice());
        Message::PacketIn {
            xid,
            buffer_id: OFP_NO_BUFFER,
            total_len: content.len() as u16,
            in_port,
            reason,
            content,
        }
    }

    /// A packet for the switch to send by the actions.
    #[tactic(auto, unfolding(crate::specs::Wire::canon_bytes))]
    pub fn packet_out(xid: u32, in_port: u16, actions: Actions10, content: Bytes) -> Message
        requires actions { All IsValidAction actions }
        requires fits { 16 + actions_len actions + length content < 2 ^ 16 }
        ensures message { result ≡ PacketOut xid 4294967295 in_port (actions_len actions) actions content }
        ensures valid { IsValidMessage result }
    {
        bytes_are_bytes(content.as_slice());
        lengths_of_actions();
        Message::PacketOut {
            xid,
            buffer_id: OFP_NO_BUFFER,
            in_port,
            actions_len: actions_len(actions.as_slice()) as u16,
            actions,
            content,
        }
    }

    #[tactic(auto, unfolding(crate::specs::Wire::canon_bytes), using(crate::proofs::Sizes::length_flow_mod))]
    pub fn flow_mod(xid: u32, mods: FlowMod) -> Message
        requires valid { IsValidFlowMod mods }
        requires fits { 72 + actions_len mods.actions < 2 ^ 16 }
        ensures message { result ≡ FlowModMessage xid mods }
        ensures valid { IsValidMessage result }
    {
        lengths_of_actions();
        Message::FlowMod { xid, mods }
    }
}

impl FlowMod {
    /// Adds an entry that stays until it is deleted, and of which the switch tells nothing.
    pub fn add(matches: Match, priority: u16, actions: Actions10) -> FlowMod
        requires matches { IsValidMatch matches }
        requires actions { All IsValidAction actions }
        ensures value { result ≡ record {
          matches = matches;
          cookie = 0;
          command = 0;
          idle_timeout = 0;
          hard_timeout = 0;
          priority = priority;
          buffer_id = 4294967295;
          out_port = 65535;
          flags = 0;
          actions = actions;
        } }
        ensures valid { IsValidFlowMod result }
    {
        FlowMod {
            matches,
            cookie: 0,
            command: OFPFC_ADD,
            idle_timeout: 0,
            hard_timeout: 0,
            priority,
            buffer_id: OFP_NO_BUFFER,
            out_port: OFPP_NONE,
            flags: 0,
            actions,
        }
    }

    /// Deletes the entries whose matches are within this one, of whatever priority and to whatever port.
    pub fn delete(alloc: Global, matches: Match) -> FlowMod
        requires { IsValidMatch matches }
        ensures value { result ≡ record {
          matches = matches;
          cookie = 0;
          command = 3;
          idle_timeout = 0;
          hard_timeout = 0;
          priority = 0;
          buffer_id = 4294967295;
          out_port = 65535;
          flags = 0;
          actions = [];
        } }
        ensures valid { IsValidFlowMod result }
    {
        FlowMod::add(matches, 0, no_actions(alloc)).with_command(OFPFC_DELETE)
    }

    pub fn with_cookie(mut self, cookie: u64) -> FlowMod
        requires { IsValidFlowMod self }
        ensures value { result ≡ record self { cookie = cookie } }
        ensures valid { IsValidFlowMod result }
    {
        self.cookie = cookie;
        self
    }

    pub fn with_idle_timeout(mut self, idle_timeout: u16) -> FlowMod
        requires { IsValidFlowMod self }
        ensures value { result ≡ record self { idle_timeout = idle_timeout } }
        ensures valid { IsValidFlowMod result }
    {
        self.idle_timeout = idle_timeout;
        self
    }

    pub fn with_hard_timeout(mut self, hard_timeout: u16) -> FlowMod
        requires { IsValidFlowMod self }
        ensures value { result ≡ record self { hard_timeout = hard_timeout } }
        ensures valid { IsValidFlowMod result }
    {
        self.hard_timeout = hard_timeout;
        self
    }

    pub fn with_flags(mut self, flags: u16) -> FlowMod
        requires { IsValidFlowMod self }
        ensures value { result ≡ record self { flags = flags } }
        ensures valid { IsValidFlowMod result }
    {
        self.flags = flags;
        self
    }

    pub fn with_out_port(mut self, out_port: u16) -> FlowMod
        requires { IsValidFlowMod self }
        ensures value { result ≡ record self { out_port = out_port } }
        ensures valid { IsValidFlowMod result }
    {
        self.out_port = out_port;
        self
    }

    pub fn with_command(mut self, command: u16) -> FlowMod
        requires { IsValidFlowMod self }
        ensures value { result ≡ record self { command = command } }
        ensures valid { IsValidFlowMod result }
    {
        self.command = command;
        self
    }
}

impl Action {
    ghost use Rattle.of10_messages.specs.declared.action.Action.TheVariants.{Output};

    /// An OUTPUT to a port, with `max_len` 0.
    pub fn output(port: u16) -> Action
        ensures value { result ≡ Output port 0 }
        ensures valid { IsValidAction result }
    {
        Action::Output { port, max_len: 0 }
    }
}

pub fn one_action(alloc: Global, action: Action) -> Result<Actions10, AllocError>
    requires { IsValidAction action }
    ensures list { IfOk result (λ actions. actions ≡ action ∷ []) }
    ensures valid { IfOk result (λ actions. All IsValidAction actions) }
{
    Ok(Listed::of(vec![in alloc; action]?))
}

pub fn no_actions(alloc: Global) -> Actions10
    ensures list { result ≡ [] }
    ensures valid { All IsValidAction result }
{
    Listed::new(alloc)
}
