//! The lengths of encodings.

ghost use Rattle.std.specs.Prelude.{◌≡◌, ◌+◌, ◌*◌, ◌-◌, ◌^◌, length, min};
ghost use Rattle.of10_messages.specs.Lengths.{actions_len};
ghost use Rattle.of10_messages.specs.Valid.{HasValidBody};
ghost use Rattle.of10_messages.specs.Wire.{action_body, action_bytes, actions_bytes, body_bytes, canon_bytes};

use crate::action::Action;
use crate::laws::lengths_of_actions;
use crate::message::Message;

/// How many bytes the encoding of an action has after its type and length.
fn action_body_len(action: &Action) -> u64
    ensures { result ≡ length (action_body action.now) }
{
    match action {
        Action::SetDlSrc(_) | Action::SetDlDst(_) => 12,
        Action::Other { body, .. } => body.len() as u64,
        _ => 4,
    }
}

/// How many bytes the encodings of actions have together, at most 2^64 - 1.
#[tactic(auto, unfolding(crate::specs::Wire::action_bytes))]
pub fn actions_len(actions: &[Action]) -> u64
    ensures bytes { result ≡ min (length (actions_bytes actions.now)) (2 ^ 64 - 1) }
    ensures sum { result ≡ min (actions_len actions.now) (2 ^ 64 - 1) }
{
    lengths_of_actions();
    let mut total: u64 = 0;
    for action in actions {
        total = total.saturating_add(action_body_len(action).saturating_add(4));
    }
    total
}

/// How many bytes the encoding of a message has after its header.
fn body_len(message: &Message) -> u64
    requires { HasValidBody message.now }
    ensures { result ≡ min (length (body_bytes message.now)) (2 ^ 64 - 1) }
{
    match message {
        Message::Hello { .. }
        | Message::FeaturesRequest { .. }
        | Message::GetConfigRequest { .. }
        | Message::BarrierRequest { .. }
        | Message::BarrierReply { .. } => 0,
        Message::GetConfigReply { .. } | Message::SetConfig { .. } => 4,
        Message::FlowRemoved { .. } => 80,
        Message::PortStatus { .. } => 56,
        Message::EchoRequest { content, .. } | Message::EchoReply { content, .. } => {
            content.len() as u64
        }
        Message::Other { body, .. } => body.len() as u64,
        Message::Error { content, .. } => (content.len() as u64).saturating_add(4),
        Message::PacketIn { content, .. } => (content.len() as u64).saturating_add(10),
        Message::FeaturesReply { features, .. } => {
            (features.ports.len() as u64)
                .saturating_mul(48)
                .saturating_add(24)
        }
        Message::FlowMod { mods, .. } => actions_len(mods.actions.as_slice()).saturating_add(64),
        Message::PacketOut {
            actions,
            content,
            ..
        } => actions_len(actions.as_slice())
            .saturating_add(content.len() as u64)
            .saturating_add(8),
    }
}

/// How many bytes the encoding of the message has, at most 2^64 - 1. The message may be too long to be valid; then the
/// answer is above 65,535.
#[tactic(auto, unfolding(crate::specs::Wire::canon_bytes))]
pub fn encoded_len(message: &Message) -> u64
    requires { HasValidBody message.now }
    ensures { result ≡ min (length (canon_bytes message.now)) (2 ^ 64 - 1) }
{
    body_len(message).saturating_add(8)
}
