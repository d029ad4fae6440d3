//! What a step of a switch sends.

use listed::Listed;
use of10_match::Packet;
use of10_messages::Message;

/// Messages to the controller, in order.
pub type Ups = Listed<Message>;

/// Packets with the ports that they leave by, in order.
pub type Emits = Listed<(u16, Packet)>;

/// What a step of a switch sends.
#[derive(Debug, Drop)]
pub struct Outs {
    pub up: Ups,
    pub out: Emits,
}
