//! Why bytes are no message.

ghost use Rattle.std.specs.Prelude.{◌≡◌};
ghost use Rattle.of10_messages.specs.declared.bad.BadMessage.TheVariants.{OutOfMemory};

use std::alloc::AllocError;
use thiserror::Error;

/// Why bytes are not read as a message. All reasons but `OutOfMemory` are tried in this order.
#[derive(Clone, Copy, Debug, PartialEq, Eq, Error)]
pub enum BadMessage {
    /// Fewer than the 8 bytes of a header.
    #[error("fewer bytes than a header")]
    Short,
    /// The first byte is not 1.
    #[error("version {0}")]
    Version(u8),
    /// The header's length is not the number of bytes.
    #[error("length {said} of {given} bytes")]
    Length { said: u16, given: u64 },
    /// No message has this type.
    #[error("type {0}")]
    Kind(u8),
    /// No message of this type has this length.
    #[error("length {length} of a message of type {kind}")]
    BodyLength { kind: u8, length: u16 },
    /// The first bad action, by its offset in the message and its type, which is 0 where fewer than two bytes are left.
    #[error("bad action of type {kind} at {place}")]
    BadAction { place: u16, kind: u16 },
    #[error("out of memory")]
    OutOfMemory,
}

impl From<AllocError> for BadMessage {
    ghost from_gives = { λ _ e. e ≡ OutOfMemory };

    fn from(_: AllocError) -> BadMessage {
        BadMessage::OutOfMemory
    }
}
