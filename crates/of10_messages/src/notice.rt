//! What a switch is told by its surroundings.

ghost use Rattle.listed.specs.Plain.{plain};

use listed::Plain;

/// Something that a switch is told beside messages and packets. It is no message of the protocol.
#[derive(Clone, Copy, Debug, PartialEq, Eq)]
pub enum Notice {
    /// So many seconds have passed.
    Tick(u32),
    /// The link at a port went down or came up.
    Port { port: u16, down: bool },
    /// The switch has come to its controller; bit p - 1 of `down` is set where port p is down.
    Join { down: u64 },
}

impl Plain for Notice {
    fn same(&self, other: &Self) -> bool {
        *self == *other
    }

    ghost clones = { Prim.search plain };
}
