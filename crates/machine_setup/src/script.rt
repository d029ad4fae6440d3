//! What a script does to a network.
use listed::Listed;
use of10_match::{Match, Packet};

/// One thing that is done to the network from outside. A failure of what is down, and a recovery of what is up, do nothing.
#[derive(Clone, Copy, Debug)]
pub enum Input {
    /// A host sends a packet. It comes to the port at which the host is, if that switch is up.
    Inject { host: u16, packet: Packet },
    /// A link goes down, and what waits at both ends is lost.
    LinkDown(u16),
    LinkUp(u16),
    /// A switch goes down, and loses its state and all that waits at it.
    SwitchFail(u16),
    SwitchUp(u16),
    /// The channel between a switch and its controller goes down.
    ControlDown(u16),
    ControlUp(u16),
    /// A host moves to port `p` of switch `s`, unless another host is there.
    HostMove { host: u16, s: u16, p: u16 },
    /// A controller is told to deny the packets that a match takes.
    Policy { c: u16, deny: Match },
    /// So many seconds pass for each switch that is up.
    Seconds(u32),
}

/// One line of a script.
#[derive(Clone, Copy, Debug)]
pub struct Line {
    /// Whether the line waits until nothing else can happen.
    pub after_quiet: bool,
    pub input: Input,
}

/// The lines in their order.
pub type Script = Listed<Line>;
