//! Walks of packets through a network, and verdicts.

ghost use Rattle.std.specs.Prelude.{◌≡◌};

use listed::Listed;
use of10_match::Header;

/// A packet on its way: the switch and the port by which it came in, and its header there.
#[derive(Clone, Copy, Debug, PartialEq, Eq)]
pub struct Node {
    pub s: u16,
    pub p: u16,
    pub header: Header,
}

/// Nodes, in the order in which a walk comes to them.
pub type Nodes = Listed<Node>;

/// How a walk ends.
#[derive(Clone, Copy, Debug, PartialEq, Eq)]
pub enum Finish {
    /// At a node at which it was before.
    Repeat,
    /// Nowhere: an action sends the packet out of port `p` of switch `s`, and nothing takes it there.
    Out { s: u16, p: u16 },
    /// At a host.
    AtHost(u16),
}

/// A walk from a host's port, with the nodes that it comes to.
#[derive(Debug, Drop)]
pub struct Walk {
    pub nodes: Nodes,
    pub finish: Finish,
}

/// Whether an invariant holds of all packets from all hosts.
#[derive(Debug, Drop)]
pub enum Verdict {
    Holds,
    /// The least host and its least header by which the invariant is violated, and the first walk that shows it.
    Violated {
        host: u16,
        header: Header,
        walk: Walk,
    },
}

impl Verdict {
    ghost use Rattle.invariant_check.specs.Verdict.{is_violated};

    /// Whether it says that its invariant is violated.
    pub fn is_violated(&self) -> bool
        ensures { result ≡ is_violated self.now }
    {
        matches!(self, Verdict::Violated { .. })
    }
}

/// Verdicts, in the order of their invariants.
pub type Verdicts = Listed<Verdict>;
