//! Nodes of walks and what is sent from them, kept for all headers of a class at once.

ghost use Rattle.std.specs.Prelude.{◌≡◌, ◌↔◌, IsTrue};
ghost use Rattle.of10_match.specs.Header.{IsValidHeader};
ghost use Rattle.of10_match.specs.declared.header.Header.{Header};
ghost use Rattle.header_classes.specs.Cell.{in_cell};
ghost use Rattle.header_classes.specs.Rewrite.{IsValidRewrite};
ghost use Rattle.invariant_check.specs.Class.{IsNarrowed};

use crate::class::Class;
use crate::walk::Node;
use flow_table::Target;
use header_classes::Rewrite;
use listed::Listed;
use of10_match::Header;

/// A node of the walks of all headers of a class: each of them stands there after the same sets.
#[derive(Clone, Copy, Debug)]
pub(crate) struct Stop {
    pub(crate) s: u16,
    pub(crate) p: u16,
    pub(crate) sets: Rewrite,
}

/// One thing that the switch of a stop sends.
#[derive(Clone, Copy, Debug)]
pub(crate) struct Hop {
    pub(crate) target: Target,
    pub(crate) sets: Rewrite,
    pub(crate) plain: bool,
}

/// What the switch of a stop sends, in order.
pub(crate) type Hops = Listed<Hop>;

impl Stop {
    ghost use Rattle.invariant_check.specs.Stop.{node_at};

    /// The node for a header.
    pub(crate) fn node(&self, header: &Header) -> Node
        requires header { IsValidHeader header.now }
        requires valid { IsValidRewrite self.now.sets }
        ensures { result ≡ node_at header.now self.now }
    {
        Node {
            s: self.s,
            p: self.p,
            header: self.sets.apply(header),
        }
    }

    /// Whether two stops are one node: the class is narrowed until it is the same for all its headers.
    pub(crate) fn is_same(&self, class: &mut Class, other: &Stop) -> bool
        requires valid { IsValidRewrite self.now.sets }
        requires other { IsValidRewrite other.now.sets }
        ensures narrowed { IsNarrowed class.old class.new }
        ensures every { (h : Header) → IsTrue (in_cell class.new.cell h) → (IsTrue result ↔ (node_at h other.now ≡ node_at h self.now)) }
    {
        header_classes::laws::a_cell_has_valid_headers(&class.cell);
        self.s == other.s && self.p == other.p && class.same(&self.sets, &other.sets)
    }
}
