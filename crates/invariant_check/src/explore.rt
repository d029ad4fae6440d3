//! All walks of the packets of a class from a port, in order, until one has an end that an invariant forbids.

ghost use Rattle.std.specs.Prelude.{◌≡◌, IfOk, IfSome, IsNone, IsTrue};
ghost use Rattle.std.specs.List.{AllZip};
ghost use Rattle.of10_match.specs.declared.header.Header.{Header};
ghost use Rattle.topology.specs.Network.{IsPort};
ghost use Rattle.header_classes.specs.Cell.{in_cell};
ghost use Rattle.header_classes.specs.Trials.{AreTrials};
ghost use Rattle.invariant_check.specs.Class.{IsNarrowed};
ghost use Rattle.invariant_check.specs.Network.{IsNet};
ghost use Rattle.invariant_check.specs.Verdict.{IsFirstWalk, IsFree};

use crate::class::Class;
use crate::search::{Search, Turn};
use crate::walk::Walk;
use event_world::NetState;
use header_classes::Trials;
use std::alloc::{AllocError, Global};
use topology::Invariant;

/// Looks for a walk from port `p` of switch `s` with an end that the invariant forbids: the first one that a packet with the header
/// of the class has. Where it has none, no header of the class has one.
pub(crate) fn explore(
    alloc: Global,
    net: &NetState,
    trials: &[Trials],
    invariant: &Invariant,
    s: u16,
    p: u16,
    class: &mut Class,
) -> Result<Option<Walk>, AllocError>
    requires net { IsNet net.now }
    requires trials { AllZip AreTrials net.now.tables trials.now }
    requires place { IsPort net.now.topology.ports (s, p) }
    ensures narrowed { IsNarrowed class.old class.new }
    ensures free { IfOk result (λ found. IsNone found → (h : Header) → IsTrue (in_cell class.new.cell h)
        → IsFree net.now invariant.now (record { s = s; p = p; header = h })) }
    ensures first { IfOk result (λ found. IfSome found (λ walk.
        IsFirstWalk net.now invariant.now (record { s = s; p = p; header = class.old.header }) walk.nodes walk.finish)) }
{
    header_classes::laws::inner_cells_are_parts();
    let mut search = Search::start(alloc, net, trials, class, s, p)?;
    loop {
        match search.turn(alloc, net, trials, invariant, class)? {
            Turn::On => {}
            Turn::Over => return Ok(None),
            Turn::Found(walk) => return Ok(Some(walk)),
        }
    }
}
