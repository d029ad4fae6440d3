//! What becomes of a packet that a stop's switch sends.

ghost use Rattle.std.specs.Prelude.{◌≡◌};
ghost use Rattle.invariant_check.specs.Network.{IsNet};
ghost use Rattle.invariant_check.specs.Reach.{end_of, reach_of};
ghost use Rattle.invariant_check.specs.Verdict.{is_forbidden};

use crate::stop::{Hop, Stop};
use crate::walk::Finish;
use event_world::NetState;
use flow_table::Target;
use topology::{Invariant, Landing, emit};

/// Where a hop comes to.
#[derive(Clone, Copy, Debug)]
pub(crate) enum Reach {
    /// To another stop.
    Onward(Stop),
    /// To an end that the invariant forbids.
    End(Finish),
    /// To the controller, or to an end that is not forbidden.
    Nothing,
}

/// Where a hop from switch `s` comes to.
pub(crate) fn reach_from(net: &NetState, invariant: &Invariant, s: u16, hop: &Hop) -> Reach
    requires { IsNet net.now }
    ensures { result ≡ reach_of net.now invariant.now s hop.now }
{
    match hop.target {
        Target::Controller => Reach::Nothing,
        Target::Port(port) => match emit(&net.topology, &net.status, s, port) {
            Landing::Wire { s, p } => Reach::Onward(Stop {
                s,
                p,
                sets: hop.sets,
            }),
            Landing::Host(host) => end(invariant, Finish::AtHost(host)),
            Landing::Lost(_) if hop.plain => end(invariant, Finish::Out { s, p: port }),
            Landing::Lost(_) => Reach::Nothing,
        },
    }
}

// An end, if it is forbidden.
fn end(invariant: &Invariant, finish: Finish) -> Reach
    ensures { result ≡ end_of invariant.now finish }
{
    if forbids(invariant, finish) {
        Reach::End(finish)
    } else {
        Reach::Nothing
    }
}

/// Whether an invariant forbids a walk to end so.
pub(crate) fn forbids(invariant: &Invariant, finish: Finish) -> bool
    ensures { result ≡ is_forbidden invariant.now finish }
{
    match invariant {
        Invariant::LoopFree => matches!(finish, Finish::Repeat),
        Invariant::NoBlackHole => matches!(finish, Finish::Out { .. }),
        Invariant::Forbid { dst, .. } => match finish {
            Finish::AtHost(host) => host == *dst,
            Finish::Repeat | Finish::Out { .. } => false,
        },
    }
}
