//! What must hold of a network.
ghost use Rattle.listed.specs.Plain.{plain};

use listed::Plain;
use of10_match::Match;

/// A promise about the forwarding state, judged over every packet header.
#[derive(Clone, Copy, Debug)]
pub enum Invariant {
    /// No packet from a host comes to the same port with the same header twice.
    LoopFree,
    /// No packet from a host is sent out of a port that an action names, or back out of its own, where nothing takes it. What
    /// FLOOD and ALL send does not count.
    NoBlackHole,
    /// No packet that host `src` sends and the match takes comes to host `dst`.
    Forbid { src: u16, dst: u16, matches: Match },
}

impl Plain for Invariant {
    fn same(&self, other: &Self) -> bool {
        match (self, other) {
            (Invariant::LoopFree, Invariant::LoopFree) => true,
            (Invariant::NoBlackHole, Invariant::NoBlackHole) => true,
            (
                Invariant::Forbid { src, dst, matches },
                Invariant::Forbid {
                    src: other_src,
                    dst: other_dst,
                    matches: other_matches,
                },
            ) => src == other_src && dst == other_dst && Plain::same(matches, other_matches),
            _ => false,
        }
    }

    ghost clones = { Prim.search plain };
}
