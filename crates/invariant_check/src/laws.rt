//! Laws of the definitions, each the contract of a function that does nothing.

ghost use Rattle.std.specs.Prelude.{◌≡◌, ◌≢◌, ℕ, [], true};
ghost use Rattle.machine_setup.specs.declared.setup.Setup.{Setup};
ghost use Rattle.of10_match.specs.declared.header.Header.{Header};
ghost use Rattle.topology.specs.declared.invariant.Invariant.{Invariant};
ghost use Rattle.event_world.specs.Fits.{Fits};
ghost use Rattle.event_world.specs.Answers.{network_of};
ghost use Rattle.event_world.specs.World.{Situation};
ghost use Rattle.event_world.specs.declared.net_state.NetState.{NetState};
ghost use Rattle.invariant_check.specs.Network.{IsNet};
ghost use Rattle.invariant_check.specs.Verdict.{IsVerdict, is_forbidden};
ghost use Rattle.invariant_check.specs.declared.walk.Verdict.{Verdict};
ghost use Rattle.invariant_check.specs.declared.walk.Verdict.TheVariants.{Violated};
ghost use Rattle.invariant_check.specs.declared.walk.Walk.{Walk};

/// Of a network and an invariant there is one verdict.
pub fn there_is_one_verdict()
    ensures { (net : NetState) (invariant : Invariant) (one other : Verdict) → IsVerdict net invariant one
        → IsVerdict net invariant other → one ≡ other }
{
    of10_match::laws::headers_in_field_order();
}

/// The walk of a verdict ends as its invariant forbids, and there is a node on it.
pub fn a_verdict_ends_as_its_invariant_forbids()
    ensures ends { (net : NetState) (invariant : Invariant) (host : ℕ) (header : Header) (walk : Walk)
        → IsVerdict net invariant (Violated host header walk) → is_forbidden invariant walk.finish ≡ true }
    ensures begins { (net : NetState) (invariant : Invariant) (host : ℕ) (header : Header) (walk : Walk)
        → IsVerdict net invariant (Violated host header walk) → walk.nodes ≢ [] }
{}

/// The network of a world can be judged, where the world is one of its setup.
pub fn the_network_of_a_world_can_be_judged<C>()
    ensures { (policies : C → ℕ) (setup : Setup C) (world : Situation C) → Fits policies setup world → IsNet (network_of setup.topology world) }
{}
