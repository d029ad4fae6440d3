//! Laws of the definitions, each the contract of a function that does nothing.
ghost use Rattle.std.specs.Prelude.{◌≡◌, ℕ, List, length};
ghost use Rattle.std.specs.List.{remove};
ghost use Rattle.machine_setup.specs.declared.setup.Setup.{Setup};
ghost use Rattle.topology.specs.declared.invariant.Invariant.{Invariant};
ghost use Rattle.event_world.specs.World.{Situation};
ghost use Rattle.event_machine.specs.declared.trace.Trace.{Trace};
ghost use Rattle.causal_replay.specs.declared.replayed.Taken.{Taken};
ghost use Rattle.input_atoms.specs.Cutting.{NoneFails};
ghost use Rattle.causal_minimizer.specs.Failing.{AreEnough, Fails, IsReduction};

use causal_replay::laws::there_is_one_replay;
use invariant_check::laws::there_is_one_verdict;

/// Of the atoms to which a run is reduced none can be left out: the replay that keeps the others alone does not end in a violation.
pub fn no_atom_can_be_left_out<C: controller_api::Controller>()
    ensures { (setup : Setup C) (trace : Trace) (invariant : Invariant) (numbers : List ℕ)
        → AreEnough C.react C.start setup trace invariant numbers
        → NoneFails (Fails C.react C.start setup trace invariant) (remove numbers) (length numbers) }
{}

/// A run is reduced for an invariant in one way at most: to the same atoms, with the same replay.
pub fn there_is_one_reduction<C: controller_api::Controller>()
    ensures { (setup : Setup C) (trace : Trace) (invariant : Invariant) (atoms others : List (List ℕ)) (of other_of : ℕ) (run other_run : List Taken)
        (absent other_absent : List ℕ) (world other_world : Situation C)
        → IsReduction C.react C.start setup trace invariant atoms of run absent world
        → IsReduction C.react C.start setup trace invariant others other_of other_run other_absent other_world
        → (atoms ≡ others) × (of ≡ other_of) × (run ≡ other_run) × (absent ≡ other_absent) × (world ≡ other_world) }
{
    there_is_one_replay::<C>();
    there_is_one_verdict();
}
