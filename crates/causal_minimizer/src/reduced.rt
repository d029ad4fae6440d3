//! Reducing a run to the inputs that cause a violation.
ghost use Rattle.std.specs.Prelude.{◌≡◌, ◌<◌, ◌^◌, length, replicate, IfErr, IfOk, OnOk, false, true};
ghost use Rattle.std.specs.List.{range_with_len};
ghost use Rattle.machine_setup.specs.Setup.{IsValidSetup};
ghost use Rattle.event_world.specs.Fits.{Fits};
ghost use Rattle.event_machine.specs.Legal.{IsLegalRun, world_after};
ghost use Rattle.invariant_check.specs.Network.{IsAsked};
ghost use Rattle.causal_replay.specs.Replay.{IsReplay};
ghost use Rattle.causal_minimizer.specs.Failing.{Fails, IsFound, IsReduction, atoms_of_run};
ghost use Rattle.causal_minimizer.specs.declared.reduced.ReduceNo.TheVariants.{NotViolated};

use crate::marks::atoms_with;
use crate::search::enough;
use crate::trial::{is_violated_in, replayed_with};
use causal_replay::laws::{there_is_one_replay, whole_replay_gives_the_run};
use causal_replay::{Replayed, replay};
use controller_api::Controller;
use event_machine::laws::inputs_are_lines;
use event_machine::{Setup, Trace};
use input_atoms::Atoms;
use input_atoms::laws::every_line_is_in_one_atom;
use input_atoms::pairing::atoms;
use std::alloc::{AllocError, Global};
use thiserror::Error;
use topology::Invariant;

/// A run reduced to some of its inputs.
#[derive(Drop)]
pub struct Reduced<C> {
    /// The inputs that are enough, as atoms: positions of the script that are kept or left out together.
    pub atoms: Atoms,
    /// How many atoms the run has.
    pub of: u32,
    /// The replay with these inputs, which ends in the violation.
    pub replayed: Replayed<C>,
}

/// Why a run can't be reduced.
#[derive(Clone, Copy, Debug, PartialEq, Eq, Error)]
pub enum ReduceNo {
    #[error("the invariant is not violated at the end")]
    NotViolated,
    #[error("out of memory")]
    OutOfMemory,
}

impl From<AllocError> for ReduceNo {
    ghost use Rattle.std.specs.Prelude.{◌≡◌};
    ghost use Rattle.causal_minimizer.specs.declared.reduced.ReduceNo.TheVariants.{OutOfMemory};

    ghost from_gives = { λ _ no. no ≡ OutOfMemory };

    fn from(_: AllocError) -> ReduceNo {
        ReduceNo::OutOfMemory
    }
}

/// Reduces a legal run whose end violates an invariant to atoms of its inputs: the replay that keeps them ends in a violation of the
/// invariant too, and where it is not empty no one of them can be left out.
pub fn reduce<C: Controller>(
    alloc: Global,
    setup: &Setup<C>,
    trace: &Trace,
    invariant: &Invariant,
) -> Result<Reduced<C>, ReduceNo>
    requires setup { IsValidSetup setup.now }
    requires legal { IsLegalRun C.react C.start setup.now trace.now }
    requires asked { IsAsked invariant.now }
    ensures reduced { IfOk result (λ r. IsReduction C.react C.start setup.now trace.now invariant.now r.atoms r.of r.replayed.run r.replayed.absent r.replayed.world) }
    ensures fits { IfOk result (λ r. Fits C.policies setup.now r.replayed.world) }
    ensures violated { OnOk result (IsFound C.react C.start setup.now invariant.now (world_after C.react C.start setup.now trace.now) true) }
    ensures not_violated { IfErr result (λ no. no ≡ NotViolated → IsFound C.react C.start setup.now invariant.now (world_after C.react C.start setup.now trace.now) false) }
{
    inputs_are_lines::<C>();
    every_line_is_in_one_atom();
    let whole = whole_replay(alloc, setup, trace)?;
    if !is_violated_in(alloc, setup, invariant, &whole.world)? {
        return Err(ReduceNo::NotViolated);
    }
    let lines = &setup.script[..whole.world.inputs() as usize];
    let atoms = atoms(alloc, lines)?;
    Ok(reduced_to(alloc, setup, trace, invariant, &atoms)?)
}

// The replay with all lines, which is the run.
fn whole_replay<C: Controller>(
    alloc: Global,
    setup: &Setup<C>,
    trace: &Trace,
) -> Result<Replayed<C>, AllocError>
    requires setup { IsValidSetup setup.now }
    requires legal { IsLegalRun C.react C.start setup.now trace.now }
    ensures replay { IfOk result (λ whole. IsReplay C.react C.start setup.now trace.now.entries (replicate (length setup.now.script) true) whole.run whole.absent whole.world) }
    ensures world { IfOk result (λ whole. whole.world ≡ world_after C.react C.start setup.now trace.now) }
    ensures fits { IfOk result (λ whole. Fits C.policies setup.now whole.world) }
{
    whole_replay_gives_the_run::<C>();
    let keep = vec![in alloc; true; setup.script.len()]?;
    replay(alloc, setup, trace, keep.as_slice())
}

// The run reduced to those of its atoms that are enough.
fn reduced_to<C: Controller>(
    alloc: Global,
    setup: &Setup<C>,
    trace: &Trace,
    invariant: &Invariant,
    atoms: &Atoms,
) -> Result<Reduced<C>, AllocError>
    requires setup { IsValidSetup setup.now }
    requires legal { IsLegalRun C.react C.start setup.now trace.now }
    requires asked { IsAsked invariant.now }
    requires own { atoms.now ≡ atoms_of_run C.react C.start setup.now trace.now invariant.now }
    requires few { length atoms.now < 2 ^ 32 }
    requires all { Fails C.react C.start setup.now trace.now invariant.now (range_with_len 0 (length atoms.now)) true }
    ensures reduced { IfOk result (λ r. IsReduction C.react C.start setup.now trace.now invariant.now r.atoms r.of r.replayed.run r.replayed.absent r.replayed.world) }
    ensures fits { IfOk result (λ r. Fits C.policies setup.now r.replayed.world) }
{
    there_is_one_replay::<C>();
    let numbers = enough(alloc, setup, trace, invariant, atoms)?;
    let replayed = replayed_with(alloc, setup, trace, atoms, numbers.as_slice())?;
    Ok(Reduced {
        atoms: atoms_with(alloc, atoms, numbers.as_slice())?,
        of: atoms.len() as u32,
        replayed,
    })
}
