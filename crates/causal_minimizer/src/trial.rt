//! One question of a reduction: whether the replay with some atoms ends in a violation.
ghost use Rattle.std.specs.Prelude.{◌≡◌, ◌^◌, ◌<◌, IfOk, OnOk, [], length, true};
ghost use Rattle.std.specs.List.{range_with_len};
ghost use Rattle.machine_setup.specs.Setup.{IsValidSetup};
ghost use Rattle.event_world.specs.Fits.{Fits};
ghost use Rattle.event_machine.specs.Legal.{IsLegalRun};
ghost use Rattle.topology.specs.declared.invariant.Invariant.{Invariant};
ghost use Rattle.invariant_check.specs.Network.{IsAsked};
ghost use Rattle.causal_minimizer.specs.Failing.{AreEnough, Fails, IsFound, IsReplayWith, atoms_of_run, atoms_with};

use crate::marks::kept_with;
use causal_replay::{Replayed, replay};
use controller_api::Controller;
use event_machine::{Setup, Trace, World};
use input_atoms::{Atoms, Probe};
use invariant_check::judge::verdict;
use invariant_check::laws::the_network_of_a_world_can_be_judged;
use std::alloc::{AllocError, Global};
use topology::Invariant;

/// What asks for violations: a closure, which a controller that may go to other threads can be behind.
#[derive(Drop)]
pub(crate) struct Trial<F> {
    pub(crate) ask: F,
}

impl<F: Fn(&[u32]) -> Result<bool, AllocError>> Probe for Trial<F> {
    ghost use Rattle.std.specs.Prelude.{Ok};
    ghost use Rattle.std.specs.Fn.{FnReturnsAt};

    ghost fails_at = { λ trial keep failed. FnReturnsAt F.Fn trial.ask keep (Ok failed) };

    ghost can_ask = { λ trial. F.IsAlwaysCallable trial.ask };

    fn fails(&mut self, keep: &[u32]) -> Result<bool, AllocError> {
        (self.ask)(keep)
    }
}

/// Whether the replay with the atoms of these numbers ends in a violation.
pub(crate) fn ends_in_violation<C: Controller>(
    alloc: Global,
    setup: &Setup<C>,
    trace: &Trace,
    invariant: &Invariant,
    atoms: &Atoms,
    numbers: &[u32],
) -> Result<bool, AllocError>
    requires setup { IsValidSetup setup.now }
    requires legal { IsLegalRun C.react C.start setup.now trace.now }
    requires asked { IsAsked invariant.now }
    requires own { atoms.now ≡ atoms_of_run C.react C.start setup.now trace.now invariant.now }
    ensures { IfOk result (λ failed. Fails C.react C.start setup.now trace.now invariant.now numbers.now failed) }
{
    let replayed = replayed_with(alloc, setup, trace, atoms, numbers)?;
    is_violated_in(alloc, setup, invariant, &replayed.world)
}

/// The replay with the atoms of these numbers.
pub(crate) fn replayed_with<C: Controller>(
    alloc: Global,
    setup: &Setup<C>,
    trace: &Trace,
    atoms: &Atoms,
    numbers: &[u32],
) -> Result<Replayed<C>, AllocError>
    requires setup { IsValidSetup setup.now }
    requires legal { IsLegalRun C.react C.start setup.now trace.now }
    ensures replay { IfOk result (λ replayed. (invariant : Invariant) → IsReplayWith C.react C.start setup.now trace.now invariant
        (atoms_with atoms.now numbers.now) replayed.run replayed.absent replayed.world) }
    ensures fits { IfOk result (λ replayed. Fits C.policies setup.now replayed.world) }
{
    let keep = kept_with(alloc, setup.script.len(), atoms, numbers)?;
    replay(alloc, setup, trace, keep.as_slice())
}

/// Whether the invariant is violated in a world of the setup.
pub(crate) fn is_violated_in<C: Controller>(
    alloc: Global,
    setup: &Setup<C>,
    invariant: &Invariant,
    world: &World<C>,
) -> Result<bool, AllocError>
    requires asked { IsAsked invariant.now }
    requires fits { Fits C.policies setup.now world.now }
    ensures { IfOk result (λ violated. IsFound C.react C.start setup.now invariant.now world.now violated) }
{
    the_network_of_a_world_can_be_judged::<C>();
    let network = world.network(setup)?;
    let verdict = verdict(alloc, &network, invariant)?;
    Ok(verdict.is_violated())
}
