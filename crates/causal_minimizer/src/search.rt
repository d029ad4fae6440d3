//! Which atoms of a run are enough for a violation.
ghost use Rattle.std.specs.Prelude.{◌≡◌, ◌<◌, ◌^◌, [], length, IfOk, true};
ghost use Rattle.std.specs.List.{range_with_len};
ghost use Rattle.machine_setup.specs.Setup.{IsValidSetup};
ghost use Rattle.event_machine.specs.Legal.{IsLegalRun};
ghost use Rattle.invariant_check.specs.Network.{IsAsked};
ghost use Rattle.input_atoms.specs.Ddmin.{IsReduced};
ghost use Rattle.causal_minimizer.specs.Failing.{AreEnough, Fails, atoms_of_run};

use crate::trial::{Trial, ends_in_violation};
use controller_api::Controller;
use event_machine::{Setup, Trace};
use input_atoms::{Atoms, Indices, ddmin};
use listed::Listed;
use std::alloc::{AllocError, Global};
use topology::Invariant;

/// The numbers of the atoms that are enough: none, where nothing kept fails already, else what delta debugging leaves of all.
pub(crate) fn enough<C: Controller>(
    alloc: Global,
    setup: &Setup<C>,
    trace: &Trace,
    invariant: &Invariant,
    atoms: &Atoms,
) -> Result<Indices, AllocError>
    requires setup { IsValidSetup setup.now }
    requires legal { IsLegalRun C.react C.start setup.now trace.now }
    requires asked { IsAsked invariant.now }
    requires own { atoms.now ≡ atoms_of_run C.react C.start setup.now trace.now invariant.now }
    requires few { length atoms.now < 2 ^ 32 }
    requires all { Fails C.react C.start setup.now trace.now invariant.now (range_with_len 0 (length atoms.now)) true }
    ensures enough { IfOk result (AreEnough C.react C.start setup.now trace.now invariant.now) }
    ensures fails { IfOk result (λ numbers. Fails C.react C.start setup.now trace.now invariant.now numbers true) }
{
    if ends_in_violation(alloc, setup, trace, invariant, atoms, &[])? {
        return Ok(Listed::new(alloc));
    }
    left_of_all(alloc, setup, trace, invariant, atoms)
}

// What delta debugging leaves of all atoms.
fn left_of_all<C: Controller>(
    alloc: Global,
    setup: &Setup<C>,
    trace: &Trace,
    invariant: &Invariant,
    atoms: &Atoms,
) -> Result<Indices, AllocError>
    requires setup { IsValidSetup setup.now }
    requires legal { IsLegalRun C.react C.start setup.now trace.now }
    requires asked { IsAsked invariant.now }
    requires own { atoms.now ≡ atoms_of_run C.react C.start setup.now trace.now invariant.now }
    requires few { length atoms.now < 2 ^ 32 }
    ensures { IfOk result (IsReduced (Fails C.react C.start setup.now trace.now invariant.now) (range_with_len 0 (length atoms.now)) 2) }
{
    let mut trial = Trial {
        ask: |keep: &[u32]|
            requires setup { IsValidSetup setup.now }
            requires legal { IsLegalRun C.react C.start setup.now trace.now }
            requires asked { IsAsked invariant.now }
            requires own { atoms.now ≡ atoms_of_run C.react C.start setup.now trace.now invariant.now }
            ensures { IfOk result (λ failed. Fails C.react C.start setup.entry.now trace.entry.now invariant.entry.now keep.now failed) }
        { ends_in_violation(alloc, setup, trace, invariant, atoms, keep) },
    };
    ddmin(alloc, &mut trial, atoms.len() as u32)
}
