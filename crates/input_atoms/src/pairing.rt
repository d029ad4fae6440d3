//! Which lines of a script are dropped or kept together.
ghost use Rattle.std.specs.Prelude.{◌≡◌, ◌<◌, ◌^◌, length, IfOk, IfSome};
ghost use Rattle.std.specs.Option.{is_some};
ghost use Rattle.input_atoms.specs.Atoms.{are_one, atom_at, atoms_of, failure_of, recovery_of};

use crate::reduction::{Atoms, Indices};
use crate::thing::Thing;
use listed::Listed;
use machine_setup::Line;
use std::alloc::{AllocError, Global};

/// The atoms of a script. A failure and the next recovery of the same thing are one atom where no other failure of that thing
/// lies between them; every other line is an atom by itself. An atom has one or two places, which ascend, and atoms are
/// ordered by their first place.
#[tactic(auto, using(crate::proofs::Pairs::more_some, crate::proofs::Pairs::more_none))]
pub fn atoms(alloc: Global, script: &[Line]) -> Result<Atoms, AllocError>
    requires { length script.now < 2 ^ 32 }
    ensures { IfOk result (λ atoms. atoms ≡ atoms_of script.now) }
{
    let mut atoms = Listed::new(alloc);
    for at in 0..script.len() {
        if let Some(atom) = atom_at(alloc, script, at)? {
            atoms.push(atom)?;
        }
    }
    Ok(atoms)
}

// The atom that begins at a place, if one does.
fn atom_at(alloc: Global, script: &[Line], at: usize) -> Result<Option<Indices>, AllocError>
    requires within { at < length script.now }
    requires few { length script.now < 2 ^ 32 }
    ensures { IfOk result (λ atom. atom ≡ atom_at script.now at) }
{
    if has_failure(script, at) {
        return Ok(None);
    }
    let mut atom = Listed::new(alloc);
    atom.push(at as u32)?;
    if let Some(later) = recovery(script, at) {
        atom.push(later as u32)?;
    }
    Ok(Some(atom))
}

// Whether the line at a place brings back what an earlier line failed, and is one with it.
#[tactic(auto, using(crate::proofs::Pairs::find_none, crate::proofs::Pairs::find_here))]
fn has_failure(script: &[Line], later: usize) -> bool
    requires { later < length script.now }
    ensures { result ≡ is_some (failure_of script.now later) }
{
    for first in 0..later {
        if are_one(script, first, later) {
            return true;
        }
    }
    false
}

// The place of the recovery that is one with the line at a place.
#[tactic(auto, using(crate::proofs::Pairs::find_none, crate::proofs::Pairs::find_here))]
fn recovery(script: &[Line], first: usize) -> Option<usize>
    requires { first < length script.now }
    ensures value { result ≡ recovery_of script.now first }
    ensures within { IfSome result (λ later. later < length script.now) }
{
    for later in first + 1..script.len() {
        if are_one(script, first, later) {
            return Some(later);
        }
    }
    None
}

// Whether the later line brings back what the first one fails, and no line between them is about the same thing.
#[tactic(auto, using(crate::proofs::Pairs::pair_of_some, crate::proofs::Pairs::pair_of_none))]
fn are_one(script: &[Line], first: usize, later: usize) -> bool
    requires order { first < later }
    requires within { later < length script.now }
    ensures { result ≡ are_one script.now first later }
{
    match Thing::failed(&script[first].input) {
        Some(thing) => thing.is_back_by(&script[later])
            && !thing.is_changed_among(&script[first + 1..later]),
        None => false,
    }
}
