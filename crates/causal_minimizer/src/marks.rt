//! The atoms of some numbers, and which lines of a script are kept with them.
ghost use Rattle.std.specs.Prelude.{◌≡◌, [], slice_index_or, IfOk};
ghost use Rattle.causal_minimizer.specs.Failing.{atoms_with, kept_with};
ghost use Rattle.causal_minimizer.specs.Marking.{marked};

use input_atoms::{Atoms, Indices};
use listed::{Listed, Plain};
use std::alloc::{AllocError, Global};

/// Which lines of a script of so many are kept with the atoms of these numbers. A number past the last atom stands for no line.
pub(crate) fn kept_with(
    alloc: Global,
    lines: usize,
    atoms: &Atoms,
    numbers: &[u32],
) -> Result<Vec<bool>, AllocError>
    ensures { IfOk result (λ keep. keep.items ≡ kept_with lines (atoms_with atoms.now numbers.now)) }
{
    let mut keep = vec![in alloc; false; lines]?;
    for number in numbers {
        let number = *number as usize;
        if number < atoms.len() {
            mark(&mut keep, atoms[number].as_slice());
        }
    }
    Ok(keep)
}

// Marks the lines of an atom.
fn mark(keep: &mut [bool], atom: &[u32])
    ensures { keep.new ≡ marked atom.now keep.old }
{
    for position in atom {
        let position = *position as usize;
        if position < keep.len() {
            keep[position] = true;
        }
    }
}

/// The atoms of these numbers.
pub(crate) fn atoms_with(alloc: Global, atoms: &Atoms, numbers: &[u32]) -> Result<Atoms, AllocError>
    ensures { IfOk result (λ chosen. chosen ≡ atoms_with atoms.now numbers.now) }
{
    let mut chosen = Listed::new(alloc);
    for number in numbers {
        chosen.push(atom_at(alloc, atoms, *number as usize)?)?;
    }
    Ok(chosen)
}

// The atom of a number; past the last one, that of no line.
fn atom_at(alloc: Global, atoms: &Atoms, number: usize) -> Result<Indices, AllocError>
    ensures { IfOk result (λ atom. atom ≡ slice_index_or atoms.now number []) }
{
    if number < atoms.len() {
        atoms[number].copy()
    } else {
        Ok(Listed::new(alloc))
    }
}
