//! The lines of a reduced script.
ghost use Rattle.std.specs.Prelude.{◌≡◌, ◌++◌, ◌==◌, [], IfOk, OnOk, string_bytes, if◌then◌else◌};
ghost use Rattle.std.specs.List.{list_any};
ghost use Rattle.report_text.specs.Sequences.{input_line, input_lines, is_kept, sequence_text};

use input_atoms::{Atoms, Indices};
use machine_setup::Line;
use scenario_doc::line_text;
use std::alloc::{AllocError, Global};

/// The lines of a reduced script: how many of its atoms are left, and the lines of the script that are in them.
pub fn sequence_lines(
    alloc: Global,
    script: &[Line],
    atoms: &Atoms,
    of: u32,
) -> Result<Vec<u8>, AllocError>
    ensures { IfOk result (λ text. text.items ≡ sequence_text script.now atoms.now of) }
{
    let mut text = String::new(alloc);
    let left = atoms.len();
    writeln!(text, "sequence {left} atoms of {of}")?;
    push_inputs(alloc, &mut text, script, atoms)?;
    Ok(text.into_bytes())
}

fn push_inputs(
    alloc: Global,
    text: &mut String,
    script: &[Line],
    atoms: &Atoms,
) -> Result<(), AllocError>
    ensures { OnOk result (string_bytes text.new ≡ string_bytes text.old ++ input_lines atoms.now script.now) }
{
    for (place, line) in script.iter().enumerate() {
        push_kept(alloc, text, atoms, place, line)?;
    }
    Ok(())
}

fn push_kept(
    alloc: Global,
    text: &mut String,
    atoms: &Atoms,
    place: usize,
    line: &Line,
) -> Result<(), AllocError>
    ensures { OnOk result (string_bytes text.new ≡ string_bytes text.old ++ (if is_kept atoms.now place then input_line place line.now else [])) }
{
    if !is_kept(atoms, place) {
        return Ok(());
    }
    push_input(alloc, text, place, line)
}

fn push_input(alloc: Global, text: &mut String, place: usize, line: &Line) -> Result<(), AllocError>
    ensures { OnOk result (string_bytes text.new ≡ string_bytes text.old ++ input_line place line.now) }
{
    let line = line_text(alloc, line)?;
    writeln!(text, "input {place} {line}")
}

// Whether the line at a place is in one of the atoms.
fn is_kept(atoms: &Atoms, place: usize) -> bool
    ensures { result ≡ is_kept atoms.now place }
{
    atoms.iter().any(|atom| has(atom, place))
}

// Whether the line at a place is in an atom.
fn has(atom: &Indices, place: usize) -> bool
    ensures { result ≡ list_any (λ at. at == place) atom.now }
{
    atom.iter().any(|at| *at as usize == place)
}
