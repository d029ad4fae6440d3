//! The lines of answers.
ghost use Rattle.std.specs.Prelude.{◌≡◌, ◌++◌, IfOk, OnOk, string_bytes};
ghost use Rattle.report_text.specs.Replays.{absent_line};
ghost use Rattle.report_text.specs.Sequences.{count_line};
ghost use Rattle.sts_cli.specs.Lines.{calm_line, end_word, made_line, refused_line, run_line, wrong_line};

use event_machine::{End, LogNo, Trace};
use input_atoms::{Atoms, Indices};
use std::alloc::{AllocError, Global};

/// What is wrong with a log that is no legal run.
pub(crate) fn wrong_line(alloc: Global, why: LogNo) -> Result<String, AllocError>
    ensures { IfOk result (λ text. string_bytes text ≡ wrong_line why) }
{
    match why {
        LogNo::NotLegal { at } => format!(in alloc; "not legal at {at}\n"),
        LogNo::WorkerOrder { at, want, has } => {
            format!(in alloc; "worker order at {at} want {want} has {has}\n")
        }
        LogNo::EndWrong => String::from_str(alloc, "end wrong\n"),
        LogNo::OutOfMemory => Ok(String::new(alloc)),
    }
}

/// Which rule a document breaks, and where. The path is written as it is.
pub(crate) fn refused_line(alloc: Global, number: u8, path: &[u8]) -> Result<Vec<u8>, AllocError>
    ensures { IfOk result (λ line. line.items ≡ refused_line number path.now) }
{
    let mut line = format!(in alloc; "refused {number} at ")?.into_bytes();
    line.extend_from_slice(path)?;
    line.push(b'\n')?;
    Ok(line)
}

/// That no invariant is violated.
pub(crate) fn calm_line(alloc: Global) -> Result<Vec<u8>, AllocError>
    ensures { IfOk result (λ line. line.items ≡ calm_line) }
{
    Ok(String::from_str(alloc, "no violation\n")?.into_bytes())
}

/// Which scenario was made, how many entries its run has, and how that ends.
pub(crate) fn made_lines(
    alloc: Global,
    seed: u64,
    size: u16,
    trace: &Trace,
) -> Result<Vec<u8>, AllocError>
    ensures { IfOk result (λ lines. lines.items ≡ made_line seed size ++ run_line trace.now) }
{
    let entries = trace.entries.len();
    let end = end_word(trace.end);
    let lines = format!(in alloc; "gen {seed} {size}\nentries {entries} end {end}\n")?;
    Ok(lines.into_bytes())
}

fn end_word(end: End) -> &'static str
    ensures { result.now ≡ end_word end }
{
    match end {
        End::Quiet => "quiet",
        End::Full => "full",
    }
}

/// How many atoms are left of how many, and how many entries are absent from their replay.
pub(crate) fn count_lines(
    alloc: Global,
    atoms: &Atoms,
    of: u32,
    absent: &Indices,
) -> Result<Vec<u8>, AllocError>
    ensures { IfOk result (λ lines. lines.items ≡ count_line atoms.now of ++ absent_line absent.now) }
{
    let left = atoms.len();
    let missed = absent.len();
    let lines = format!(in alloc; "sequence {left} atoms of {of}\nabsent {missed}\n")?;
    Ok(lines.into_bytes())
}
