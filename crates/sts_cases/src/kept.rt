//! Replays of a log with some of its inputs.
use causal_replay::{Replayed, replay};
use controller_host::Host;
use event_machine::check_legal;
use log_doc::{Log, read_log};
use report_text::replay_lines;
use std::alloc::{AllocError, Global};
use std::fs::Files;
use std::io::Print;
use std::{fs, io};

/// Prints the replay of a log that keeps the lines of its script at these positions, and which entries are absent from it.
pub(crate) fn print_kept<R: Files + AllocGlobal + Print>(
    rt: &R,
    positions: &str,
    file: &str,
) -> io::Result<()> {
    let document = fs::read(rt, file)?;
    let Some(replayed) = kept(rt.alloc(), positions, document.as_slice())? else {
        return println!(rt; "no legal run");
    };
    rt.write_all(replay_lines(rt.alloc(), &replayed, None)?.as_slice())?;
    for place in replayed.absent.iter() {
        println!(rt; "entry {place} is absent")?;
    }
    Ok(())
}

// The replay of a log that keeps the lines of its script at these positions; none where the document is no log of a legal run.
fn kept(
    alloc: Global,
    positions: &str,
    document: &[u8],
) -> Result<Option<Replayed<Host>>, AllocError> {
    let Ok(log) = read_log(alloc, document) else {
        return Ok(None);
    };
    let Log { scenario, trace } = &log;
    let Ok(_) = check_legal(alloc, &scenario.setup, trace) else {
        return Ok(None);
    };
    let keep = flags(alloc, scenario.setup.script.len(), positions)?;
    if keep.len() != scenario.setup.script.len() {
        return Ok(None);
    }
    Ok(Some(replay(alloc, &scenario.setup, trace, keep.as_slice())?))
}

// Which of so many lines stand at these positions.
fn flags(alloc: Global, lines: usize, positions: &str) -> Result<Vec<bool>, AllocError> {
    let mut flags = vec![in alloc; false; lines]?;
    for position in positions.split(',') {
        mark(flags.as_mut_slice(), position);
    }
    Ok(flags)
}

// Marks a position, if there is such a one.
fn mark(keep: &mut [bool], position: &str) {
    if let Ok(position) = position.parse::<usize>() {
        if let Some(kept) = keep.get_mut(position) {
            *kept = true;
        }
    }
}
