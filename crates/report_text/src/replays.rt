//! The lines of a replay.
ghost use Rattle.std.specs.Prelude.{◌≡◌, ◌++◌, IfOk, OnOk, string_bytes};
ghost use Rattle.report_text.specs.Replays.{end_line, reason_text, replay_text, step_line, step_lines};

use crate::events::push_event;
use causal_replay::{Replayed, Taken, Why};
use event_machine::Event;
use std::alloc::{AllocError, Global};

/// The lines of a replay: its steps, how many entries are absent from it, and which invariant is violated at its end, if one is.
pub fn replay_lines<C>(
    alloc: Global,
    replayed: &Replayed<C>,
    end: Option<u32>,
) -> Result<Vec<u8>, AllocError>
    ensures { IfOk result (λ text. text.items ≡ replay_text replayed.now.run replayed.now.absent end) }
{
    let text = replay_text(
        alloc,
        replayed.run.as_slice(),
        replayed.absent.as_slice(),
        end,
    )?;
    Ok(text.into_bytes())
}

pub(crate) fn replay_text(
    alloc: Global,
    run: &[Taken],
    absent: &[u32],
    end: Option<u32>,
) -> Result<String, AllocError>
    ensures { IfOk result (λ text. string_bytes text ≡ replay_text run.now absent.now end) }
{
    let mut text = String::new(alloc);
    let steps = run.len();
    let missed = absent.len();
    writeln!(text, "replay {steps} steps")?;
    push_steps(&mut text, run)?;
    writeln!(text, "absent {missed}")?;
    push_end(&mut text, end)?;
    Ok(text)
}

// How the network stands at the end.
fn push_end(text: &mut String, end: Option<u32>) -> Result<(), AllocError>
    ensures { OnOk result (string_bytes text.new ≡ string_bytes text.old ++ end_line end) }
{
    match end {
        None => writeln!(text, "end holds"),
        Some(invariant) => writeln!(text, "end violated {invariant}"),
    }
}

fn push_steps(text: &mut String, run: &[Taken]) -> Result<(), AllocError>
    ensures { OnOk result (string_bytes text.new ≡ string_bytes text.old ++ step_lines run.now) }
{
    for (at, step) in run.iter().enumerate() {
        push_step(text, at, step)?;
    }
    Ok(())
}

fn push_step(text: &mut String, at: usize, step: &Taken) -> Result<(), AllocError>
    ensures { OnOk result (string_bytes text.new ≡ string_bytes text.old ++ step_line at step.now) }
{
    write!(text, "{at} ")?;
    push_reason(text, step.why, &step.event)?;
    text.push('\n')
}

// Why an event was taken, and which.
fn push_reason(text: &mut String, why: Why, event: &Event) -> Result<(), AllocError>
    ensures { OnOk result (string_bytes text.new ≡ string_bytes text.old ++ reason_text why event.now) }
{
    match why {
        Why::Input => return write!(text, "input {}", event.number()),
        Why::Expected { entry } => write!(text, "expected {entry} ")?,
        Why::Extra => write!(text, "extra ")?,
    }
    push_event(text, event)
}
