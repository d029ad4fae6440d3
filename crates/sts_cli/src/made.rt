//! Made-up scenarios: the word `gen`.
ghost use Rattle.std.specs.Prelude.{◌≡◌, ◌≤◌, IfOk};
ghost use Rattle.sts_cli.specs.Finding.{IsMade};

use crate::answer::Answer;
use crate::lines::made_lines;
use crate::sequence::{Telling, judgement};
use run_recorder::{OpenGate, Recorded, record_to_end};
use scenario_doc::Scenario;
use scenario_gen::{Generated, generate};
use std::alloc::{AllocError, Global};
use std::thread::Threads;

/// What a run of a made-up scenario comes to, summed up: always the same for a seed and a number of switches.
pub(crate) fn made<R: Threads + Sync>(
    rt: &R,
    alloc: Global,
    seed: u64,
    size: u16,
) -> Result<Answer, AllocError>
    requires least { 3 ≤ size }
    requires most { size ≤ 64 }
    ensures { IfOk result (λ answer. IsMade seed size answer.status.code answer.text.items) }
{
    let Generated { setup, invariants } = generate(alloc, seed, size)?;
    let scenario = Scenario { setup, invariants };
    let mut gates = [OpenGate::new()];
    let Recorded { trace, world } = record_to_end(rt, alloc, &scenario.setup, &mut gates)?;
    let Answer { status, text: rest } = judgement(
        alloc,
        Telling::Counts,
        &scenario,
        &trace,
        &world,
    )?;
    let mut text = made_lines(alloc, seed, size, &trace)?;
    text.extend_from_slice(rest.as_slice())?;
    Ok(Answer { status, text })
}
