//! What the program says of a log.
ghost use Rattle.std.specs.Prelude.{◌≡◌, ◌≤◌, All, IfOk, length};
ghost use Rattle.machine_setup.specs.Setup.{IsValidSetup};
ghost use Rattle.event_world.specs.Fits.{Fits};
ghost use Rattle.event_machine.specs.Legal.{IsLegalRun, world_after};
ghost use Rattle.controller_host.specs.Hosting.{hosting, policies_of, starting};
ghost use Rattle.invariant_check.specs.Network.{IsAsked};
ghost use Rattle.sts_cli.specs.Answer.{IsJob, IsJudged};
ghost use Rattle.sts_cli.specs.Recorded.{IsWholeReplay};
ghost use Rattle.sts_cli.specs.Sequences.{IsSequence};

use crate::answer::Answer;
use crate::lines::wrong_line;
use crate::sequence::{Telling, concluded};
use crate::status::Status;
use crate::verdicts::{checked, first_violated, verdicts_at};
use crate::words::Job;
use causal_replay::replay;
use controller_host::Host;
use event_machine::{LogNo, check_legal};
use event_world::World;
use log_doc::Log;
use report_text::replay_lines;
use std::alloc::{AllocError, Global};

/// What is said of a log: what is asked for, where it is a legal run of its scenario, and else what is wrong with it.
pub(crate) fn judged(alloc: Global, job: Job, log: &Log) -> Result<Answer, AllocError>
    requires setup { IsValidSetup log.now.scenario.setup }
    requires asked { All IsAsked log.now.scenario.invariants }
    requires few { length log.now.scenario.invariants ≤ 32 }
    ensures { IfOk result (λ answer. IsJudged job log.now answer.status.code answer.text.items) }
{
    match check_legal(alloc, &log.scenario.setup, &log.trace) {
        Ok(world) => done(alloc, job, log, &world),
        Err(LogNo::OutOfMemory) => Err(AllocError),
        Err(why) => Ok(Answer {
            status: Status::NOT_LEGAL,
            text: wrong_line(alloc, why)?.into_bytes(),
        }),
    }
}

// What is said of a legal run.
fn done(alloc: Global, job: Job, log: &Log, world: &World<Host>) -> Result<Answer, AllocError>
    requires setup { IsValidSetup log.now.scenario.setup }
    requires asked { All IsAsked log.now.scenario.invariants }
    requires few { length log.now.scenario.invariants ≤ 32 }
    requires legal { IsLegalRun hosting starting log.now.scenario.setup log.now.trace }
    requires world { world.now ≡ world_after hosting starting log.now.scenario.setup log.now.trace }
    requires fits { Fits policies_of log.now.scenario.setup world.now }
    ensures { IfOk result (λ answer. IsJob job log.now answer.status.code answer.text.items) }
{
    match job {
        Job::Check => checked(alloc, &log.scenario, world),
        Job::Replay => whole_replay(alloc, log),
        Job::Reduce => reduced(alloc, log, world),
    }
}

// The replay of a legal run with all lines of its script.
fn whole_replay(alloc: Global, log: &Log) -> Result<Answer, AllocError>
    requires setup { IsValidSetup log.now.scenario.setup }
    requires asked { All IsAsked log.now.scenario.invariants }
    requires few { length log.now.scenario.invariants ≤ 32 }
    requires legal { IsLegalRun hosting starting log.now.scenario.setup log.now.trace }
    ensures code { IfOk result (λ answer. answer.status.code ≡ 0) }
    ensures text { IfOk result (λ answer. IsWholeReplay log.now answer.text.items) }
{
    let Log { scenario, trace } = log;
    let keep = vec![in alloc; true; scenario.setup.script.len()]?;
    let replayed = replay(alloc, &scenario.setup, trace, keep.as_slice())?;
    let verdicts = verdicts_at(alloc, scenario, &replayed.world)?;
    Ok(Answer {
        status: Status::DONE,
        text: replay_lines(alloc, &replayed, first_violated(&verdicts))?,
    })
}

// The inputs of a legal run that are enough for the first invariant that is violated at its end.
fn reduced(alloc: Global, log: &Log, world: &World<Host>) -> Result<Answer, AllocError>
    requires setup { IsValidSetup log.now.scenario.setup }
    requires asked { All IsAsked log.now.scenario.invariants }
    requires few { length log.now.scenario.invariants ≤ 32 }
    requires legal { IsLegalRun hosting starting log.now.scenario.setup log.now.trace }
    requires world { world.now ≡ world_after hosting starting log.now.scenario.setup log.now.trace }
    requires fits { Fits policies_of log.now.scenario.setup world.now }
    ensures { IfOk result (λ answer. IsSequence log.now.scenario log.now.trace answer.status.code answer.text.items) }
{
    let Log { scenario, trace } = log;
    let verdicts = verdicts_at(alloc, scenario, world)?;
    concluded(
        alloc,
        Telling::Whole,
        Status::NOT_VIOLATED,
        scenario,
        trace,
        &verdicts,
    )
}
