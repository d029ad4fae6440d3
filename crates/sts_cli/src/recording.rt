//! Runs of a scenario that its workers record: the words `record` and `find`.
ghost use Rattle.std.specs.Prelude.{◌≡◌, ◌++◌, ◌≤◌, ℕ, List, All, IfOk, length};
ghost use Rattle.machine_setup.specs.Setup.{IsValidSetup};
ghost use Rattle.event_machine.specs.Legal.{IsLegalRun, world_after};
ghost use Rattle.event_world.specs.Fits.{Fits};
ghost use Rattle.controller_host.specs.Hosting.{hosting, policies_of, starting};
ghost use Rattle.invariant_check.specs.Network.{IsAsked};
ghost use Rattle.run_recorder.specs.AtOnce.{TellsByPasses};
ghost use Rattle.scenario_doc.specs.WrittenScenario.{IsWritable};
ghost use Rattle.sts_cli.specs.Answer.{IsAim};
ghost use Rattle.sts_cli.specs.Recorded.{IsLogText, IsRecorded};
ghost use Rattle.sts_cli.specs.Sequences.{IsJudgement};
ghost use Rattle.sts_cli.specs.declared.sequence.Telling.TheVariants.{Whole};

use crate::answer::Answer;
use crate::sequence::{Telling, judgement};
use crate::status::Status;
use crate::words::Aim;
use causal_replay::laws::a_legal_run_replays_whole;
use controller_host::Host;
use event_world::World;
use log_doc::laws::a_legal_run_can_be_written;
use log_doc::{Log, write_log};
use run_recorder::{Gate, Recorded, record_to_end};
use scenario_doc::Scenario;
use std::alloc::{AllocError, Global};
use std::thread::Threads;

/// The log of a run that was recorded, its line, and the world at its end.
#[derive(Drop)]
struct Recording {
    log: Log,
    line: Vec<u8>,
    world: World<Host>,
}

/// What is made of a scenario by a run of it that its workers record.
pub(crate) fn recorded<R: Threads + Sync, G: Gate>(
    rt: &R,
    alloc: Global,
    aim: Aim,
    scenario: Scenario,
    gates: &mut [G],
) -> Result<Answer, AllocError>
    requires setup { IsValidSetup scenario.setup }
    requires writable { IsWritable scenario }
    requires asked { All IsAsked scenario.invariants }
    requires few { length scenario.invariants ≤ 32 }
    requires gates { length gates.old ≡ 8 }
    ensures { IfOk result (λ answer. IsAim (λ setup entries. TellsByPasses G.passes setup gates.old gates.new entries) aim scenario answer.status.code answer.text.items) }
{
    a_legal_run_replays_whole::<Host>();
    let recording = run_of(rt, alloc, scenario, gates)?;
    match aim {
        Aim::Find => found(alloc, recording),
        Aim::Record => Ok(Answer {
            status: Status::DONE,
            text: recording.line,
        }),
    }
}

// A run of a scenario that its workers record.
fn run_of<R: Threads + Sync, G: Gate>(
    rt: &R,
    alloc: Global,
    scenario: Scenario,
    gates: &mut [G],
) -> Result<Recording, AllocError>
    requires setup { IsValidSetup scenario.setup }
    requires writable { IsWritable scenario }
    requires gates { length gates.old ≡ 8 }
    ensures recorded { IfOk result (λ r. IsRecorded (λ setup entries. TellsByPasses G.passes setup gates.old gates.new entries) scenario r.log) }
    ensures line { IfOk result (λ r. IsLogText r.log r.line.items) }
    ensures world { IfOk result (λ r. r.world ≡ world_after hosting starting r.log.scenario.setup r.log.trace) }
    ensures fits { IfOk result (λ r. Fits policies_of r.log.scenario.setup r.world) }
{
    a_legal_run_can_be_written::<Host>();
    let Recorded { trace, world } = record_to_end(rt, alloc, &scenario.setup, gates)?;
    let log = Log { scenario, trace };
    let mut line = write_log(alloc, &log)?;
    line.push(b'\n')?;
    Ok(Recording { log, line, world })
}

// The line of a run, the verdicts at its end, and what is concluded from them.
fn found(alloc: Global, recording: Recording) -> Result<Answer, AllocError>
    requires setup { IsValidSetup recording.log.scenario.setup }
    requires asked { All IsAsked recording.log.scenario.invariants }
    requires few { length recording.log.scenario.invariants ≤ 32 }
    requires legal { IsLegalRun hosting starting recording.log.scenario.setup recording.log.trace }
    requires world { recording.world ≡ world_after hosting starting recording.log.scenario.setup recording.log.trace }
    requires fits { Fits policies_of recording.log.scenario.setup recording.world }
    ensures { IfOk result (λ answer. (rest : List ℕ) × IsJudgement Whole recording.log.scenario recording.log.trace answer.status.code rest × (answer.text.items ≡ recording.line.items ++ rest)) }
{
    let Recording { log, line, world } = recording;
    let Log { scenario, trace } = log;
    let Answer { status, text: rest } = judgement(
        alloc,
        Telling::Whole,
        &scenario,
        &trace,
        &world,
    )?;
    let mut text = line;
    text.extend_from_slice(rest.as_slice())?;
    Ok(Answer { status, text })
}
