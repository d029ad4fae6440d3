//! What is concluded from the verdicts at the end of a run.
ghost use Rattle.std.specs.Prelude.{◌≡◌, ◌≤◌, All, IfOk, length};
ghost use Rattle.machine_setup.specs.Setup.{IsValidSetup};
ghost use Rattle.event_machine.specs.Legal.{IsLegalRun, world_after};
ghost use Rattle.event_world.specs.Fits.{Fits};
ghost use Rattle.controller_host.specs.Hosting.{hosting, policies_of, starting};
ghost use Rattle.invariant_check.specs.Network.{IsAsked};
ghost use Rattle.sts_cli.specs.Sequences.{IsConclusion, IsJudgement, IsReducedAt, IsShown, IsViolatedAt, telling_text};
ghost use Rattle.sts_cli.specs.Verdicts.{AreVerdicts, first_violated};

use crate::answer::Answer;
use crate::lines::{calm_line, count_lines};
use crate::status::Status;
use crate::verdicts::{first_violated, verdicts_at};
use causal_minimizer::laws::no_atom_can_be_left_out;
use causal_minimizer::{ReduceNo, Reduced, reduce};
use causal_replay::laws::a_replay_takes_legal_steps;
use controller_host::Host;
use event_machine::Trace;
use event_world::World;
use invariant_check::Verdicts;
use invariant_check::laws::there_is_one_verdict;
use report_text::{replay_lines, sequence_lines, verdict_lines};
use scenario_doc::Scenario;
use std::alloc::{AllocError, Global};

/// How much is told of a run that is reduced.
#[derive(Clone, Copy, Debug, PartialEq, Eq)]
pub(crate) enum Telling {
    /// The inputs that are enough, and their replay.
    Whole,
    /// How many they are, and how many entries are absent from their replay.
    Counts,
}

/// The verdicts at the end of a run, and what is concluded from them.
pub(crate) fn judgement(
    alloc: Global,
    telling: Telling,
    scenario: &Scenario,
    trace: &Trace,
    world: &World<Host>,
) -> Result<Answer, AllocError>
    requires setup { IsValidSetup scenario.now.setup }
    requires asked { All IsAsked scenario.now.invariants }
    requires few { length scenario.now.invariants ≤ 32 }
    requires legal { IsLegalRun hosting starting scenario.now.setup trace.now }
    requires world { world.now ≡ world_after hosting starting scenario.now.setup trace.now }
    requires fits { Fits policies_of scenario.now.setup world.now }
    ensures { IfOk result (λ answer. IsJudgement telling scenario.now trace.now answer.status.code answer.text.items) }
{
    let verdicts = verdicts_at(alloc, scenario, world)?;
    let Answer { status, text: rest } = concluded(
        alloc,
        telling,
        Status::DONE,
        scenario,
        trace,
        &verdicts,
    )?;
    let mut text = verdict_lines(alloc, scenario.invariants.as_slice(), &verdicts)?;
    text.extend_from_slice(rest.as_slice())?;
    Ok(Answer { status, text })
}

/// What is told of the run, reduced for the first invariant that is violated at its end; or that none is, with the status that this has.
pub(crate) fn concluded(
    alloc: Global,
    telling: Telling,
    calm: Status,
    scenario: &Scenario,
    trace: &Trace,
    verdicts: &Verdicts,
) -> Result<Answer, AllocError>
    requires setup { IsValidSetup scenario.now.setup }
    requires asked { All IsAsked scenario.now.invariants }
    requires few { length verdicts.now ≤ 32 }
    requires legal { IsLegalRun hosting starting scenario.now.setup trace.now }
    requires verdicts { AreVerdicts scenario.now (world_after hosting starting scenario.now.setup trace.now) verdicts.now }
    ensures { IfOk result (λ answer. IsConclusion telling calm.code scenario.now trace.now (first_violated verdicts.now) answer.status.code answer.text.items) }
{
    match first_violated(verdicts) {
        None => Ok(Answer {
            status: calm,
            text: calm_line(alloc)?,
        }),
        Some(place) => shown(alloc, telling, scenario, trace, place),
    }
}

// What is told of the run, reduced for the invariant at a place.
fn shown(
    alloc: Global,
    telling: Telling,
    scenario: &Scenario,
    trace: &Trace,
    place: u32,
) -> Result<Answer, AllocError>
    requires setup { IsValidSetup scenario.now.setup }
    requires asked { All IsAsked scenario.now.invariants }
    requires legal { IsLegalRun hosting starting scenario.now.setup trace.now }
    requires violated { IsViolatedAt scenario.now trace.now place }
    ensures code { IfOk result (λ answer. answer.status.code ≡ 1) }
    ensures shown { IfOk result (λ answer. IsShown telling scenario.now trace.now place answer.text.items) }
{
    let reduced = reduced_at(alloc, scenario, trace, place)?;
    Ok(Answer {
        status: Status::VIOLATED,
        text: told(alloc, telling, scenario, place, &reduced)?,
    })
}

// The run reduced for the invariant at a place.
fn reduced_at(
    alloc: Global,
    scenario: &Scenario,
    trace: &Trace,
    place: u32,
) -> Result<Reduced<Host>, AllocError>
    requires setup { IsValidSetup scenario.now.setup }
    requires asked { All IsAsked scenario.now.invariants }
    requires legal { IsLegalRun hosting starting scenario.now.setup trace.now }
    requires violated { IsViolatedAt scenario.now trace.now place }
    ensures { IfOk result (λ r. IsReducedAt scenario.now trace.now place r.atoms r.of r.replayed.run r.replayed.absent) }
{
    there_is_one_verdict();
    a_replay_takes_legal_steps::<Host>();
    no_atom_can_be_left_out::<Host>();
    let invariant = &scenario.invariants[place as usize];
    match reduce(alloc, &scenario.setup, trace, invariant) {
        Ok(reduced) => Ok(reduced),
        Err(ReduceNo::OutOfMemory) => Err(AllocError),
        Err(ReduceNo::NotViolated) => unreachable!(),
    }
}

// The text of a reduced run.
fn told(
    alloc: Global,
    telling: Telling,
    scenario: &Scenario,
    place: u32,
    reduced: &Reduced<Host>,
) -> Result<Vec<u8>, AllocError>
    ensures { IfOk result (λ text. text.items ≡ telling_text telling scenario.now place reduced.now.atoms reduced.now.of reduced.now.replayed.run reduced.now.replayed.absent) }
{
    let Reduced {
        atoms,
        of,
        replayed,
    } = reduced;
    match telling {
        Telling::Whole => {
            let script = scenario.setup.script.as_slice();
            let mut text = sequence_lines(alloc, script, atoms, *of)?;
            text.extend_from_slice(replay_lines(alloc, replayed, Some(place))?.as_slice())?;
            Ok(text)
        }
        Telling::Counts => count_lines(alloc, atoms, *of, &replayed.absent),
    }
}
