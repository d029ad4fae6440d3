//! What the program answers to the bytes that it read.
ghost use Rattle.std.specs.Prelude.{◌≡◌, ◌≤◌, ℕ, List, All, IfOk, length};
ghost use Rattle.doc_forms.specs.declared.fail.DocFail.TheVariants.{Refused};
ghost use Rattle.invariant_check.specs.Network.{IsAsked};
ghost use Rattle.scenario_doc.specs.Fit.{IsFitInvariant};
ghost use Rattle.scenario_doc.specs.WrittenScenario.{IsWritable};
ghost use Rattle.scenario_doc.specs.declared.scenario.Scenario.{Scenario};
ghost use Rattle.sts_cli.specs.Answer.{IsOfLog, IsOfScenario};
ghost use Rattle.sts_cli.specs.Lines.{refused_line};
ghost use Rattle.run_recorder.specs.AtOnce.{TellsByPasses};

use crate::jobs::judged;
use crate::lines::refused_line;
use crate::recording::recorded;
use crate::status::Status;
use crate::words::{Aim, Job};
use log_doc::{DocFail, read_log};
use run_recorder::Gate;
use scenario_doc::laws::a_draft_that_keeps_its_rules_fits;
use scenario_doc::read_scenario;
use std::alloc::{AllocError, Global};
use std::thread::Threads;

/// A status, and the text that is written with it.
#[derive(Debug, Drop)]
pub(crate) struct Answer {
    pub(crate) status: Status,
    pub(crate) text: Vec<u8>,
}

/// The answer to a scenario: what is made of a run of it.
pub(crate) fn of_scenario<R: Threads + Sync, G: Gate>(
    rt: &R,
    alloc: Global,
    aim: Aim,
    bytes: &[u8],
    gates: &mut [G],
) -> Result<Answer, AllocError>
    requires gates { length gates.old ≡ 8 }
    ensures { IfOk result (λ answer. IsOfScenario (λ setup entries. TellsByPasses G.passes setup gates.old gates.new entries) aim bytes.now answer.status.code answer.text.items) }
{
    what_is_read_can_be_judged();
    match read_scenario(alloc, bytes) {
        Ok(scenario) => recorded(rt, alloc, aim, scenario, gates),
        Err(why) => refused(alloc, why),
    }
}

/// The answer to a log: what is said of it.
pub(crate) fn of_log(alloc: Global, job: Job, bytes: &[u8]) -> Result<Answer, AllocError>
    ensures { IfOk result (λ answer. IsOfLog job bytes.now answer.status.code answer.text.items) }
{
    what_is_read_can_be_judged();
    match read_log(alloc, bytes) {
        Ok(log) => judged(alloc, job, &log),
        Err(why) => refused(alloc, why),
    }
}

// The invariants of a scenario that was read can be judged, and are not many.
fn what_is_read_can_be_judged()
    ensures asked { (scenario : Scenario) → All (IsFitInvariant (length scenario.setup.topology.hosts)) scenario.invariants → All IsAsked scenario.invariants }
    ensures few { (scenario : Scenario) → IsWritable scenario → length scenario.invariants ≤ 32 }
{
    a_draft_that_keeps_its_rules_fits();
}

// The answer to a document that is refused.
fn refused(alloc: Global, why: DocFail) -> Result<Answer, AllocError>
    ensures { IfOk result (λ answer. (answer.status.code ≡ 3) × ((number : ℕ) × (path : List ℕ) × (why ≡ Refused number path) × (answer.text.items ≡ refused_line number path))) }
{
    match why {
        DocFail::Refused { number, path } => Ok(Answer {
            status: Status::REFUSED,
            text: refused_line(alloc, number, path.as_slice())?,
        }),
        DocFail::OutOfMemory => Err(AllocError),
    }
}
