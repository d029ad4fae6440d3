//! The log document.
ghost use Rattle.std.specs.Prelude.{◌≡◌, ◌≤◌, ◌<◌, ◌^◌, All, IfErr, IfOk, IfSome, Ok, codes, length};
ghost use Rattle.serde_json.specs.View.{view};
ghost use Rattle.machine_setup.specs.Setup.{IsValidSetup};
ghost use Rattle.message_pools.specs.Item.{IsValidItem};
ghost use Rattle.doc_forms.specs.Forms.{list};
ghost use Rattle.doc_forms.specs.Reading.{Gives};
ghost use Rattle.doc_forms.specs.Texts.{IsRefused, IsText};
ghost use Rattle.scenario_doc.specs.Fit.{IsFitInvariant};
ghost use Rattle.scenario_doc.specs.Rules.{each};
ghost use Rattle.scenario_doc.specs.WrittenScenario.{IsWritable};
ghost use Rattle.log_doc.specs.Entries.{entry_of, entry_rules};
ghost use Rattle.log_doc.specs.Log.{log_of};

use crate::entry::{EndForm, EntryForm};
use crate::rules::EntryRules;
use doc_forms::{DocFail, Form, below, field, keyed, list, read_document};
use event_machine::{Entries, Trace};
use listed::Listed;
use scenario_doc::laws::a_draft_that_keeps_its_rules_can_be_written;
use scenario_doc::{DraftForm, Scenario, VersionForm, each};
use serde_json::Value;
use std::alloc::Global;

/// A scenario, and the history of one run of it.
#[derive(Debug, Drop)]
pub struct Log {
    pub scenario: Scenario,
    pub trace: Trace,
}

const KEYS: [&str; 4] = ["end", "entries", "scenario", "sts"];

/// The entries, at most 16,384.
struct EntriesForm;

impl Form for EntriesForm {
    type Read = Entries;

    ghost form = { list entry_of 16384 };

    ghost holds = { λ entries. All (λ entry. IfSome entry.item IsValidItem) entries };

    fn read(alloc: Global, value: &Value) -> Result<Entries, DocFail> {
        list::<EntryForm>(alloc, value, 16_384)
    }
}

/// A log.
struct LogForm;

impl Form for LogForm {
    type Read = Log;

    ghost form = { log_of };

    ghost holds = { λ log. IsValidSetup log.scenario.setup × All (IsFitInvariant (length log.scenario.setup.topology.hosts)) log.scenario.invariants
        × IsWritable log.scenario × All (λ entry. IfSome entry.item IsValidItem) log.trace.entries };

    fn read(alloc: Global, value: &Value) -> Result<Log, DocFail> {
        a_draft_that_keeps_its_rules_can_be_written();
        keyed(alloc, value, &KEYS)?;
        let end = field::<EndForm>(alloc, value, "end")?;
        let entries = field::<EntriesForm>(alloc, value, "entries")?;
        let draft = field::<DraftForm>(alloc, value, "scenario")?;
        field::<VersionForm>(alloc, value, "sts")?;
        let kept = each::<EntryRules>(alloc, &draft.limits.workers, entries.as_slice());
        below(alloc, "entries", kept)?;
        below(alloc, "scenario", draft.check(alloc))?;
        Ok(Log {
            scenario: draft.made(alloc)?,
            trace: Trace { entries, end },
        })
    }
}

/// The log that a document of these bytes stands for, or the first rule that it breaks, and where.
pub fn read_log(alloc: Global, bytes: &[u8]) -> Result<Log, DocFail>
    ensures read { IfOk result (λ log. IsText log_of bytes.now log) }
    ensures valid { IfOk result (λ log. IsValidSetup log.scenario.setup) }
    ensures invariants { IfOk result (λ log. All (IsFitInvariant (length log.scenario.setup.topology.hosts)) log.scenario.invariants) }
    ensures writable { IfOk result (λ log. IsWritable log.scenario) }
    ensures items { IfOk result (λ log. All (λ entry. IfSome entry.item IsValidItem) log.trace.entries) }
    ensures refused { IfErr result (λ why. IsRefused log_of bytes.now why) }
{
    read_document::<LogForm>(alloc, bytes)
}
