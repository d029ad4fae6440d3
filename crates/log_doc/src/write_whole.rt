//! A log as it is written.
ghost use Rattle.std.specs.Prelude.{◌≡◌, ◌≤◌, ℕ, All, IfOk, IsUtf8, Ok, false};
ghost use Rattle.json.specs.Print.{print};
ghost use Rattle.serde_json.specs.Data.{depth};
ghost use Rattle.serde_json.specs.Written.{compact_text, has_float};
ghost use Rattle.doc_forms.specs.Texts.{IsText};
ghost use Rattle.scenario_doc.specs.Draft.{draft_of};
ghost use Rattle.scenario_doc.specs.Written.{draft_data};
ghost use Rattle.scenario_doc.specs.WrittenScenario.{IsWritable, drafted};
ghost use Rattle.log_doc.specs.Entries.{entry_of};
ghost use Rattle.log_doc.specs.Log.{log_of};
ghost use Rattle.log_doc.specs.Tokens.{IsReadable, tokens_before_scenario};
ghost use Rattle.log_doc.specs.Written.{HasValidItem, IsWritableEntry, IsWritableLog, entry_data, log_text};

use crate::log::Log;
use crate::write_entry::{write_end, write_entries};
use json::Writer;
use scenario_doc::{Scenario, scenario_json};
use std::alloc::{AllocError, Global};

/// The bytes of the document that says what a log is, with no space between its words.
pub fn write_log(alloc: Global, log: &Log) -> Result<Vec<u8>, AllocError>
    requires { All HasValidItem log.now.trace.entries }
    ensures text { IfOk result (λ text. text.items ≡ log_text log.now) }
    ensures reads_back { IfOk result (λ text. IsWritableLog log.now → IsText log_of text.items log.now) }
{
    let scenario = scenario_text(alloc, &log.scenario)?;
    let mut text = text_before_scenario(alloc, log)?;
    text.extend_from_slice(scenario.as_slice())?;
    text.extend_from_slice(b",\"sts\":1}")?;
    Ok(text)
}

/// The text of a log up to the value of its scenario. No value is made of all the entries: there can be thousands.
fn text_before_scenario(alloc: Global, log: &Log) -> Result<Vec<u8>, AllocError>
    requires { All HasValidItem log.now.trace.entries }
    ensures text { IfOk result (λ text. text.items ≡ print (tokens_before_scenario log.now)) }
    ensures utf8 { IfOk result (λ text. IsUtf8 text.items) }
    ensures reads { IfOk result
        (λ _. (workers : ℕ) → All (IsWritableEntry workers) log.now.trace.entries
        → All (λ entry. entry_of (entry_data entry) ≡ Ok entry) log.now.trace.entries) }
{
    let mut out = Writer::new(Vec::new(alloc));
    out.begin_object()?;
    out.key("end")?;
    write_end(&mut out, log.trace.end)?;
    out.key("entries")?;
    write_entries(alloc, &mut out, log.trace.entries.as_slice())?;
    out.key("scenario")?;
    Ok(out.into_inner())
}

/// The text of a scenario, which stands in a log as it is.
fn scenario_text(alloc: Global, scenario: &Scenario) -> Result<Vec<u8>, AllocError>
    ensures text { IfOk result (λ text. text.items ≡ compact_text (draft_data (drafted scenario.now))) }
    ensures utf8 { IfOk result (λ text. IsUtf8 text.items) }
    ensures readable { IfOk result (λ _. IsReadable (draft_data (drafted scenario.now))) }
    ensures whole { IfOk result (λ _. has_float (draft_data (drafted scenario.now)) ≡ false) }
    ensures flat { IfOk result (λ _. depth (draft_data (drafted scenario.now)) ≤ 7) }
    ensures reads { IfOk result
        (λ _. IsWritable scenario.now → draft_of (draft_data (drafted scenario.now)) ≡ Ok (drafted scenario.now)) }
{
    let value = scenario_json(alloc, scenario)?;
    value.to_vec(alloc)
}
