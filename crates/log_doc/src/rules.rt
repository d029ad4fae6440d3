//! The rules of entries.
ghost use Rattle.std.specs.Prelude.{◌≡◌, ℕ, Ok};
ghost use Rattle.doc_forms.specs.Reading.{Gives};
ghost use Rattle.log_doc.specs.Entries.{entry_rules, has_item, item_place};

use doc_forms::{DocFail, below_index, require};
use event_machine::{Entry, Event};
use scenario_doc::Rules;
use std::alloc::Global;

/// The rules of an entry, beside the number of workers: it has one of them, and an item of its pool's kind.
pub(crate) struct EntryRules;

impl Rules for EntryRules {
    type With = u32;

    type Of = Entry;

    ghost rules = { entry_rules };

    fn check(alloc: Global, workers: &u32, _index: usize, entry: &Entry) -> Result<(), DocFail> {
        let worker = require(alloc, 23, entry.worker <= *workers);
        below_index(alloc, 0, worker)?;
        let item = require(alloc, 22, has_item(entry));
        below_index(alloc, item_place(&entry.event), item)
    }
}

fn has_item(entry: &Entry) -> bool
    ensures { result ≡ has_item entry.now }
{
    match entry.event {
        Event::In(_) => true,
        _ => entry.item.is_some(),
    }
}

/// At which place of an entry the bytes of its item stand.
fn item_place(event: &Event) -> usize
    ensures { result ≡ item_place event.now }
{
    match event {
        Event::Pkt { .. } | Event::App { .. } => 6,
        _ => 5,
    }
}
