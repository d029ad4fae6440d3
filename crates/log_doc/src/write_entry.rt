//! The entries of a log as they are written.
ghost use Rattle.std.specs.Prelude.{◌≡◌, ℕ, ◌++◌, All, IfOk, IfSome, OnOk, Ok, Some, string_bytes};
ghost use Rattle.hex.specs.Hex.{encode_lower};
ghost use Rattle.serde_json.specs.Data.{string};
ghost use Rattle.doc_forms.specs.Written.{list_data};
ghost use Rattle.message_pools.specs.Item.{IsValidItem};
ghost use Rattle.log_doc.specs.Entries.{entry_of, hex_of, item_of};
ghost use Rattle.log_doc.specs.Tokens.{data_tokens, head_tokens, input_tokens, one_name_tokens, two_names_tokens};
ghost use Rattle.log_doc.specs.Written.{HasValidItem, IsItemOf, IsTaken, IsWritableEntry, end_data, entry_data, event_data, hex_data, item_bytes, taken_bytes};
ghost use Rattle.log_doc.specs.declared.items.ItemKind.{ItemKind};

use crate::write_items::{item_bytes, item_reads};
use event_machine::{End, Entry, Event};
use json::Writer;
use message_pools::Item;
use std::alloc::{AllocError, Global};

/// Bytes as a text of hexadecimal digits.
fn hex_text(alloc: Global, bytes: &[u8]) -> Result<String, AllocError>
    ensures text { IfOk result (λ text. string_bytes text ≡ encode_lower bytes.now) }
    ensures reads { IfOk result (λ _. hex_of (hex_data bytes.now) ≡ Ok bytes.now) }
{
    hex::encode(alloc, bytes)
}

fn item_text(alloc: Global, item: &Item) -> Result<String, AllocError>
    requires { IsValidItem item.now }
    ensures text { IfOk result (λ text. string_bytes text ≡ encode_lower (item_bytes item.now)) }
    ensures reads { IfOk result
        (λ _. (pool : ItemKind) → IsItemOf pool item.now → item_of pool (hex_data (item_bytes item.now)) ≡ Ok (Some item.now)) }
{
    item_reads(item);
    let bytes = item_bytes(alloc, item)?;
    hex_text(alloc, bytes.as_slice())
}

/// What an event took; nothing has no bytes.
fn taken_text(alloc: Global, taken: &Option<Item>) -> Result<String, AllocError>
    requires { IfSome taken.now IsValidItem }
    ensures text { IfOk result (λ text. string_bytes text ≡ encode_lower (taken_bytes taken.now)) }
    ensures reads { IfOk result
        (λ _. (pool : ItemKind) → IsTaken pool taken.now → item_of pool (hex_data (taken_bytes taken.now)) ≡ Ok taken.now) }
{
    match taken {
        Some(item) => item_text(alloc, item),
        None => hex_text(alloc, &[]),
    }
}

/// The beginning of an entry: its worker and its number.
fn write_head(out: &mut Writer, entry: &Entry) -> Result<(), AllocError>
    ensures before { out.new.before ≡ out.old.before }
    ensures tokens { OnOk result (out.new.tokens ≡ out.old.tokens ++ head_tokens entry.now.worker entry.now.number) }
{
    out.begin_array()?;
    out.u64(u64::from(entry.worker))?;
    out.u64(entry.number)
}

/// The rest of an entry for an input.
fn write_input(out: &mut Writer, position: u32) -> Result<(), AllocError>
    ensures before { out.new.before ≡ out.old.before }
    ensures tokens { OnOk result (out.new.tokens ≡ out.old.tokens ++ input_tokens position) }
{
    out.string("in")?;
    out.u64(u64::from(position))?;
    out.end_array()
}

/// The rest of an entry for an item of a pool that one number names.
fn write_one_name(
    out: &mut Writer,
    word: &str,
    name: u16,
    item: u64,
    taken: &str,
) -> Result<(), AllocError>
    ensures before { out.new.before ≡ out.old.before }
    ensures tokens { OnOk result (out.new.tokens ≡ out.old.tokens ++ one_name_tokens word.now name item taken.now) }
{
    out.string(word)?;
    out.u64(u64::from(name))?;
    out.u64(item)?;
    out.string(taken)?;
    out.end_array()
}

/// The rest of an entry for an item of a pool that two numbers name.
fn write_two_names(
    out: &mut Writer,
    word: &str,
    names: (u16, u16),
    item: u64,
    taken: &str,
) -> Result<(), AllocError>
    ensures before { out.new.before ≡ out.old.before }
    ensures tokens { OnOk result (out.new.tokens ≡ out.old.tokens ++ two_names_tokens word.now names.0 names.1 item taken.now) }
{
    out.string(word)?;
    out.u64(u64::from(names.0))?;
    out.u64(u64::from(names.1))?;
    out.u64(item)?;
    out.string(taken)?;
    out.end_array()
}

/// An entry, beside what its event took.
fn write_event(out: &mut Writer, entry: &Entry, taken: &str) -> Result<(), AllocError>
    ensures before { out.new.before ≡ out.old.before }
    ensures tokens { OnOk result
        (out.new.tokens ≡ out.old.tokens ++ data_tokens (event_data entry.now.worker entry.now.number entry.now.event (string taken.now))) }
{
    write_head(out, entry)?;
    match entry.event {
        Event::In(position) => write_input(out, position),
        Event::Ctl { s, item } => write_one_name(out, "ctl", s, item, taken),
        Event::Pkt { s, p, item } => write_two_names(out, "pkt", (s, p), item, taken),
        Event::Note { s, item } => write_one_name(out, "note", s, item, taken),
        Event::App { c, s, item } => write_two_names(out, "app", (c, s), item, taken),
        Event::Admin { c, item } => write_one_name(out, "admin", c, item, taken),
        Event::Recv { h, item } => write_one_name(out, "recv", h, item, taken),
    }
}

fn write_entry(alloc: Global, out: &mut Writer, entry: &Entry) -> Result<(), AllocError>
    requires { HasValidItem entry.now }
    ensures before { out.new.before ≡ out.old.before }
    ensures tokens { OnOk result (out.new.tokens ≡ out.old.tokens ++ data_tokens (entry_data entry.now)) }
    ensures reads { OnOk result
        ((workers : ℕ) → IsWritableEntry workers entry.now → entry_of (entry_data entry.now) ≡ Ok entry.now) }
{
    let taken = taken_text(alloc, &entry.item)?;
    write_event(out, entry, taken.as_str())
}

/// The entries, in order.
pub(crate) fn write_entries(
    alloc: Global,
    out: &mut Writer,
    entries: &[Entry],
) -> Result<(), AllocError>
    requires { All HasValidItem entries.now }
    ensures before { out.new.before ≡ out.old.before }
    ensures tokens { OnOk result (out.new.tokens ≡ out.old.tokens ++ data_tokens (list_data entry_data entries.now)) }
    ensures reads { OnOk result
        ((workers : ℕ) → All (IsWritableEntry workers) entries.now
        → All (λ entry. entry_of (entry_data entry) ≡ Ok entry) entries.now) }
{
    out.begin_array()?;
    for entry in entries {
        write_entry(alloc, out, entry)?;
    }
    out.end_array()
}

/// How a run ended.
pub(crate) fn write_end(out: &mut Writer, end: End) -> Result<(), AllocError>
    ensures before { out.new.before ≡ out.old.before }
    ensures tokens { OnOk result (out.new.tokens ≡ out.old.tokens ++ data_tokens (end_data end)) }
{
    match end {
        End::Quiet => out.string("quiet"),
        End::Full => out.string("full"),
    }
}
