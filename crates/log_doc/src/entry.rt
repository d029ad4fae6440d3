//! The entries of a log.
ghost use Rattle.std.specs.Prelude.{◌≡◌, ◌≢◌, IfErr, IfOk, IfSome, Err, Ok, None};
ghost use Rattle.serde_json.specs.View.{view};
ghost use Rattle.message_pools.specs.Item.{IsValidItem};
ghost use Rattle.doc_forms.specs.Forms.{element};
ghost use Rattle.doc_forms.specs.Reading.{Gives};
ghost use Rattle.doc_forms.specs.declared.fail.DocFail.TheVariants.{OutOfMemory};
ghost use Rattle.scenario_doc.specs.Packets.{bits};
ghost use Rattle.log_doc.specs.Entries.{end_of, end_word, entry_by, entry_kind, entry_length, entry_of, hex_of, item_of};
ghost use Rattle.log_doc.specs.declared.entry.EntryKind.TheVariants.{Admin, App, Ctl, In, Note, Pkt, Recv};

use crate::items::{ItemKind, item_in};
use doc_forms::{
    DocFail, Form, Kind, below_index, counted, kind_at, number_at, refused, text, u16_at, u32_at,
};
use event_machine::{End, Entry, Event};
use hex::FromHexError;
use message_pools::Item;
use serde_json::Value;
use std::alloc::Global;

/// The words of events.
#[derive(Clone, Copy)]
pub(crate) enum EntryKind {
    In,
    Ctl,
    Pkt,
    Note,
    App,
    Admin,
    Recv,
}

impl Kind for EntryKind {
    ghost of_word = { entry_kind };

    fn of_word(word: &str) -> Option<EntryKind> {
        match word {
            "in" => Some(EntryKind::In),
            "ctl" => Some(EntryKind::Ctl),
            "pkt" => Some(EntryKind::Pkt),
            "note" => Some(EntryKind::Note),
            "app" => Some(EntryKind::App),
            "admin" => Some(EntryKind::Admin),
            "recv" => Some(EntryKind::Recv),
            _ => None,
        }
    }
}

impl EntryKind {
    /// How many elements an entry of the kind has.
    fn entry_length(self) -> usize
        ensures { result ≡ entry_length self }
    {
        match self {
            EntryKind::In => 4,
            EntryKind::Pkt | EntryKind::App => 7,
            _ => 6,
        }
    }
}

/// The bytes that a text spells in hexadecimal digits.
fn hex_of(alloc: Global, value: &Value) -> Result<Vec<u8>, DocFail>
    ensures ok { IfOk result (λ bytes. hex_of (view value.now) ≡ Ok bytes.items) }
    ensures err { IfErr result (λ why. why ≢ OutOfMemory → hex_of (view value.now) ≡ Err why) }
{
    match hex::decode(alloc, text(alloc, value)?) {
        Ok(bytes) => Ok(bytes),
        Err(FromHexError::OutOfMemory) => Err(DocFail::OutOfMemory),
        Err(_) => refused(alloc, 21),
    }
}

fn item_of(alloc: Global, kind: ItemKind, value: &Value) -> Result<Option<Item>, DocFail>
    ensures read { Gives result (item_of kind (view value.now)) }
    ensures valid { IfOk result (λ item. IfSome item IsValidItem) }
{
    let bytes = hex_of(alloc, value)?;
    Ok(item_in(alloc, kind, bytes.as_slice())?)
}

/// The item at a place of an entry.
fn item_at(
    alloc: Global,
    kind: ItemKind,
    list: &Value,
    index: usize,
) -> Result<Option<Item>, DocFail>
    ensures read { Gives result (element (item_of kind) index (view list.now)) }
    ensures valid { IfOk result (λ item. IfSome item IsValidItem) }
{
    let found = match list.get(index) {
        Some(value) => item_of(alloc, kind, value),
        None => refused(alloc, 2),
    };
    below_index(alloc, index, found)
}

/// The number of an item, or of an entry among those of its worker, at a place of an entry.
fn count_at(alloc: Global, list: &Value, index: usize) -> Result<u64, DocFail>
    ensures { Gives result (element (bits 64) index (view list.now)) }
{
    number_at(alloc, list, index, 0, u64::MAX)
}

/// An input, by its position in the script.
fn input_entry(alloc: Global, worker: u32, number: u64, list: &Value) -> Result<Entry, DocFail>
    ensures read { Gives result (entry_by In worker number (view list.now)) }
    ensures valid { IfOk result (λ entry. IfSome entry.item IsValidItem) }
{
    let position = u32_at(alloc, list, 3)?;
    Ok(Entry {
        worker,
        number,
        event: Event::In(position),
        item: None,
    })
}

/// A message that a switch takes.
fn ctl_entry(alloc: Global, worker: u32, number: u64, list: &Value) -> Result<Entry, DocFail>
    ensures read { Gives result (entry_by Ctl worker number (view list.now)) }
    ensures valid { IfOk result (λ entry. IfSome entry.item IsValidItem) }
{
    let s = u16_at(alloc, list, 3)?;
    let item = count_at(alloc, list, 4)?;
    let taken = item_at(alloc, ItemKind::Message, list, 5)?;
    Ok(Entry {
        worker,
        number,
        event: Event::Ctl { s, item },
        item: taken,
    })
}

/// A packet that a switch takes at a port.
fn pkt_entry(alloc: Global, worker: u32, number: u64, list: &Value) -> Result<Entry, DocFail>
    ensures read { Gives result (entry_by Pkt worker number (view list.now)) }
    ensures valid { IfOk result (λ entry. IfSome entry.item IsValidItem) }
{
    let s = u16_at(alloc, list, 3)?;
    let p = u16_at(alloc, list, 4)?;
    let item = count_at(alloc, list, 5)?;
    let taken = item_at(alloc, ItemKind::Packet, list, 6)?;
    Ok(Entry {
        worker,
        number,
        event: Event::Pkt { s, p, item },
        item: taken,
    })
}

/// A notice that a switch takes.
fn note_entry(alloc: Global, worker: u32, number: u64, list: &Value) -> Result<Entry, DocFail>
    ensures read { Gives result (entry_by Note worker number (view list.now)) }
    ensures valid { IfOk result (λ entry. IfSome entry.item IsValidItem) }
{
    let s = u16_at(alloc, list, 3)?;
    let item = count_at(alloc, list, 4)?;
    let taken = item_at(alloc, ItemKind::Notice, list, 5)?;
    Ok(Entry {
        worker,
        number,
        event: Event::Note { s, item },
        item: taken,
    })
}

/// What a controller hears of a switch.
fn app_entry(alloc: Global, worker: u32, number: u64, list: &Value) -> Result<Entry, DocFail>
    ensures read { Gives result (entry_by App worker number (view list.now)) }
    ensures valid { IfOk result (λ entry. IfSome entry.item IsValidItem) }
{
    let c = u16_at(alloc, list, 3)?;
    let s = u16_at(alloc, list, 4)?;
    let item = count_at(alloc, list, 5)?;
    let taken = item_at(alloc, ItemKind::News, list, 6)?;
    Ok(Entry {
        worker,
        number,
        event: Event::App { c, s, item },
        item: taken,
    })
}

/// A policy that a controller takes.
fn admin_entry(alloc: Global, worker: u32, number: u64, list: &Value) -> Result<Entry, DocFail>
    ensures read { Gives result (entry_by Admin worker number (view list.now)) }
    ensures valid { IfOk result (λ entry. IfSome entry.item IsValidItem) }
{
    let c = u16_at(alloc, list, 3)?;
    let item = count_at(alloc, list, 4)?;
    let taken = item_at(alloc, ItemKind::Policy, list, 5)?;
    Ok(Entry {
        worker,
        number,
        event: Event::Admin { c, item },
        item: taken,
    })
}

/// A packet that a host receives.
fn recv_entry(alloc: Global, worker: u32, number: u64, list: &Value) -> Result<Entry, DocFail>
    ensures read { Gives result (entry_by Recv worker number (view list.now)) }
    ensures valid { IfOk result (λ entry. IfSome entry.item IsValidItem) }
{
    let h = u16_at(alloc, list, 3)?;
    let item = count_at(alloc, list, 4)?;
    let taken = item_at(alloc, ItemKind::Packet, list, 5)?;
    Ok(Entry {
        worker,
        number,
        event: Event::Recv { h, item },
        item: taken,
    })
}

/// An entry.
pub(crate) struct EntryForm;

impl Form for EntryForm {
    type Read = Entry;

    ghost form = { entry_of };

    ghost holds = { λ entry. IfSome entry.item IsValidItem };

    fn read(alloc: Global, value: &Value) -> Result<Entry, DocFail> {
        let kind = kind_at::<EntryKind>(alloc, value, 2)?;
        counted(alloc, value, kind.entry_length())?;
        let worker = u32_at(alloc, value, 0)?;
        let number = count_at(alloc, value, 1)?;
        entry_by(alloc, kind, worker, number, value)
    }
}

fn entry_by(
    alloc: Global,
    kind: EntryKind,
    worker: u32,
    number: u64,
    list: &Value,
) -> Result<Entry, DocFail>
    ensures read { Gives result (entry_by kind worker number (view list.now)) }
    ensures valid { IfOk result (λ entry. IfSome entry.item IsValidItem) }
{
    match kind {
        EntryKind::In => input_entry(alloc, worker, number, list),
        EntryKind::Ctl => ctl_entry(alloc, worker, number, list),
        EntryKind::Pkt => pkt_entry(alloc, worker, number, list),
        EntryKind::Note => note_entry(alloc, worker, number, list),
        EntryKind::App => app_entry(alloc, worker, number, list),
        EntryKind::Admin => admin_entry(alloc, worker, number, list),
        EntryKind::Recv => recv_entry(alloc, worker, number, list),
    }
}

/// How a run ended.
pub(crate) struct EndForm;

fn end_word(word: &str) -> Option<End>
    ensures { result ≡ end_word word.now }
{
    match word {
        "quiet" => Some(End::Quiet),
        "full" => Some(End::Full),
        _ => None,
    }
}

impl Form for EndForm {
    type Read = End;

    ghost form = { end_of };

    ghost holds = { λ _. Unit {0} };

    fn read(alloc: Global, value: &Value) -> Result<End, DocFail> {
        match end_word(text(alloc, value)?) {
            Some(end) => Ok(end),
            None => refused(alloc, 7),
        }
    }
}
