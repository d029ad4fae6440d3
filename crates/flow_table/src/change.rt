//! Changes of the entries of a table. Each takes its memory before it changes anything.

ghost use Rattle.std.specs.Prelude.{◌≡◌, ◌≢◌, ◌<◌, ◌≤◌, ◌+◌, ◌++◌, All, IfErr, IfOk, IsOk, OnErr, OnOk, map, filter, count_by, not, position, vec_len, vec_capacity, true};
ghost use Rattle.std.specs.List.{list_any};
ghost use Rattle.of10_messages.specs.Valid.{IsValidFlowMod};
ghost use Rattle.flow_table.specs.Command.{added, deleted, is_full_for, is_named, is_overlapped, modified, overlap_of, with_actions};
ghost use Rattle.flow_table.specs.Entry.{IsTable, IsValidEntry};
ghost use Rattle.flow_table.specs.Expiry.{gone, reason_of, runs_out, staying};
ghost use Rattle.flow_table.specs.Going.{IsValidGoing, goes};
ghost use Rattle.flow_table.specs.declared.effect.TableNo.TheVariants.{OutOfMemory};

use crate::command::Command;
use crate::effect::{Effect, Gone10, TableNo};
use crate::entry::Entry;
use crate::table::TABLE_CAPACITY;
use listed::{Listed, Plain};
use of10_messages::{Actions10, FlowMod, OFPFF_CHECK_OVERLAP};
use std::alloc::{AllocError, Global};
use std::mem;

/// Which entries a change takes out.
#[derive(Clone, Copy, Debug)]
pub(crate) enum Going<'m> {
    /// Those that a FLOW_MOD with a command speaks of.
    Named(Command, &'m FlowMod),
    /// Those that run out at a time.
    RunOut(u32),
}

impl Going<'_> {
    fn takes_out(&self, entry: &Entry) -> bool
        requires going { IsValidGoing self.now }
        requires entry { IsValidEntry entry.now }
        ensures { result ≡ goes self.now entry.now }
    {
        match self {
            Going::Named(how, mods) => entry.is_named(*how, mods),
            Going::RunOut(now) => entry.runs_out(*now),
        }
    }
}

fn count_going(entries: &[Entry], going: &Going) -> usize
    requires going { IsValidGoing going.now }
    requires entries { All IsValidEntry entries.now }
    ensures { result ≡ count_by (goes going.now) entries.now }
{
    entries
        .iter()
        .filter(|entry| going.takes_out(entry))
        .count()
}

/// Moves the entries of a list behind those that stay or behind those that go, where there is room for them.
fn part(entries: Vec<Entry>, going: &Going, kept: &mut Vec<Entry>, removed: &mut Vec<Entry>)
    requires going { IsValidGoing going.now }
    requires entries { All IsValidEntry entries.items }
    requires kept_room { vec_len kept.old + vec_len entries ≤ vec_capacity kept.old }
    requires removed_room { vec_len removed.old + count_by (goes going.now) entries.items ≤ vec_capacity removed.old }
    ensures kept { kept.new.items ≡ kept.old.items ++ filter (λ entry. not (goes going.now entry)) entries.items }
    ensures removed { removed.new.items ≡ removed.old.items ++ filter (goes going.now) entries.items }
    ensures room { vec_capacity kept.old ≤ vec_capacity kept.new }
{
    for entry in entries {
        if going.takes_out(&entry) {
            removed.push(entry).unwrap();
        } else {
            kept.push(entry).unwrap();
        }
    }
}

/// Takes out the entries that go, and answers them in their order. Where none goes it changes nothing and takes no memory.
fn take_out(
    alloc: Global,
    entries: &mut Vec<Entry>,
    going: &Going,
) -> Result<Vec<Entry>, AllocError>
    requires going { IsValidGoing going.now }
    requires entries { All IsValidEntry entries.old.items }
    ensures removed { IfOk result (λ removed. removed.items ≡ filter (goes going.now) entries.old.items) }
    ensures kept { OnOk result (entries.new.items ≡ filter (λ entry. not (goes going.now entry)) entries.old.items) }
    ensures room { OnOk result (vec_len entries.old < vec_capacity entries.old → vec_len entries.new < vec_capacity entries.new) }
    ensures err { OnErr result (entries.new.items ≡ entries.old.items) }
{
    let count = count_going(entries.as_slice(), going);
    if count == 0 {
        return Ok(Vec::new(alloc));
    }
    let mut removed = Vec::with_capacity(alloc, count)?;
    let mut kept = Vec::with_capacity(alloc, entries.len())?;
    mem::swap(entries, &mut kept);
    part(kept, going, entries, &mut removed);
    Ok(removed)
}

/// Puts the entry of a FLOW_MOD last, and takes out the one with its match and priority.
pub(crate) fn add(
    alloc: Global,
    entries: &mut Vec<Entry>,
    mods: &FlowMod,
    now: u32,
) -> Result<Effect, TableNo>
    requires mods { IsValidFlowMod mods.now }
    requires table { IsTable entries.old.items }
    ensures ok { IfOk result (λ effect. added entries.old.items mods.now now
        ≡ Ok (record { entries = entries.new.items; removed = effect.removed; changed = effect.changed })) }
    ensures refused { IfErr result (λ no. no ≢ OutOfMemory → added entries.old.items mods.now now ≡ Err no) }
    ensures memory { IfErr result (λ no. no ≡ OutOfMemory → IsOk (added entries.old.items mods.now now)) }
    ensures err { OnErr result (entries.new.items ≡ entries.old.items) }
    ensures table { IsTable entries.new.items }
{
    if let Some(with) = overlap_of(entries.as_slice(), mods) {
        return Err(TableNo::Overlap { with });
    }
    if is_full_for(entries.as_slice(), mods) {
        return Err(TableNo::Full);
    }
    let entry = Entry::of(mods, now)?;
    entries.reserve(1)?;
    let removed = take_out(alloc, entries, &Going::Named(Command::Add, mods))?;
    entries.push(entry).unwrap();
    Ok(Effect {
        removed: Listed::of(removed),
        changed: 0,
    })
}

/// The first place of an entry of a FLOW_MOD's priority that overlaps it, where the FLOW_MOD asks that there is none.
fn overlap_of(entries: &[Entry], mods: &FlowMod) -> Option<u32>
    requires mods { IsValidFlowMod mods.now }
    requires table { IsTable entries.now }
    ensures { result ≡ overlap_of entries.now mods.now }
{
    if mods.flags & OFPFF_CHECK_OVERLAP == 0 {
        return None;
    }
    let place = first_overlapped(entries, mods)?;
    Some(place as u32)
}

/// The first place of an entry of a FLOW_MOD's priority that overlaps it.
fn first_overlapped(entries: &[Entry], mods: &FlowMod) -> Option<usize>
    requires mods { IsValidFlowMod mods.now }
    requires entries { All IsValidEntry entries.now }
    ensures { result ≡ position (is_overlapped mods.now) entries.now }
{
    entries.iter().position(|entry| entry.is_overlapped(mods))
}

/// Whether no entry would give way to that of a FLOW_MOD, and the table has all the entries that it can hold.
fn is_full_for(entries: &[Entry], mods: &FlowMod) -> bool
    requires mods { IsValidFlowMod mods.now }
    requires entries { All IsValidEntry entries.now }
    ensures { result ≡ is_full_for entries.now mods.now }
{
    entries.len() >= TABLE_CAPACITY && !names_some(entries, Command::Add, mods)
}

/// Whether a FLOW_MOD with a command speaks of some entry.
fn names_some(entries: &[Entry], how: Command, mods: &FlowMod) -> bool
    requires mods { IsValidFlowMod mods.now }
    requires entries { All IsValidEntry entries.now }
    ensures { result ≡ list_any (is_named how mods.now) entries.now }
{
    entries.iter().any(|entry| entry.is_named(how, mods))
}

/// One copy of a FLOW_MOD's actions for each entry that it speaks of.
fn copies_for(
    alloc: Global,
    entries: &[Entry],
    how: Command,
    mods: &FlowMod,
) -> Result<Vec<Actions10>, AllocError>
    requires mods { IsValidFlowMod mods.now }
    requires entries { All IsValidEntry entries.now }
    ensures count { IfOk result (λ copies. vec_len copies ≡ count_by (is_named how mods.now) entries.now) }
    ensures copies { IfOk result (λ copies. All (λ actions. actions ≡ mods.now.actions) copies.items) }
    ensures err { OnErr result (list_any (is_named how mods.now) entries.now ≡ true) }
{
    let mut copies = Vec::new(alloc);
    for entry in entries {
        if entry.is_named(how, mods) {
            copies.push(mods.actions.copy()?)?;
        }
    }
    Ok(copies)
}

/// Gives each entry that a FLOW_MOD speaks of one of the copies of its actions.
fn put_actions(entries: &mut [Entry], how: Command, mods: &FlowMod, copies: Vec<Actions10>)
    requires mods { IsValidFlowMod mods.now }
    requires entries { All IsValidEntry entries.old }
    requires count { vec_len copies ≡ count_by (is_named how mods.now) entries.old }
    requires copies { All (λ actions. actions ≡ mods.now.actions) copies.items }
    ensures { entries.new ≡ map (with_actions how mods.now) entries.old }
{
    let mut copies = copies;
    for entry in entries.iter_mut() {
        if entry.is_named(how, mods) {
            if let Some(actions) = copies.pop() {
                entry.actions = actions;
            }
        }
    }
}

/// Changes the actions of the entries that a MODIFY speaks of, or adds where there is none.
pub(crate) fn modify(
    alloc: Global,
    entries: &mut Vec<Entry>,
    how: Command,
    mods: &FlowMod,
    now: u32,
) -> Result<Effect, TableNo>
    requires mods { IsValidFlowMod mods.now }
    requires table { IsTable entries.old.items }
    ensures ok { IfOk result (λ effect. modified how entries.old.items mods.now now
        ≡ Ok (record { entries = entries.new.items; removed = effect.removed; changed = effect.changed })) }
    ensures refused { IfErr result (λ no. no ≢ OutOfMemory → modified how entries.old.items mods.now now ≡ Err no) }
    ensures memory { IfErr result (λ no. no ≡ OutOfMemory → IsOk (modified how entries.old.items mods.now now)) }
    ensures err { OnErr result (entries.new.items ≡ entries.old.items) }
    ensures table { IsTable entries.new.items }
{
    let copies = copies_for(alloc, entries.as_slice(), how, mods)?;
    if copies.is_empty() {
        return add(alloc, entries, mods, now);
    }
    let changed = copies.len() as u32;
    put_actions(entries.as_mut_slice(), how, mods, copies);
    Ok(Effect {
        removed: Listed::new(alloc),
        changed,
    })
}

/// Takes out the entries that a DELETE speaks of.
pub(crate) fn delete(
    alloc: Global,
    entries: &mut Vec<Entry>,
    how: Command,
    mods: &FlowMod,
) -> Result<Effect, TableNo>
    requires mods { IsValidFlowMod mods.now }
    requires table { IsTable entries.old.items }
    ensures ok { IfOk result (λ effect. deleted how entries.old.items mods.now
        ≡ Ok (record { entries = entries.new.items; removed = effect.removed; changed = effect.changed })) }
    ensures memory { IfErr result (λ no. no ≡ OutOfMemory) }
    ensures err { OnErr result (entries.new.items ≡ entries.old.items) }
    ensures table { IsTable entries.new.items }
{
    let removed = take_out(alloc, entries, &Going::Named(how, mods))?;
    Ok(Effect {
        removed: Listed::of(removed),
        changed: 0,
    })
}

/// Takes out the entries that run out at a time, each with its reason.
pub(crate) fn expire(
    alloc: Global,
    entries: &mut Vec<Entry>,
    now: u32,
) -> Result<Gone10, AllocError>
    requires table { IsTable entries.old.items }
    ensures ok { IfOk result (λ gone_entries. gone_entries ≡ gone now entries.old.items) }
    ensures rest { OnOk result (entries.new.items ≡ staying now entries.old.items) }
    ensures err { OnErr result (entries.new.items ≡ entries.old.items) }
    ensures table { IsTable entries.new.items }
{
    let going = Going::RunOut(now);
    let mut gone = Vec::with_capacity(alloc, count_going(entries.as_slice(), &going))?;
    put_gone(&mut gone, take_out(alloc, entries, &going)?, now);
    Ok(Listed::of(gone))
}

/// Adds entries with their reasons, where there is room for them.
fn put_gone(gone: &mut Vec<(Entry, u8)>, entries: Vec<Entry>, now: u32)
    requires { vec_len gone.old + vec_len entries ≤ vec_capacity gone.old }
    ensures { gone.new.items ≡ gone.old.items ++ map (λ entry. (entry, reason_of now entry)) entries.items }
{
    for entry in entries {
        let reason = entry.reason(now);
        gone.push((entry, reason)).unwrap();
    }
}
