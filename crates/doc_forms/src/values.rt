//! Numbers, flags and texts.
ghost use Rattle.std.specs.Prelude.{◌≡◌, ◌≤◌, ◌<◌, ◌^◌, ◌-◌, IfErr, IfOk, Ok, Err, option_map};
ghost use Rattle.serde_json.specs.View.{view};
ghost use Rattle.doc_forms.specs.Forms.{element, field, flag, name, number, text, whole};
ghost use Rattle.doc_forms.specs.Reading.{Gives, under};

use crate::fail::{DocFail, below, below_index, refused};
use serde_json::Value;
use std::alloc::Global;

/// An unsigned whole number below 2^64.
pub fn whole(alloc: Global, value: &Value) -> Result<u64, DocFail>
    ensures { result ≡ whole (view value.now) }
{
    match value.as_u64() {
        Some(number) => Ok(number),
        None => refused(alloc, 2),
    }
}

/// An unsigned whole number in a range.
pub fn number(alloc: Global, value: &Value, least: u64, most: u64) -> Result<u64, DocFail>
    ensures read { result ≡ number least most (view value.now) }
    ensures range { IfOk result (λ n. (least ≤ n) × (n ≤ most)) }
{
    let number = whole(alloc, value)?;
    if least <= number && number <= most {
        Ok(number)
    } else {
        refused(alloc, 6)
    }
}

/// The number at a place of a list.
pub fn number_at(
    alloc: Global,
    list: &Value,
    index: usize,
    least: u64,
    most: u64,
) -> Result<u64, DocFail>
    ensures read { Gives result (element (number least most) index (view list.now)) }
    ensures range { IfOk result (λ n. (least ≤ n) × (n ≤ most)) }
{
    let found = match list.get(index) {
        Some(value) => number(alloc, value, least, most),
        None => refused(alloc, 2),
    };
    below_index(alloc, index, found)
}

/// The 8-bit number at a place of a list.
pub fn u8_at(alloc: Global, list: &Value, index: usize) -> Result<u8, DocFail>
    ensures { Gives result (element (number 0 (2 ^ 8 - 1)) index (view list.now)) }
{
    Ok(number_at(alloc, list, index, 0, u64::from(u8::MAX))? as u8)
}

/// The 16-bit number at a place of a list.
pub fn u16_at(alloc: Global, list: &Value, index: usize) -> Result<u16, DocFail>
    ensures { Gives result (element (number 0 (2 ^ 16 - 1)) index (view list.now)) }
{
    Ok(number_at(alloc, list, index, 0, u64::from(u16::MAX))? as u16)
}

/// The 32-bit number at a place of a list.
pub fn u32_at(alloc: Global, list: &Value, index: usize) -> Result<u32, DocFail>
    ensures { Gives result (element (number 0 (2 ^ 32 - 1)) index (view list.now)) }
{
    Ok(number_at(alloc, list, index, 0, u64::from(u32::MAX))? as u32)
}

/// The number under a key of an object.
pub fn number_of(
    alloc: Global,
    object: &Value,
    key: &str,
    least: u64,
    most: u64,
) -> Result<u64, DocFail>
    ensures read { Gives result (field (number least most) key.now (view object.now)) }
    ensures range { IfOk result (λ n. (least ≤ n) × (n ≤ most)) }
{
    let found = match object.get(key) {
        Some(value) => number(alloc, value, least, most),
        None => refused(alloc, 2),
    };
    below(alloc, key, found)
}

/// The 32-bit number under a key of an object.
pub fn u32_of(
    alloc: Global,
    object: &Value,
    key: &str,
    least: u32,
    most: u32,
) -> Result<u32, DocFail>
    ensures read { Gives result (field (number least most) key.now (view object.now)) }
    ensures range { IfOk result (λ n. (least ≤ n) × (n ≤ most)) }
{
    Ok(number_of(alloc, object, key, u64::from(least), u64::from(most))? as u32)
}

/// The number of a switch, port, link, host or controller: the greatest of 16 bits where it is greater still.
pub fn name(alloc: Global, value: &Value) -> Result<u16, DocFail>
    ensures { result ≡ name (view value.now) }
{
    Ok(whole(alloc, value)?.min(u64::from(u16::MAX)) as u16)
}

/// The number of a switch, port, link, host or controller at a place of a list.
pub fn name_at(alloc: Global, list: &Value, index: usize) -> Result<u16, DocFail>
    ensures { Gives result (element name index (view list.now)) }
{
    let found = match list.get(index) {
        Some(value) => name(alloc, value),
        None => refused(alloc, 2),
    };
    below_index(alloc, index, found)
}

fn flag(alloc: Global, value: &Value) -> Result<bool, DocFail>
    ensures { result ≡ flag (view value.now) }
{
    match value.as_bool() {
        Some(is_set) => Ok(is_set),
        None => refused(alloc, 2),
    }
}

/// `true` or `false` at a place of a list.
pub fn flag_at(alloc: Global, list: &Value, index: usize) -> Result<bool, DocFail>
    ensures { Gives result (element flag index (view list.now)) }
{
    let found = match list.get(index) {
        Some(value) => flag(alloc, value),
        None => refused(alloc, 2),
    };
    below_index(alloc, index, found)
}

/// A text.
pub fn text<'v>(alloc: Global, value: &'v Value) -> Result<&'v str, DocFail>
    ensures ok { IfOk result (λ found. text (view value.now) ≡ Ok found.now) }
    ensures err { IfErr result (λ why. text (view value.now) ≡ Err why) }
{
    match value.as_str() {
        Some(found) => Ok(found),
        None => refused(alloc, 2),
    }
}
