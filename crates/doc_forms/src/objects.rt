//! Objects, and their members.
ghost use Rattle.std.specs.Prelude.{◌≡◌, IfOk, find, is_some, map, not, option_map};
ghost use Rattle.std.specs.List.{list_any};
ghost use Rattle.std.specs.Str.{bytes_eq};
ghost use Rattle.serde_json.specs.Find.{get};
ghost use Rattle.serde_json.specs.View.{members_view, view};
ghost use Rattle.doc_forms.specs.Forms.{field, keyed, keys_of, no_key};
ghost use Rattle.doc_forms.specs.Reading.{Gives};

use crate::fail::{DocFail, below, refused};
use crate::form::Form;
use serde_json::{Map, Value};
use std::alloc::Global;

/// The value under a key of an object.
pub fn field<F: Form>(alloc: Global, object: &Value, key: &str) -> Result<F::Read, DocFail>
    ensures read { Gives result (field F.form key.now (view object.now)) }
    ensures holds { IfOk result (λ read. F.holds read) }
{
    let found = match object.get(key) {
        Some(value) => F::read(alloc, value),
        None => refused(alloc, 2),
    };
    below(alloc, key, found)
}

/// Asks that an object has exactly these keys, which are in byte order.
pub fn keyed(alloc: Global, value: &Value, keys: &[&str]) -> Result<(), DocFail>
    ensures { Gives result (keyed (map (λ key. key.now) keys.now) (view value.now)) }
{
    let Some(members) = value.as_object() else {
        return refused(alloc, 2);
    };
    no_key(alloc, 3, missing_key(value, keys))?;
    no_key(alloc, 4, unknown_key(members, keys))
}

/// A rule that a key breaks, if there is such a key.
fn no_key(alloc: Global, rule: u8, found: Option<&str>) -> Result<(), DocFail>
    ensures { Gives result (no_key rule (option_map (λ key. key.now) found.entry)) }
{
    match found {
        Some(key) => below(alloc, key, refused(alloc, rule)),
        None => Ok(()),
    }
}

/// The first of the keys that an object has not.
fn missing_key<'k>(value: &Value, keys: &[&'k str]) -> Option<&'k str>
    ensures { option_map (λ key. key.now) result
        ≡ find (λ key. not (is_some (get key (view value.now)))) (map (λ key. key.now) keys.now) }
{
    for key in keys {
        if value.get(*key).is_none() {
            return Some(*key);
        }
    }
    None
}

/// The first key of an object that is none of the keys.
fn unknown_key<'v>(members: &'v Map<String, Value>, keys: &[&str]) -> Option<&'v str>
    ensures { option_map (λ key. key.now) result
        ≡ find (λ key. not (list_any (bytes_eq key) (map (λ known. known.now) keys.now))) (keys_of (members_view members.now.entries)) }
{
    for key in members.keys() {
        if !has_key(keys, key.as_str()) {
            return Some(key.as_str());
        }
    }
    None
}

fn has_key(keys: &[&str], key: &str) -> bool
    ensures { result ≡ list_any (bytes_eq key.now) (map (λ known. known.now) keys.now) }
{
    for known in keys {
        if key == *known {
            return true;
        }
    }
    false
}
