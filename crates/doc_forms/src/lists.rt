//! Lists, and their elements.
ghost use Rattle.std.specs.Prelude.{◌≡◌, ◌≤◌, ◌+◌, ◌<◌, All, IfErr, IfOk, length, Ok, Err};
ghost use Rattle.serde_json.specs.View.{items_view, view};
ghost use Rattle.doc_forms.specs.Forms.{all_read, counted, element, items_in, kind, kind_of, list};
ghost use Rattle.doc_forms.specs.Reading.{Gives};

use crate::fail::{DocFail, below_index, refused, require};
use crate::form::{Form, Kind};
use crate::values::text;
use listed::Listed;
use serde_json::Value;
use std::alloc::Global;

/// The element at a place of a list.
pub fn element<F: Form>(alloc: Global, list: &Value, index: usize) -> Result<F::Read, DocFail>
    ensures read { Gives result (element F.form index (view list.now)) }
    ensures holds { IfOk result (λ read. F.holds read) }
{
    let found = match list.get(index) {
        Some(value) => F::read(alloc, value),
        None => refused(alloc, 2),
    };
    below_index(alloc, index, found)
}

/// A list of at most so many elements of a form.
pub fn list<F: Form>(alloc: Global, value: &Value, most: usize) -> Result<Listed<F::Read>, DocFail>
    ensures read { Gives result (list F.form most (view value.now)) }
    ensures few { IfOk result (λ read. length read ≤ most) }
    ensures holds { IfOk result (λ read. All F.holds read) }
{
    let items = items_in(alloc, value, most)?;
    all_read::<F>(alloc, items)
}

fn items_in<'v>(alloc: Global, value: &'v Value, most: usize) -> Result<&'v [Value], DocFail>
    ensures ok { IfOk result (λ items. items_in most (view value.now) ≡ Ok (items_view items.now)) }
    ensures few { IfOk result (λ items. length items.now ≤ most) }
    ensures err { IfErr result (λ why. items_in most (view value.now) ≡ Err why) }
{
    match value.as_array() {
        Some(items) if items.len() <= most => Ok(items.as_slice()),
        Some(_) => refused(alloc, 9),
        None => refused(alloc, 2),
    }
}

fn all_read<F: Form>(alloc: Global, items: &[Value]) -> Result<Listed<F::Read>, DocFail>
    ensures read { Gives result (all_read F.form 0 (items_view items.now)) }
    ensures few { IfOk result (λ read. length read ≡ length items.now) }
    ensures holds { IfOk result (λ read. All F.holds read) }
{
    let mut list = Listed::new(alloc);
    for (index, item) in items.iter().enumerate() {
        let found = F::read(alloc, item);
        list.push(below_index(alloc, index, found)?)?;
    }
    Ok(list)
}

/// Asks that a list has exactly so many elements.
pub fn counted(alloc: Global, value: &Value, count: usize) -> Result<(), DocFail>
    ensures { result ≡ counted count (view value.now) }
{
    match value.as_array() {
        Some(items) => require(alloc, 5, items.len() == count),
        None => refused(alloc, 2),
    }
}

/// The kind of a list, by the word at a place of it.
pub fn kind_at<K: Kind>(alloc: Global, value: &Value, index: usize) -> Result<K, DocFail>
    ensures { Gives result (kind K.of_word index (view value.now)) }
{
    let Some(items) = value.as_array() else {
        return refused(alloc, 2);
    };
    require(alloc, 5, index < items.len())?;
    word_at(alloc, value, index)
}

/// The kind that the word at a place of a list names.
fn word_at<K: Kind>(alloc: Global, list: &Value, index: usize) -> Result<K, DocFail>
    ensures { Gives result (element (kind_of K.of_word) index (view list.now)) }
{
    let found = match list.get(index) {
        Some(value) => kind_of(alloc, value),
        None => refused(alloc, 2),
    };
    below_index(alloc, index, found)
}

fn kind_of<K: Kind>(alloc: Global, value: &Value) -> Result<K, DocFail>
    ensures { result ≡ kind_of K.of_word (view value.now) }
{
    let word = text(alloc, value)?;
    match K::of_word(word) {
        Some(kind) => Ok(kind),
        None => refused(alloc, 7),
    }
}
