//! A list that contracts see as the list of its elements.
ghost use Rattle.std.specs.Prelude.{◌≡◌, ◌<◌, ◌↔◌, [], ◌∷◌, ◌++◌, length, take, slice_get, slice_set, remove, IsTrue, IfOk, OnOk, OnErr, IsNone, IfSome};
ghost use Rattle.std.specs.Option.{option_copied};
ghost use Rattle.listed.specs.Plain.{plain};

use crate::plain::Plain;
use std::alloc::{AllocError, Global};
use std::marker::Model;
use std::ops::DerefSlice;

/// A growing list. Contracts see it as the list of its elements; its room is not part of its value.
#[derive(Debug, Drop)]
pub struct Listed<T> {
    items: Vec<T>,
}

impl<T> Model for Listed<T> {
    ghost use Rattle.std.specs.Prelude.{List};
    ghost use Rattle.std.specs.Coded.{coded_list};

    ghost Value = { List T };

    ghost coded = { coded_list T.code };

    ghost view = { λ l. l.items.items };
}

impl<T> DerefSlice for Listed<T> {
    type Elem = T;

    ghost deref_gives = { λ l xs. xs ≡ l };

    fn deref(&self) -> &[T] {
        self.items.as_slice()
    }
}

impl<T> Listed<T> {
    ghost use Rattle.std.specs.Borrow.{sem};
    ghost use Rattle.listed.specs.Lending.{LendsItem};

    /// The empty list, which takes no memory.
    pub fn new(alloc: Global) -> Listed<T>
        ensures { result ≡ [] }
    {
        Listed {
            items: Vec::new(alloc),
        }
    }

    /// The elements of a vector, with no copy.
    pub fn of(items: Vec<T>) -> Listed<T>
        ensures { result ≡ items.items }
    {
        Listed { items }
    }

    /// The vector of the elements, with no copy.
    pub fn into_vec(self) -> Vec<T>
        ensures { result.items ≡ self }
    {
        let Listed { items } = self;
        items
    }

    pub fn as_slice(&self) -> &[T]
        ensures { result.now ≡ self.now }
    {
        self.items.as_slice()
    }

    pub fn len(&self) -> usize
        ensures { result ≡ length self.now }
    {
        self.items.len()
    }

    pub fn is_empty(&self) -> bool
        ensures { IsTrue result ↔ (self.now ≡ []) }
    {
        self.items.is_empty()
    }

    /// Lends the element at a place, for a change in place.
    pub fn item_mut(&mut self, at: usize) -> &mut T
        requires { at < length self.old }
        ensures* writes_back { sem 𝓛 (LendsItem T.row self.entry at result) }
        ensures value { slice_get self.old at ≡ Some result.now }
    {
        &mut self.items[at]
    }
}

impl<T: Drop> Listed<T> {
    /// Adds an element at the end. After want of memory the list is as it was, and the element is gone.
    pub fn push(&mut self, item: T) -> Result<(), AllocError>
        ensures ok { OnOk result (self.new ≡ self.old ++ item ∷ []) }
        ensures err { OnErr result (self.new ≡ self.old) }
    {
        self.items.push(item)?;
        Ok(())
    }

    /// Moves the elements of `more` to the end. After want of memory the list is as it was, and `more` is gone.
    pub fn append(&mut self, more: Listed<T>) -> Result<(), AllocError>
        ensures ok { OnOk result (self.new ≡ self.old ++ more) }
        ensures err { OnErr result (self.new ≡ self.old) }
    {
        let Listed { mut items } = more;
        self.items.append(&mut items)
    }

    /// Puts another element at a place.
    pub fn replace(&mut self, at: usize, item: T)
        requires { at < length self.old }
        ensures { self.new ≡ slice_set self.old at item }
    {
        self.items[at] = item;
    }

    /// Takes out the element at a place; those after it move up.
    pub fn remove(&mut self, at: usize) -> T
        requires { at < length self.old }
        ensures item { slice_get self.old at ≡ Some result }
        ensures rest { self.new ≡ remove self.old at }
    {
        self.items.remove(at)
    }

    /// Keeps the first `len` elements.
    pub fn truncate(&mut self, len: usize)
        ensures { self.new ≡ take len self.old }
    {
        self.items.truncate(len);
    }
}

impl<T: Plain + Drop> Clone for Listed<T> {
    ghost is_clone = { λ x y. y ≡ x };

    fn clone(&self) -> Result<Listed<T>, AllocError> {
        let items = Vec::from_clones(*self.items.allocator(), self.items.as_slice())?;
        Ok(Listed { items })
    }
}

impl<T: Plain + Drop> Plain for Listed<T> {
    fn same(&self, other: &Self) -> bool {
        same_items(self.items.as_slice(), other.items.as_slice())
    }

    ghost clones = { Prim.search plain };
}

// Whether two slices have the same elements in the same order.
fn same_items<T: Plain>(one: &[T], two: &[T]) -> bool
    ensures { IsTrue result ↔ (one.now ≡ two.now) }
{
    if one.len() != two.len() {
        return false;
    }
    for (at, item) in one.iter().enumerate() {
        if !item.same(&two[at]) {
            return false;
        }
    }
    true
}
