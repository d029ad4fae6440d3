//! Whether all elements of a list differ.
ghost use Rattle.std.specs.Prelude.{◌≡◌, ◌≢◌, ℕ, ◌<◌, ◌↔◌, length, slice_index_or, IsTrue, AllPairs};

use crate::plain::Plain;

/// Whether no two elements are one value. It compares each with each later one, so it serves short lists.
pub fn all_different<T: Plain>(items: &[T]) -> bool
    ensures { IsTrue result ↔ AllPairs (λ one other. one ≢ other) items.now }
{
    for at in 0..items.len() {
        if !differs_from_later(items, at) {
            return false;
        }
    }
    true
}

fn differs_from_later<T: Plain>(items: &[T], at: usize) -> bool
    requires { at < length items.now }
    ensures { IsTrue result ↔ ((later : ℕ) (d : T) → at < later → later < length items.now
        → slice_index_or items.now at d ≢ slice_index_or items.now later d) }
{
    for later in at + 1..items.len() {
        if items[at].same(&items[later]) {
            return false;
        }
    }
    true
}
