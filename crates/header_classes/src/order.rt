//! The order in which the entries of a table are tried.

ghost use Rattle.std.specs.Prelude.{◌≡◌, IfOk};
ghost use Rattle.header_classes.specs.Order.{IsOrder};

use flow_table::Entry;
use std::alloc::{AllocError, Global};
use std::cmp::Reverse;

/// The rank of an entry, and its place. In order the greater ranks come first, and of equal ones the earlier places.
pub(crate) type Ranked = (Reverse<u32>, usize);

/// The entries of a table by their rank, and those of one rank by their place: each before all that it beats.
pub(crate) fn by_rank(alloc: Global, entries: &[Entry]) -> Result<Vec<Ranked>, AllocError>
    ensures { IfOk result (λ order. IsOrder entries.now order.items) }
{
    let mut order = Vec::new(alloc);
    for (place, entry) in entries.iter().enumerate() {
        order.push((Reverse(entry.rank()), place))?;
    }
    order.sort_unstable();
    Ok(order)
}
