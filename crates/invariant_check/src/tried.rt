//! The entries of all tables of a network, as they are tried.

ghost use Rattle.std.specs.Prelude.{IfOk};
ghost use Rattle.std.specs.List.{AllZip};
ghost use Rattle.header_classes.specs.Trials.{AreTrials};

use event_world::NetState;
use header_classes::Trials;
use std::alloc::{AllocError, Global};

/// For each switch the entries of its table, in the order in which they are tried. They are listed once for all invariants, since
/// each class of headers asks for them at each of its stops.
pub(crate) fn trials_of(alloc: Global, net: &NetState) -> Result<Vec<Trials>, AllocError>
    ensures { IfOk result (λ trials. AllZip AreTrials net.now.tables trials.items) }
{
    let mut trials = Vec::new(alloc);
    for table in net.tables.iter() {
        trials.push(Trials::of(alloc, table)?)?;
    }
    Ok(trials)
}
