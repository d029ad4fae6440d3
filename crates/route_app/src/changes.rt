//! Which rows of the table have to be found anew when other links can be used.
ghost use Rattle.std.specs.Prelude.{◌≡◌, ℕ, ◌<◌, ◌≤◌, ◌⊎◌, false, length, slice_index_or};
ghost use Rattle.route_app.specs.Changes.{begins_by, is_shorter, is_touched, IsUntouched};
ghost use Rattle.route_app.specs.Table.{AreWithin};

use crate::reach::{Reach, Row, Wire};
use crate::told::is_down;

/// The first place where two lists of flags differ, and the place after the last one.
pub fn span_of_changes(before: &[(bool, bool)], now: &[(bool, bool)]) -> (usize, usize)
    requires { length before.now ≡ length now.now }
    ensures end { result.1 ≤ length now.now }
    ensures same { (k : ℕ) → k < length now.now → (k < result.0) ⊎ (result.1 ≤ k) → slice_index_or before.now k (false, false) ≡ slice_index_or now.now k (false, false) }
{
    let mut start = now.len();
    let mut end = 0;
    for (at, ends) in now.iter().enumerate() {
        if before[at] != *ends {
            start = start.min(at);
            end = at + 1;
        }
    }
    (start, end)
}

/// Whether a row may have to change. The flags can differ from the first place of `span` to before its second.
pub fn is_stale(
    row: &Row,
    span: (usize, usize),
    wires: &[Wire],
    before: &[(bool, bool)],
    now: &[(bool, bool)],
) -> bool
    requires within { AreWithin (length row.now) wires.now }
    requires before { length before.now ≡ length wires.now }
    requires now { length now.now ≡ length wires.now }
    requires end { span.1 ≤ length wires.now }
    requires same { (k : ℕ) → k < length now.now → (k < span.0) ⊎ (span.1 ≤ k) → slice_index_or before.now k (false, false) ≡ slice_index_or now.now k (false, false) }
    ensures { result ≡ false → IsUntouched row.now wires.now before.now now.now }
{
    for at in span.0..span.1 {
        let was = is_down(before[at]);
        let is = is_down(now[at]);
        if is_touched(row, wires[at], was, is) {
            return true;
        }
    }
    false
}

/// Whether a row has to change because a link can no longer be used, or can be used again.
fn is_touched(row: &Row, wire: Wire, was_down: bool, is_down: bool) -> bool
    requires first { wire.0 < length row.now }
    requires second { wire.2 < length row.now }
    ensures { result ≡ is_touched row.now wire was_down is_down }
{
    let first = row[usize::from(wire.0)];
    let second = row[usize::from(wire.2)];
    match (was_down, is_down) {
        (false, true) => begins_by(wire.1, first, second) || begins_by(wire.3, second, first),
        (true, false) => is_shorter(wire.1, first, second) || is_shorter(wire.3, second, first),
        _ => false,
    }
}

/// Whether the shortest path from a switch begins by a port that leads to a switch one link nearer.
fn begins_by(port: u16, here: Option<Reach>, there: Option<Reach>) -> bool
    ensures { result ≡ begins_by port here there }
{
    match (here, there) {
        (Some(here), Some(there)) => {
            u64::from(here.links) == u64::from(there.links) + 1 && here.port == port
        }
        _ => false,
    }
}

/// Whether a path by a port is shorter than the known one, or as short and by a lesser port.
fn is_shorter(port: u16, here: Option<Reach>, there: Option<Reach>) -> bool
    ensures { result ≡ is_shorter port here there }
{
    match (here, there) {
        (_, None) => false,
        (None, Some(_)) => true,
        (Some(here), Some(there)) => {
            let links = u64::from(there.links) + 1;
            links < u64::from(here.links) || u64::from(here.links) == links && port < here.port
        }
    }
}
