//! The table of shortest paths between all switches.
ghost use Rattle.std.specs.Prelude.{◌≡◌, ℕ, ◌<◌, ◌≤◌, ◌^◌, [], length, replicate, slice_index_or, true, IfOk, None};
ghost use Rattle.route_app.specs.Rounds.{at_home};
ghost use Rattle.route_app.specs.Table.{AreWithin, IsReady, IsSquare, IsTable, ways};

use crate::changes::{is_stale, span_of_changes};
use crate::queue::Queue;
use crate::reach::{Reach, Row, Rows, Wire};
use crate::rounds::fill_row;
use crate::ways_in::ways_in_of;
use listed::Listed;
use std::alloc::{AllocError, Global};

/// A table for so many switches where no link can be used yet: each has a path to itself alone.
pub fn empty_rows(alloc: Global, size: usize, wires: &[Wire]) -> Result<Rows, AllocError>
    requires { AreWithin size wires.now }
    ensures { IfOk result (λ rows. IsReady size wires.now rows) }
{
    Ok(Rows {
        rows: homes_of(alloc, size)?,
        down: none_usable(alloc, wires.len())?,
        ways_in: ways_in_of(alloc, size, wires)?,
        queue: Queue::with_room(alloc, size)?,
    })
}

/// So many rows in which each switch is reached from itself alone.
fn homes_of(alloc: Global, size: usize) -> Result<Listed<Row>, AllocError>
    ensures square { IfOk result (λ rows. IsSquare size rows) }
    ensures homes { IfOk result (λ rows. (b : ℕ) → b < size → slice_index_or rows b [] ≡ at_home size b) }
{
    let mut rows = Listed::new(alloc);
    for at in 0..size {
        let mut row: Row = Listed::of(vec![in alloc; None; size]?);
        row.replace(at, Some(Reach { links: 0, port: 0 }));
        rows.push(row)?;
    }
    Ok(rows)
}

/// Flags by which none of so many links can be used.
fn none_usable(alloc: Global, count: usize) -> Result<Listed<(bool, bool)>, AllocError>
    ensures { IfOk result (λ flags. flags ≡ replicate count (true, true)) }
{
    Ok(Listed::of(vec![in alloc; (true, true); count]?))
}

/// Comes to all shortest paths by the links that can be used now. It finds only those rows anew that may have to change, and takes no
/// memory.
pub fn fill(rows: &mut Rows, wires: &[Wire], down: &[(bool, bool)])
    requires few { length rows.old.rows ≤ 2 ^ 16 }
    requires ready { IsReady (length rows.old.rows) wires.now rows.old }
    requires within { AreWithin (length rows.old.rows) wires.now }
    requires flags { length down.now ≡ length wires.now }
    ensures ready { IsReady (length rows.old.rows) wires.now rows.new }
    ensures right { IsTable (ways wires.now down.now) rows.new.rows }
{
    let span = span_of_changes(rows.down.as_slice(), down);
    for to in 0..rows.rows.len() {
        if is_stale(&rows.rows[to], span, wires, rows.down.as_slice(), down) {
            fill_row(
                rows.rows.item_mut(to),
                &mut rows.queue,
                to,
                rows.ways_in.as_slice(),
                down,
            );
        }
    }
    copy_flags(&mut rows.down, down);
}

/// Puts down the flags of each link.
fn copy_flags(to: &mut Listed<(bool, bool)>, from: &[(bool, bool)])
    requires { length to.old ≡ length from.now }
    ensures { to.new ≡ from.now }
{
    for at in 0..to.len() {
        to.replace(at, from[at]);
    }
}

/// What the table has for a way between two switches.
pub fn reach_between(rows: &Rows, from: usize, to: usize) -> Option<Reach>
    ensures { result ≡ slice_index_or (slice_index_or rows.now.rows to []) from None }
{
    let row = rows.rows.get(to)?;
    *row.get(from)?
}
