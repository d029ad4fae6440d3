//! The classes that the entries of a flow table cut a cell into.

ghost use Rattle.std.specs.Prelude.{◌≡◌, ◌++◌, ℕ, All, IfOk, IsTrue, OnOk, cond, length, map};
ghost use Rattle.of10_match.specs.Match.{IsValidMatch, takes};
ghost use Rattle.of10_match.specs.declared.header.Header.{Header};
ghost use Rattle.flow_table.specs.Best.{best_place};
ghost use Rattle.header_classes.specs.Cell.{IsPartition, cells_of, in_cell, times};

use crate::cell::{Cell, Cells, Classes, takes_port};
use crate::cutting::{add, one, take_out};
use crate::order::by_rank;
use flow_table::Table;
use of10_match::Match;
use std::alloc::{AllocError, Global};

/// Cuts a cell into classes of headers that come in by a port: cells that together are the given one, each with the
/// place of the entry that is the best one for every header in it, or with none where no entry takes any.
pub fn classes(
    alloc: Global,
    table: &Table,
    in_port: u16,
    cell: &Cell,
) -> Result<Classes, AllocError>
    ensures partition { IfOk result (λ classes. IsPartition (λ h. in_cell cell.now h) (cells_of classes)) }
    ensures best { IfOk result (λ classes. All (λ class. (h : Header) → IsTrue (in_cell class.0 h)
        → best_place table.now in_port h ≡ class.1) classes) }
{
    let entries = table.entries();
    flow_table::laws::the_best_entry_is_unbeaten();
    of10_match::laws::tests_mean_what_matches_take();
    let order = by_rank(alloc, entries)?;
    let mut classes = Classes::new(alloc);
    let mut left = one(alloc, cell)?;
    for (_, place) in &order {
        let place = *place;
        let parts = cut_each(alloc, left, in_port, &entries[place].matches)?;
        label(&mut classes, &parts.taken, Some(place))?;
        left = parts.rest;
    }
    label(&mut classes, &left, None)?;
    Ok(classes)
}

/// What a match takes of a list of cells, and the rest.
#[derive(Drop)]
struct Parts {
    taken: Cells,
    rest: Cells,
}

/// Cuts each cell of a list by a match.
fn cut_each(alloc: Global, cells: Cells, in_port: u16, matches: &Match) -> Result<Parts, AllocError>
    requires { IsValidMatch matches.now }
    ensures taken { IfOk result (λ parts. (h : Header)
        → times parts.taken h ≡ cond (takes matches.now in_port h) (times cells h) 0) }
    ensures rest { IfOk result (λ parts. (h : Header)
        → times parts.rest h ≡ cond (takes matches.now in_port h) 0 (times cells h)) }
{
    let mut taken = Cells::new(alloc);
    if !takes_port(matches, in_port) {
        return Ok(Parts { taken, rest: cells });
    }
    let mut rest = Cells::new(alloc);
    for cell in cells.iter() {
        let part = take_out(cell, in_port, matches, &mut rest)?;
        add(&mut taken, part)?;
    }
    Ok(Parts { taken, rest })
}

/// Adds classes whose best entry stands at one place.
fn label(classes: &mut Classes, cells: &Cells, best: Option<usize>) -> Result<(), AllocError>
    ensures { OnOk result (classes.new ≡ classes.old ++ map (λ cell. (cell, best)) cells.now) }
{
    for cell in cells.iter() {
        classes.push((*cell, best))?;
    }
    Ok(())
}
