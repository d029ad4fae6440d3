//! Cutting a cell by what a match takes.

ghost use Rattle.std.specs.Prelude.{◌≡◌, ◌<◌, ◌≤◌, ◌+◌, ◌&&◌, ◌↔◌, [], ◌∷◌, ◌++◌, IfOk, IfSome, IsNone, IsSome, IsTrue, OnOk, cond, length, not, slice_index, slice_set};
ghost use Rattle.std.specs.List.{AllZip};
ghost use Rattle.std.specs.Option.{option_map, option_map_or};
ghost use Rattle.of10_match.specs.Match.{IsValidMatch, takes};
ghost use Rattle.of10_match.specs.declared.header.Header.{Header};
ghost use Rattle.header_classes.specs.Interval.{IsInner, IsInterval};
ghost use Rattle.header_classes.specs.Cell.{IsPartition, in_cell, in_some, times, widths};
ghost use Rattle.header_classes.specs.Size.{size, sizes};

use crate::cell::{Cell, Cells, FIELDS};
use crate::interval::Interval;
use of10_match::Match;
use std::alloc::{AllocError, Global};

/// Cuts a cell by a match: the part that the match takes on a port, which is there exactly where it takes some header
/// of the cell, and cells for the rest, at most two for each field. A cell of which nothing is taken stays whole.
pub fn cut(
    alloc: Global,
    cell: &Cell,
    in_port: u16,
    matches: &Match,
) -> Result<(Option<Cell>, Cells), AllocError>
    requires { IsValidMatch matches.now }
    ensures taken { IfOk result (λ parts. (h : Header)
        → in_some parts.0 h ≡ (in_cell cell.now h && takes matches.now in_port h)) }
    ensures some { IfOk result (λ parts. IsSome parts.0
        ↔ ((h : Header) × IsTrue (in_cell cell.now h && takes matches.now in_port h))) }
    ensures rest { IfOk result (λ parts.
        IsPartition (λ h. in_cell cell.now h && not (takes matches.now in_port h)) parts.1) }
    ensures whole { IfOk result (λ parts. IsNone parts.0 → parts.1 ≡ cell.now ∷ []) }
    ensures few { IfOk result (λ parts. length parts.1 ≤ 22) }
{
    let mut rest = Cells::new(alloc);
    let taken = take_out(cell, in_port, matches, &mut rest)?;
    if let Some(part) = &taken {
        part.every_cell();
    }
    Ok((taken, rest))
}

/// Takes out of a cell what a match takes on a port, and adds cells for the rest to a list.
pub(crate) fn take_out(
    cell: &Cell,
    in_port: u16,
    matches: &Match,
    rest: &mut Cells,
) -> Result<Option<Cell>, AllocError>
    requires { IsValidMatch matches.now }
    ensures taken { IfOk result (λ taken. (h : Header)
        → in_some taken h ≡ (in_cell cell.now h && takes matches.now in_port h)) }
    ensures rest { OnOk result ((h : Header)
        → times rest.new h ≡ times rest.old h + cond (in_cell cell.now h && not (takes matches.now in_port h)) 1 0) }
    ensures whole { IfOk result (λ taken. IsNone taken → rest.new ≡ rest.old ++ cell.now ∷ []) }
    ensures few { OnOk result (length rest.new ≤ length rest.old + 22) }
{
    let Some(taken) = taken_part(cell, in_port, matches) else {
        rest.push(*cell)?;
        return Ok(None);
    };
    cell.add_rest(&taken, rest)?;
    Ok(Some(taken))
}

/// The part of a cell that a match takes on a port.
fn taken_part(cell: &Cell, in_port: u16, matches: &Match) -> Option<Cell>
    requires { IsValidMatch matches.now }
    ensures taken { (h : Header) → in_some result h ≡ (in_cell cell.now h && takes matches.now in_port h) }
    ensures inner { IfSome result (λ part. AllZip IsInner cell.now part) }
{
    cell.every_cell();
    cell.meet(&Cell::of_match(in_port, matches)?)
}

/// A cell alone.
pub(crate) fn one(alloc: Global, cell: &Cell) -> Result<Cells, AllocError>
    ensures { IfOk result (λ cells. (h : Header) → times cells h ≡ cond (in_cell cell.now h) 1 0) }
{
    let mut cells = Cells::new(alloc);
    cells.push(*cell)?;
    Ok(cells)
}

impl Cell {
    /// Adds cells for what lies in the cell and not in an inner one: for each field in turn what lies below and what lies
    /// above the inner interval, within the inner intervals of the fields before.
    pub fn add_rest(&self, inner: &Cell, rest: &mut Cells) -> Result<(), AllocError>
        requires { AllZip IsInner self.now inner.now }
        ensures whole { OnOk result ((h : Header)
            → times rest.new h + cond (in_cell inner.now h) 1 0 ≡ times rest.old h + cond (in_cell self.now h) 1 0) }
        ensures sizes { OnOk result (sizes rest.new + size inner.now ≡ sizes rest.old + size self.now) }
        ensures some { 1 ≤ size inner.now }
        ensures few { OnOk result (length rest.new ≤ length rest.old + 22) }
    {
        inner.every_cell();
        let mut part = *self;
        for field in 0..FIELDS {
            let outer = part.interval(field);
            let within = inner.interval(field);
            add(rest, narrowed(&part, field, outer.below(within.low)))?;
            add(rest, narrowed(&part, field, outer.above(within.high)))?;
            part.set(field, within);
        }
        Ok(())
    }
}

/// The part of a cell whose field lies in an interval, where there is one.
fn narrowed(cell: &Cell, field: usize, interval: Option<Interval>) -> Option<Cell>
    requires field { field < 11 }
    requires valid { IfSome interval (λ interval. IsInterval (slice_index widths field) interval) }
    ensures { result ≡ option_map (λ interval. slice_set cell.now field interval) interval }
{
    let mut part = *cell;
    part.set(field, interval?);
    Some(part)
}

/// Adds a cell to a list, where there is one.
pub(crate) fn add(cells: &mut Cells, cell: Option<Cell>) -> Result<(), AllocError>
    ensures headers { OnOk result ((h : Header) → times cells.new h ≡ times cells.old h + cond (in_some cell h) 1 0) }
    ensures sizes { OnOk result (sizes cells.new ≡ sizes cells.old + option_map_or size cell 0) }
    ensures few { OnOk result (length cells.new ≤ length cells.old + 1) }
{
    if let Some(cell) = cell {
        cells.push(cell)?;
    }
    Ok(())
}
