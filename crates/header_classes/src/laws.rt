//! Laws of the definitions, each the contract of a function that does nothing.

ghost use Rattle.std.specs.Prelude.{◌≡◌, ◌&&◌, ℕ, AllPairs, Bool, IsTrue, List, Option, false};
ghost use Rattle.std.specs.List.{AllZip, list_any};
ghost use Rattle.of10_match.specs.Header.{IsValidHeader};
ghost use Rattle.of10_match.specs.declared.header.Header.{Header};
ghost use Rattle.header_classes.specs.Cell.{IsPartition, cells_of, in_cell};
ghost use Rattle.header_classes.specs.Interval.{IsInner};
ghost use Rattle.header_classes.specs.Rewrite.{IsValidRewrite, rewritten};
ghost use Rattle.header_classes.specs.declared.interval.Interval.{Interval};
ghost use Rattle.header_classes.specs.declared.rewrite.Rewrite.{Rewrite};

use crate::cell::Cell;

/// Cells are a partition of a set of headers exactly where no header is in two of them, and a header is in one of them
/// exactly where it is in the set. So where the cells of classes are a partition, each header of the set has its class.
pub fn partitions_are_disjoint_covers()
    ensures disjoint { (set : Header → Bool) (cells : List (List Interval)) → IsPartition set cells
        → AllPairs (λ one other. (h : Header) → (in_cell one h && in_cell other h) ≡ false) cells }
    ensures covers { (set : Header → Bool) (cells : List (List Interval)) → IsPartition set cells
        → (h : Header) → list_any (λ cell. in_cell cell h) cells ≡ set h }
    ensures both { (set : Header → Bool) (cells : List (List Interval))
        → AllPairs (λ one other. (h : Header) → (in_cell one h && in_cell other h) ≡ false) cells
        → ((h : Header) → list_any (λ cell. in_cell cell h) cells ≡ set h) → IsPartition set cells }
    ensures classes { (set : Header → Bool) (classes : List (List Interval × Option ℕ)) → IsPartition set (cells_of classes)
        → (h : Header) → list_any (λ class. in_cell class.0 h) classes ≡ set h }
{}

/// The headers of a cell are valid, and it is one of its own inner cells.
pub fn a_cell_has_valid_headers(cell: &Cell)
    ensures valid { (h : Header) → IsTrue (in_cell cell.now h) → IsValidHeader h }
    ensures inner { AllZip IsInner cell.now cell.now }
{
    cell.every_cell();
}

/// An inner cell has no header that the outer one lacks, and what is inner to it is inner to the outer one.
pub fn inner_cells_are_parts()
    ensures part { (outer inner : List Interval) (h : Header) → AllZip IsInner outer inner
        → IsTrue (in_cell inner h) → IsTrue (in_cell outer h) }
    ensures chain { (outer inner innermost : List Interval) → AllZip IsInner outer inner
        → AllZip IsInner inner innermost → AllZip IsInner outer innermost }
{}

/// Valid sets make valid headers of valid headers.
pub fn sets_keep_headers_valid()
    ensures { (sets : Rewrite) (h : Header) → IsValidRewrite sets → IsValidHeader h → IsValidHeader (rewritten sets h) }
{}
