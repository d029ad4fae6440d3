//! Narrowing a cell until all its headers have one answer.

ghost use Rattle.std.specs.Prelude.{◌≡◌, ◌&&◌, IsTrue, false};
ghost use Rattle.std.specs.List.{AllZip};
ghost use Rattle.of10_match.specs.declared.header.Header.{Header};
ghost use Rattle.header_classes.specs.Interval.{IsInner};
ghost use Rattle.header_classes.specs.Cell.{in_cell};

use crate::cell::{Cell, FIELDS, numbers_of};
use of10_match::Header;

impl Cell {
    /// Narrows the cell round one of its headers until all its headers are in the other cell or none is, and tells which.
    /// Where the header is in the other cell, what both have is left. Where the cells have nothing in common, nothing
    /// changes. Else what lies on the header's side of the other cell is left, in the first field that tells them apart.
    pub fn settle(&mut self, header: &Header, other: &Cell) -> bool
        requires inside { IsTrue (in_cell self.old header.now) }
        ensures inside { IsTrue (in_cell self.new header.now) }
        ensures inner { AllZip IsInner self.old self.new }
        ensures settled { (h : Header) → IsTrue (in_cell self.new h) → in_cell other.now h ≡ result }
    {
        self.every_cell();
        if other.has(header) {
            self.narrow_to(header, other);
            return true;
        }
        if self.meet(other).is_some() {
            self.leave(header, other);
        }
        false
    }

    /// Narrows the cell to what it has in common with another one, where a header is in both.
    fn narrow_to(&mut self, header: &Header, other: &Cell)
        requires inside { IsTrue (in_cell self.old header.now) }
        requires both { IsTrue (in_cell other.now header.now) }
        ensures both { (h : Header) → in_cell self.new h ≡ (in_cell self.old h && in_cell other.now h) }
        ensures inner { AllZip IsInner self.old self.new }
    {
        self.every_cell();
        other.every_cell();
        for field in 0..FIELDS {
            if let Some(both) = self.interval(field).meet(&other.interval(field)) {
                self.set(field, both);
            }
        }
    }

    /// Narrows the cell, round a header of it that is not in another cell, until none of its headers is.
    fn leave(&mut self, header: &Header, other: &Cell)
        requires inside { IsTrue (in_cell self.old header.now) }
        requires outside { in_cell other.now header.now ≡ false }
        ensures inside { IsTrue (in_cell self.new header.now) }
        ensures inner { AllZip IsInner self.old self.new }
        ensures apart { (h : Header) → IsTrue (in_cell self.new h) → in_cell other.now h ≡ false }
    {
        self.every_cell();
        other.every_cell();
        let numbers = numbers_of(header);
        for field in 0..FIELDS {
            let outer = other.interval(field);
            let number = numbers[field];
            if !outer.has(number) {
                let side = self.interval(field).beside(&outer, number);
                self.set(field, side);
                return;
            }
        }
    }
}
