//! A class of headers: those in a cell round one of them, which is looked at in the place of all. Each question narrows the cell
//! until all its headers have one answer.

ghost use Rattle.std.specs.Prelude.{◌≡◌, ◌≢◌, ◌↔◌, IsTrue, List, true};
ghost use Rattle.std.specs.declared.cmp.Ordering.TheVariants.{Less};
ghost use Rattle.of10_match.specs.Header.{IsValidHeader, header_cmp};
ghost use Rattle.of10_match.specs.declared.header.Header.{Header};
ghost use Rattle.flow_table.specs.Best.{best_place};
ghost use Rattle.flow_table.specs.declared.entry.Entry.{Entry};
ghost use Rattle.header_classes.specs.Cell.{in_cell, in_some};
ghost use Rattle.header_classes.specs.Rewrite.{IsValidRewrite, rewritten};
ghost use Rattle.header_classes.specs.Trials.{AreTrials};

use header_classes::{Cell, Rewrite, Trials, laws};
use of10_match::Header;

/// Headers of one kind, so far as was asked.
#[derive(Clone, Copy, Debug)]
pub(crate) struct Class {
    pub(crate) header: Header,
    pub(crate) cell: Cell,
    ghost inside: { in_cell cell header ≡ true },
}

impl Class {
    ghost use Rattle.invariant_check.specs.Class.{IsNarrowed};

    /// The class of all headers of a cell, round the least one.
    pub(crate) fn of(cell: Cell) -> Class
        ensures cell { result.cell ≡ cell }
        ensures least { (h : Header) → IsTrue (in_cell cell h) → header_cmp h result.header ≢ Less }
    {
        Class {
            header: cell.least(),
            cell,
        }
    }

    /// Whether two lists of sets make one header.
    pub(crate) fn same(&mut self, one: &Rewrite, two: &Rewrite) -> bool
        requires one { IsValidRewrite one.now }
        requires two { IsValidRewrite two.now }
        ensures narrowed { IsNarrowed self.old self.new }
        ensures every { (h : Header) → IsTrue (in_cell self.new.cell h) → (IsTrue result ↔ (rewritten one.now h ≡ rewritten two.now h)) }
    {
        self.settle(one.same_from(two))
    }

    /// Whether the header is in a cell, where there is one.
    fn settle(&mut self, cell: Option<Cell>) -> bool
        ensures narrowed { IsNarrowed self.old self.new }
        ensures valid { (h : Header) → IsTrue (in_cell self.new.cell h) → IsValidHeader h }
        ensures settled { (h : Header) → IsTrue (in_cell self.new.cell h) → in_some cell h ≡ result }
    {
        laws::a_cell_has_valid_headers(&self.cell);
        let Some(cell) = cell else {
            return false;
        };
        let inside = self.cell.settle(&self.header, &cell);
        laws::a_cell_has_valid_headers(&self.cell);
        inside
    }

    /// The place of the best entry of a table for the header after some sets.
    pub(crate) fn best(&mut self, sets: &Rewrite, port: u16, trials: &Trials) -> Option<usize>
        requires sets { IsValidRewrite sets.now }
        ensures narrowed { IsNarrowed self.old self.new }
        ensures every { (entries : List Entry) (h : Header) → AreTrials entries trials.now → IsTrue (in_cell self.new.cell h)
            → best_place entries port (rewritten sets.now h) ≡ result }
    {
        laws::a_cell_has_valid_headers(&self.cell);
        let mut after = sets.after(&self.cell);
        let best = trials.best(&mut after, &sets.apply(&self.header), port);
        self.settle(sets.before(&after));
        best
    }
}
