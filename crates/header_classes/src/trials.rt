//! The entries of a table as they are tried for all headers of a cell at once.

ghost use Rattle.std.specs.Prelude.{◌≡◌, ◌&&◌, ◌<◌, ℕ, IfOk, IfSome, IsTrue, List, Some, false, length, nat_eq, slice_get, true};
ghost use Rattle.std.specs.List.{AllZip};
ghost use Rattle.of10_match.specs.Field.{takes_by};
ghost use Rattle.of10_match.specs.Header.{IsValidHeader};
ghost use Rattle.of10_match.specs.Match.{IsValidMatch, takes};
ghost use Rattle.of10_match.specs.declared.header.Header.{Header};
ghost use Rattle.flow_table.specs.Best.{best_place};
ghost use Rattle.flow_table.specs.declared.entry.Entry.{Entry};
ghost use Rattle.header_classes.specs.Interval.{IsInner};
ghost use Rattle.header_classes.specs.Cell.{in_cell};

use crate::cell::{Cell, FIELDS, numbers_of};
use crate::fields::Fields;
use crate::order::by_rank;
use flow_table::Table;
use of10_match::{Header, Match};
use std::alloc::{AllocError, Global};

/// An entry as it is tried: where it stands, the port that it asks for, if any, and the headers that it takes there.
/// Most entries ask for few fields, and one of these tells most cells apart: they are looked at first.
#[derive(Clone, Copy, Debug)]
pub(crate) struct Trial {
    place: usize,
    in_port: Option<u16>,
    taken: Cell,
    asked: Fields,
}

/// The entries of a table in the order in which they are tried, each with the cell of its match, which is made once.
#[derive(Debug, Drop)]
pub struct Trials {
    trials: Vec<Trial>,
}

impl Trial {
    ghost use Rattle.header_classes.specs.Trials.{tried};

    /// The entry at a place, by its match.
    fn of(place: usize, matches: &Match) -> Trial
        requires { IsValidMatch matches.now }
        ensures place { result.place ≡ place }
        ensures takes { (port : ℕ) (h : Header) → IsValidHeader h
            → takes matches.now port h ≡ (takes_by nat_eq result.in_port port && in_cell result.taken h) }
    {
        let taken = Cell::taken(matches);
        Trial {
            place,
            in_port: matches.in_port,
            asked: Fields::asked_by(&taken),
            taken,
        }
    }

    /// Whether it takes the port.
    fn takes_port(&self, in_port: u16) -> bool
        ensures { result ≡ takes_by nat_eq self.now.in_port in_port }
    {
        self.in_port.is_none_or(|port| port == in_port)
    }

    /// Narrows a cell round one of its headers until the entry takes all its headers that come in by a port or none, and
    /// tells which.
    fn takes(&self, cell: &mut Cell, header: &Header, in_port: u16) -> bool
        requires inside { IsTrue (in_cell cell.old header.now) }
        ensures inside { IsTrue (in_cell cell.new header.now) }
        ensures inner { AllZip IsInner cell.old cell.new }
        ensures settled { (h : Header) → IsTrue (in_cell cell.new h)
            → tried in_port h self.now ≡ result }
    {
        cell.every_cell();
        if !self.takes_port(in_port) {
            return false;
        }
        if self.is_apart(cell) {
            return false;
        }
        cell.settle(header, &self.taken)
    }

    /// Whether a field that the entry asks for tells by itself that the entry takes no header of a cell.
    fn is_apart(&self, cell: &Cell) -> bool
        ensures { IsTrue result → (h : Header) → IsTrue (in_cell cell.now h) → in_cell self.now.taken h ≡ false }
    {
        for at in 0..self.asked.many {
            let field = self.asked.fields[at];
            if cell.interval(field).is_apart(&self.taken.interval(field)) {
                return true;
            }
        }
        false
    }

    /// Whether each field that the entry asks for is as it asks.
    fn is_met(&self, numbers: &[u64; FIELDS]) -> bool {
        for at in 0..self.asked.many {
            let field = self.asked.fields[at];
            if !self.taken.interval(field).has(numbers[field]) {
                return false;
            }
        }
        true
    }
}

impl Trials {
    ghost use Rattle.header_classes.specs.Trials.{AreTrials, tried};
    ghost use Rattle.header_classes.specs.declared.trials.Trial.{Trial};

    /// The entries of a table, in order.
    pub fn of(alloc: Global, table: &Table) -> Result<Trials, AllocError>
        ensures { IfOk result (λ trials. AreTrials table.now trials) }
    {
        let entries = table.entries();
        let order = by_rank(alloc, entries)?;
        let mut trials = Vec::new(alloc);
        for (_, place) in &order {
            let place = *place;
            trials.push(Trial::of(place, &entries[place].matches))?;
        }
        Ok(Trials { trials })
    }

    /// Narrows a cell round one of its headers until one entry is the best one for all its headers that come in by a port,
    /// or none is, and tells its place. The entry that takes the header comes first, since what it leaves of the cell is
    /// out of reach of most entries before it.
    pub fn best(&self, cell: &mut Cell, header: &Header, in_port: u16) -> Option<usize>
        requires inside { IsTrue (in_cell cell.old header.now) }
        ensures inside { IsTrue (in_cell cell.new header.now) }
        ensures inner { AllZip IsInner cell.old cell.new }
        ensures best { (entries : List Entry) (h : Header) → AreTrials entries self.now → IsTrue (in_cell cell.new h)
            → best_place entries in_port h ≡ result }
    {
        flow_table::laws::the_best_entry_is_unbeaten();
        of10_match::laws::tests_mean_what_matches_take();
        let first = self.begin_with_first(cell, header, in_port);
        cell.every_cell();
        let until = first.unwrap_or(self.trials.len());
        for at in 0..until {
            let trial = &self.trials[at];
            if trial.takes(cell, header, in_port) {
                return Some(trial.place);
            }
        }
        let first = first?;
        Some(self.trials[first].place)
    }

    /// Narrows a cell round one of its headers by the first entry that takes the header on a port, and tells where in the
    /// order it is.
    fn begin_with_first(&self, cell: &mut Cell, header: &Header, in_port: u16) -> Option<usize>
        requires inside { IsTrue (in_cell cell.old header.now) }
        ensures inside { IsTrue (in_cell cell.new header.now) }
        ensures inner { AllZip IsInner cell.old cell.new }
        ensures within { IfSome result (λ first. first < length self.now.trials.items) }
        ensures taken { IfSome result (λ first. (trial : Trial) (h : Header) → slice_get self.now.trials.items first ≡ Some trial
            → IsTrue (in_cell cell.new h) → tried in_port h trial ≡ true) }
    {
        cell.every_cell();
        let numbers = numbers_of(header);
        for at in 0..self.trials.len() {
            let trial = &self.trials[at];
            if trial.takes_port(in_port) && trial.is_met(&numbers) {
                return trial.takes(cell, header, in_port).then_some(at);
            }
        }
        None
    }
}
