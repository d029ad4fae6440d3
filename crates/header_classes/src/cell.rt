//! Cells of headers.

ghost use Rattle.std.specs.Prelude.{◌≡◌, ◌≢◌, ◌<◌, ◌≤◌, ◌&&◌, ◌↔◌, ℕ, IfSome, IsTrue, Some, length, map, nat_eq, slice_get, slice_index, slice_set};
ghost use Rattle.std.specs.List.{AllZip};
ghost use Rattle.std.specs.declared.cmp.Ordering.TheVariants.{Less};
ghost use Rattle.of10_match.specs.Field.{takes_by};
ghost use Rattle.of10_match.specs.Header.{IsValidHeader, header_cmp};
ghost use Rattle.of10_match.specs.Match.{IsValidMatch, takes};
ghost use Rattle.of10_match.specs.declared.header.Header.{Header};
ghost use Rattle.header_classes.specs.Interval.{IsInner, IsInterval};
ghost use Rattle.header_classes.specs.Cell.{each_within, fields, in_cell, in_some, widths};
ghost use Rattle.header_classes.specs.Size.{size};

use crate::interval::Interval;
use listed::Listed;
use of10_match::{Header, Match};
use std::marker::Model;

/// How many fields a header has.
pub(crate) const FIELDS: usize = 11;

/// How many bits each field has.
const WIDTHS: [u32; FIELDS] = [48, 48, 16, 8, 16, 8, 8, 32, 32, 16, 16];

/// A list of cells.
pub type Cells = Listed<Cell>;

/// Cells, each with the place of the entry that is the best one for its headers, or with none where no entry takes any.
pub type Classes = Listed<(Cell, Option<usize>)>;

/// A cell of headers: a closed interval for each field of a header, in the order of the fields. A header is in
/// the cell where each of its fields is within the interval of that field. No cell is empty.
#[derive(Clone, Copy, Debug, PartialEq, Eq)]
pub struct Cell {
    intervals: [Interval; FIELDS],
}

impl Model for Cell {
    ghost use Rattle.std.specs.Prelude.{List};
    ghost use Rattle.header_classes.specs.declared.interval.Interval.{Interval};
    ghost use Rattle.header_classes.specs.Cell.{IsCell};

    ghost Value = { List Interval };

    ghost view = { λ c. c.intervals };

    ghost inverse = { λ l. record { intervals = l } };

    ghost invariant = { λ c. IsCell c.intervals };
}

impl Cell {
    /// The cell of all valid headers.
    pub fn full() -> Cell
        ensures { (h : Header) → IsTrue (in_cell result h) ↔ IsValidHeader h }
    {
        let cell = Cell::taken(&Match::any());
        cell.every_cell();
        of10_match::laws::any_match_takes_all();
        of10_match::laws::tests_mean_what_matches_take();
        cell
    }

    /// The headers that a match takes on a port, if there are any.
    pub fn of_match(in_port: u16, matches: &Match) -> Option<Cell>
        requires { IsValidMatch matches.now }
        ensures { (h : Header) → IsValidHeader h → in_some result h ≡ takes matches.now in_port h }
    {
        let taken = Cell::taken(matches);
        takes_port(matches, in_port).then_some(taken)
    }

    /// The headers that a match takes where it takes the port.
    pub(crate) fn taken(matches: &Match) -> Cell
        requires { IsValidMatch matches.now }
        ensures { (port : ℕ) (h : Header) → IsValidHeader h
            → takes matches.now port h ≡ (takes_by nat_eq matches.now.in_port port && in_cell result h) }
    {
        Cell {
            intervals: [
                Interval::of_number(48, matches.dl_src),
                Interval::of_number(48, matches.dl_dst),
                Interval::of_u16(matches.dl_vlan),
                Interval::of_u8(matches.dl_vlan_pcp),
                Interval::of_u16(matches.dl_type),
                Interval::of_u8(matches.nw_tos),
                Interval::of_u8(matches.nw_proto),
                Interval::of_address(matches.nw_src),
                Interval::of_address(matches.nw_dst),
                Interval::of_u16(matches.tp_src),
                Interval::of_u16(matches.tp_dst),
            ],
        }
    }

    /// Whether a header is in the cell.
    pub fn has(&self, header: &Header) -> bool
        ensures { result ≡ in_cell self.now header.now }
    {
        each_within(&self.intervals, &numbers_of(header))
    }

    /// The least header of the cell, whose fields are the low ends of the intervals.
    pub fn least(&self) -> Header
        ensures lows { fields result ≡ map (λ interval. interval.low) self.now }
        ensures inside { IsTrue (in_cell self.now result) }
        ensures least { (h : Header) → IsTrue (in_cell self.now h) → header_cmp h result ≢ Less }
    {
        let [
            dl_src,
            dl_dst,
            dl_vlan,
            dl_vlan_pcp,
            dl_type,
            nw_tos,
            nw_proto,
            nw_src,
            nw_dst,
            tp_src,
            tp_dst,
        ] = self.intervals;
        Header {
            dl_src: dl_src.low,
            dl_dst: dl_dst.low,
            dl_vlan: dl_vlan.low as u16,
            dl_vlan_pcp: dl_vlan_pcp.low as u8,
            dl_type: dl_type.low as u16,
            nw_tos: nw_tos.low as u8,
            nw_proto: nw_proto.low as u8,
            nw_src: nw_src.low as u32,
            nw_dst: nw_dst.low as u32,
            tp_src: tp_src.low as u16,
            tp_dst: tp_dst.low as u16,
        }
    }

    /// What is true of every cell: facts for the proof.
    pub(crate) fn every_cell(&self)
        ensures fields { length self.now ≡ 11 }
        ensures valid { (h : Header) → IsTrue (in_cell self.now h) → IsValidHeader h }
        ensures inner { AllZip IsInner self.now self.now }
        ensures some { (h : Header) × IsTrue (in_cell self.now h) }
        ensures size { 1 ≤ size self.now }
    {
        let _intervals = &self.intervals;
    }

    /// The part of the cell that lies in another one, where there is one.
    pub(crate) fn meet(&self, other: &Cell) -> Option<Cell>
        ensures both { (h : Header) → in_some result h ≡ (in_cell self.now h && in_cell other.now h) }
        ensures inner { IfSome result (λ part. AllZip IsInner self.now part) }
    {
        self.every_cell();
        other.every_cell();
        let mut part = *self;
        for field in 0..FIELDS {
            let both = part.interval(field).meet(&other.interval(field))?;
            part.set(field, both);
        }
        Some(part)
    }

    /// The interval of a field.
    pub(crate) fn interval(&self, field: usize) -> Interval
        requires { field < 11 }
        ensures here { slice_get self.now field ≡ Some result }
        ensures valid { IsInterval (slice_index widths field) result }
    {
        self.intervals[field]
    }

    /// Puts another interval in the place of a field's.
    pub(crate) fn set(&mut self, field: usize, interval: Interval)
        requires field { field < 11 }
        requires valid { IsInterval (slice_index widths field) interval }
        ensures { self.new ≡ slice_set self.old field interval }
    {
        self.intervals[field] = interval;
    }
}

pub(crate) fn takes_port(matches: &Match, in_port: u16) -> bool
    ensures { result ≡ takes_by nat_eq matches.now.in_port in_port }
{
    matches.in_port.is_none_or(|port| port == in_port)
}

/// How many bits a field has.
#[tactic(auto, unfolding(crate::specs::Cell::widths))]
pub(crate) fn width(field: usize) -> u32
    requires { field < 11 }
    ensures here { result ≡ slice_index widths field }
    ensures most { result ≤ 48 }
{
    WIDTHS[field]
}

/// The fields of a header, as numbers.
#[tactic(auto, unfolding(crate::specs::Cell::fields))]
pub(crate) fn numbers_of(header: &Header) -> [u64; FIELDS]
    ensures { result ≡ fields header.now }
{
    [
        header.dl_src,
        header.dl_dst,
        u64::from(header.dl_vlan),
        u64::from(header.dl_vlan_pcp),
        u64::from(header.dl_type),
        u64::from(header.nw_tos),
        u64::from(header.nw_proto),
        u64::from(header.nw_src),
        u64::from(header.nw_dst),
        u64::from(header.tp_src),
        u64::from(header.tp_dst),
    ]
}

/// Whether each number is within the interval at its place.
fn each_within(intervals: &[Interval], numbers: &[u64]) -> bool
    requires { length intervals.now ≡ length numbers.now }
    ensures { result ≡ each_within intervals.now numbers.now }
{
    for (field, interval) in intervals.iter().enumerate() {
        if !interval.has(numbers[field]) {
            return false;
        }
    }
    true
}
