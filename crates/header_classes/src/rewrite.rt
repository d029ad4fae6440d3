//! What the sets of a list of actions do to a header, and to a cell of headers.

ghost use Rattle.std.specs.Prelude.{◌≡◌, ◌↔◌, IsTrue};
ghost use Rattle.std.specs.List.{AllZip};
ghost use Rattle.of10_match.specs.Field.{IsValidNumber};
ghost use Rattle.of10_match.specs.Header.{IsValidHeader};
ghost use Rattle.of10_match.specs.declared.header.Header.{Header};
ghost use Rattle.of10_messages.specs.Valid.{IsValidAction};
ghost use Rattle.flow_table.specs.Outcome.{after_action};
ghost use Rattle.header_classes.specs.Cell.{in_cell, in_some, widths};

use crate::cell::{Cell, FIELDS, width};
use crate::interval::{Interval, wide_u8, wide_u16, wide_u32};
use of10_match::Header;
use of10_messages::Action;

/// What was set in a header: for each field the number that it was set to last, if it was set.
#[derive(Clone, Copy, Debug, PartialEq, Eq)]
pub struct Rewrite {
    pub dl_src: Option<u64>,
    pub dl_dst: Option<u64>,
    pub dl_vlan: Option<u16>,
    pub dl_vlan_pcp: Option<u8>,
    pub dl_type: Option<u16>,
    pub nw_tos: Option<u8>,
    pub nw_proto: Option<u8>,
    pub nw_src: Option<u32>,
    pub nw_dst: Option<u32>,
    pub tp_src: Option<u16>,
    pub tp_dst: Option<u16>,
}

impl Rewrite {
    ghost use Rattle.header_classes.specs.Rewrite.{IsValidRewrite, numbers, rewritten};

    /// Nothing is set.
    pub fn none() -> Rewrite
        ensures same { (h : Header) → rewritten result h ≡ h }
        ensures valid { IsValidRewrite result }
    {
        Rewrite {
            dl_src: None,
            dl_dst: None,
            dl_vlan: None,
            dl_vlan_pcp: None,
            dl_type: None,
            nw_tos: None,
            nw_proto: None,
            nw_src: None,
            nw_dst: None,
            tp_src: None,
            tp_dst: None,
        }
    }

    /// What is set after one more action.
    pub fn act(&mut self, action: &Action)
        requires action { IsValidAction action.now }
        requires valid { IsValidRewrite self.old }
        ensures after { (h : Header) → rewritten self.new h ≡ after_action (rewritten self.old h) action.now }
        ensures valid { IsValidRewrite self.new }
    {
        match action {
            Action::SetVlanVid(vlan) => self.dl_vlan = Some(*vlan),
            Action::SetVlanPcp(pcp) => self.dl_vlan_pcp = Some(*pcp),
            Action::StripVlan => {
                self.dl_vlan = Some(65535);
                self.dl_vlan_pcp = Some(0);
            }
            Action::SetDlSrc(address) => self.dl_src = Some(*address),
            Action::SetDlDst(address) => self.dl_dst = Some(*address),
            Action::SetNwSrc(address) => self.nw_src = Some(*address),
            Action::SetNwDst(address) => self.nw_dst = Some(*address),
            Action::SetNwTos(tos) => self.nw_tos = Some(*tos),
            Action::SetTpSrc(port) => self.tp_src = Some(*port),
            Action::SetTpDst(port) => self.tp_dst = Some(*port),
            Action::Output { .. } | Action::Other { .. } => {}
        }
    }

    /// The header after the sets.
    pub fn apply(&self, header: &Header) -> Header
        requires header { IsValidHeader header.now }
        requires valid { IsValidRewrite self.now }
        ensures after { result ≡ rewritten self.now header.now }
        ensures valid { IsValidHeader result }
    {
        Header {
            dl_src: self.dl_src.unwrap_or(header.dl_src),
            dl_dst: self.dl_dst.unwrap_or(header.dl_dst),
            dl_vlan: self.dl_vlan.unwrap_or(header.dl_vlan),
            dl_vlan_pcp: self.dl_vlan_pcp.unwrap_or(header.dl_vlan_pcp),
            dl_type: self.dl_type.unwrap_or(header.dl_type),
            nw_tos: self.nw_tos.unwrap_or(header.nw_tos),
            nw_proto: self.nw_proto.unwrap_or(header.nw_proto),
            nw_src: self.nw_src.unwrap_or(header.nw_src),
            nw_dst: self.nw_dst.unwrap_or(header.nw_dst),
            tp_src: self.tp_src.unwrap_or(header.tp_src),
            tp_dst: self.tp_dst.unwrap_or(header.tp_dst),
        }
    }

    /// The headers that the sets bring into a cell, if there are any.
    pub fn before(&self, cell: &Cell) -> Option<Cell>
        requires valid { IsValidRewrite self.now }
        ensures { (h : Header) → IsValidHeader h → in_some result h ≡ in_cell cell.now (rewritten self.now h) }
    {
        let numbers = self.numbers();
        cell.every_cell();
        let mut part = *cell;
        for field in 0..FIELDS {
            let before = cell.interval(field).before(width(field), numbers[field])?;
            part.set(field, before);
        }
        Some(part)
    }

    /// A cell with all headers that the sets make of those of another one.
    pub fn after(&self, cell: &Cell) -> Cell
        requires valid { IsValidRewrite self.now }
        ensures { (h : Header) → IsTrue (in_cell cell.now h) → IsTrue (in_cell result (rewritten self.now h)) }
    {
        let numbers = self.numbers();
        cell.every_cell();
        let mut made = *cell;
        for field in 0..FIELDS {
            let after = cell.interval(field).after(width(field), numbers[field]);
            made.set(field, after);
        }
        made
    }

    /// The headers of which two lists of sets make the same one, if there are any.
    pub fn same_from(&self, other: &Rewrite) -> Option<Cell>
        requires valid { IsValidRewrite self.now }
        requires other { IsValidRewrite other.now }
        ensures { (h : Header) → IsValidHeader h → IsTrue (in_some result h) ↔ (rewritten self.now h ≡ rewritten other.now h) }
    {
        let one = self.numbers();
        let two = other.numbers();
        let mut part = Cell::full();
        part.every_cell();
        for field in 0..FIELDS {
            let same = Interval::same(width(field), one[field], two[field])?;
            part.set(field, same);
        }
        Some(part)
    }

    /// The number that each field was set to.
    #[tactic(auto, unfolding(crate::specs::Rewrite::numbers, crate::specs::Cell::widths))]
    fn numbers(&self) -> [Option<u64>; FIELDS]
        requires { IsValidRewrite self.now }
        ensures same { result ≡ numbers self.now }
        ensures valid { AllZip IsValidNumber widths result }
    {
        [
            self.dl_src,
            self.dl_dst,
            wide_u16(self.dl_vlan),
            wide_u8(self.dl_vlan_pcp),
            wide_u16(self.dl_type),
            wide_u8(self.nw_tos),
            wide_u8(self.nw_proto),
            wide_u32(self.nw_src),
            wide_u32(self.nw_dst),
            wide_u16(self.tp_src),
            wide_u16(self.tp_dst),
        ]
    }
}
