//! The least header of a cell by which an invariant is violated from a port.

ghost use Rattle.std.specs.Prelude.{◌≡◌, ◌≢◌, ◌≤◌, ◌+◌, ◌*◌, IfOk, IfSome, IsNone, IsTrue, OnOk, cond, length, true};
ghost use Rattle.std.specs.List.{AllZip};
ghost use Rattle.std.specs.Option.{option_map_or};
ghost use Rattle.std.specs.Ordering.{is_lt};
ghost use Rattle.std.specs.declared.cmp.Ordering.TheVariants.{Less};
ghost use Rattle.of10_match.specs.Header.{header_cmp};
ghost use Rattle.of10_match.specs.declared.header.Header.{Header};
ghost use Rattle.topology.specs.Network.{IsPort};
ghost use Rattle.header_classes.specs.Cell.{in_cell, times};
ghost use Rattle.header_classes.specs.Size.{size, sizes};
ghost use Rattle.header_classes.specs.Trials.{AreTrials};
ghost use Rattle.invariant_check.specs.Network.{IsNet};
ghost use Rattle.invariant_check.specs.Verdict.{IsFirstWalk, IsFree};

use crate::class::Class;
use crate::explore::explore;
use crate::walk::Walk;
use event_world::NetState;
use header_classes::{Cell, Cells, Trials, laws};
use of10_match::Header;
use std::alloc::{AllocError, Global};
use topology::Invariant;

/// A header by which an invariant is violated from a port, and the first walk that shows it.
#[derive(Debug, Drop)]
pub(crate) struct Witness {
    pub(crate) header: Header,
    pub(crate) walk: Walk,
}

/// The least header of a cell with a walk from port `p` of switch `s` that has an end which the invariant forbids. Cells whose
/// headers may be less than the least one so far wait on a stack.
pub(crate) fn least_witness(
    alloc: Global,
    net: &NetState,
    trials: &[Trials],
    invariant: &Invariant,
    s: u16,
    p: u16,
    cell: Cell,
) -> Result<Option<Witness>, AllocError>
    requires net { IsNet net.now }
    requires trials { AllZip AreTrials net.now.tables trials.now }
    requires place { IsPort net.now.topology.ports (s, p) }
    ensures free { IfOk result (λ found. IsNone found → (h : Header) → IsTrue (in_cell cell h)
        → IsFree net.now invariant.now (record { s = s; p = p; header = h })) }
    ensures inside { IfOk result (λ found. IfSome found (λ witness. IsTrue (in_cell cell witness.header))) }
    ensures first { IfOk result (λ found. IfSome found (λ witness.
        IsFirstWalk net.now invariant.now (record { s = s; p = p; header = witness.header }) witness.walk.nodes witness.walk.finish)) }
    ensures least { IfOk result (λ found. IfSome found (λ witness. (h : Header) → IsTrue (in_cell cell h)
        → header_cmp h witness.header ≡ Less → IsFree net.now invariant.now (record { s = s; p = p; header = h }))) }
{
    of10_match::laws::headers_in_field_order();
    let mut left = Cells::new(alloc);
    left.push(cell)?;
    let mut best = None;
    while let Some(last) = left.len().checked_sub(1) {
        let part = left.remove(last);
        if !is_less(&part.least(), &best) {
            continue;
        }
        if let Some(witness) = look(alloc, net, trials, invariant, s, p, part, &mut left)? {
            best = Some(witness);
        }
    }
    Ok(best)
}

/// Whether a header is less than that of a witness, or there is none yet.
fn is_less(header: &Header, best: &Option<Witness>) -> bool
    ensures { result ≡ option_map_or (λ witness. is_lt (header_cmp header.now witness.header)) best.now true }
{
    match best {
        Some(witness) => *header < witness.header,
        None => true,
    }
}

/// Looks at a cell by its least header. Where a walk from port `p` of switch `s` shows that the invariant is violated by it, that
/// is the cell's witness. Else the headers that are as free of such walks are left out, and the rest of the cell is put on the stack.
fn look(
    alloc: Global,
    net: &NetState,
    trials: &[Trials],
    invariant: &Invariant,
    s: u16,
    p: u16,
    cell: Cell,
    left: &mut Cells,
) -> Result<Option<Witness>, AllocError>
    requires net { IsNet net.now }
    requires trials { AllZip AreTrials net.now.tables trials.now }
    requires place { IsPort net.now.topology.ports (s, p) }
    ensures inside { IfOk result (λ found. IfSome found (λ witness. IsTrue (in_cell cell witness.header))) }
    ensures least { IfOk result (λ found. IfSome found (λ witness. (h : Header) → IsTrue (in_cell cell h)
        → header_cmp h witness.header ≢ Less)) }
    ensures first { IfOk result (λ found. IfSome found (λ witness.
        IsFirstWalk net.now invariant.now (record { s = s; p = p; header = witness.header }) witness.walk.nodes witness.walk.finish)) }
    ensures free { IfOk result (λ found. IsNone found → (h : Header) → IsTrue (in_cell cell h) → times left.new h ≡ times left.old h
        → IsFree net.now invariant.now (record { s = s; p = p; header = h })) }
    ensures kept { OnOk result ((h : Header) → times left.old h ≤ times left.new h) }
    ensures within { OnOk result ((h : Header) → times left.new h ≤ times left.old h + cond (in_cell cell h) 1 0) }
    ensures falls { OnOk result (23 * sizes left.new + length left.new ≤ 23 * (sizes left.old + size cell) + length left.old) }
{
    laws::inner_cells_are_parts();
    let mut class = Class::of(cell);
    if let Some(walk) = explore(alloc, net, trials, invariant, s, p, &mut class)? {
        return Ok(Some(Witness {
            header: class.header,
            walk,
        }));
    }
    cell.add_rest(&class.cell, left)?;
    Ok(None)
}
