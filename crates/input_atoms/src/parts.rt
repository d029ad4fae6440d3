//! The parts into which a list is cut, and which of them fails first.
ghost use Rattle.std.specs.Prelude.{◌≡◌, ℕ, ◌<◌, ◌≤◌, ◌++◌, length, take, drop, MatchOption, IfOk};
ghost use Rattle.input_atoms.specs.Cutting.{AreAlike, FirstFails, NoneFails, begin_of, part_of, complement_of};

use crate::probe::Probe;
use listed::Listed;
use std::alloc::{AllocError, Global};

// Where a part begins in a list of so many elements.
fn begin(size: usize, parts: usize, part: usize) -> usize
    requires some { 0 < parts }
    requires within { part ≤ parts }
    ensures { result ≡ begin_of size parts part }
{
    part * (size / parts) + part.min(size % parts)
}

/// The first part that fails.
#[tactic(auto, using(crate::proofs::Places::begin_rises, crate::proofs::Places::begin_within))]
pub(crate) fn failing_part<P: Probe>(
    alloc: Global,
    probe: &mut P,
    list: &[u32],
    parts: usize,
) -> Result<Option<Listed<u32>>, AllocError>
    requires some { 0 < parts }
    requires asked { P.can_ask probe.old }
    ensures found { IfOk result (λ found. MatchOption found
        (NoneFails (P.fails_at probe.old) (part_of list.now parts) parts)
        (FirstFails (P.fails_at probe.old) (part_of list.now parts) parts)) }
    ensures same { AreAlike (P.fails_at probe.new) (P.fails_at probe.old) }
    ensures again { P.can_ask probe.new }
{
    for part in 0..parts {
        let from = begin(list.len(), parts, part);
        let to = begin(list.len(), parts, part + 1);
        let elements = &list[from..to];
        if probe.fails(elements)? {
            return Ok(Some(Listed::of(elements.to_vec(alloc)?)));
        }
    }
    Ok(None)
}

/// The first part without which the list fails: the list without it. Of two parts each is the list without the other, and
/// is not asked again.
#[tactic(auto, using(crate::proofs::Places::begin_rises, crate::proofs::Places::begin_within))]
pub(crate) fn failing_complement<P: Probe>(
    alloc: Global,
    probe: &mut P,
    list: &[u32],
    parts: usize,
) -> Result<Option<Listed<u32>>, AllocError>
    requires some { 0 < parts }
    requires asked { P.can_ask probe.old }
    requires none { NoneFails (P.fails_at probe.old) (part_of list.now parts) parts }
    ensures found { IfOk result (λ found. MatchOption found
        (NoneFails (P.fails_at probe.old) (complement_of list.now parts) parts)
        (FirstFails (P.fails_at probe.old) (complement_of list.now parts) parts)) }
    ensures same { AreAlike (P.fails_at probe.new) (P.fails_at probe.old) }
    ensures again { P.can_ask probe.new }
{
    if parts == 2 {
        return Ok(None);
    }
    for part in 0..parts {
        let from = begin(list.len(), parts, part);
        let to = begin(list.len(), parts, part + 1);
        let complement = without(alloc, list, from, to)?;
        if probe.fails(complement.as_slice())? {
            return Ok(Some(complement));
        }
    }
    Ok(None)
}

// The list without what lies between two places.
fn without(alloc: Global, list: &[u32], from: usize, to: usize) -> Result<Listed<u32>, AllocError>
    requires order { from ≤ to }
    requires within { to ≤ length list.now }
    ensures { IfOk result (λ complement. complement ≡ take from list.now ++ drop to list.now) }
{
    let mut complement = list[..from].to_vec(alloc)?;
    complement.extend_from_slice(&list[to..])?;
    Ok(Listed::of(complement))
}
