//! Judging invariants.

ghost use Rattle.std.specs.Prelude.{◌≡◌, ◌<◌, ◌↔◌, All, IfOk, IfSome, IsNone, IsTrue, length};
ghost use Rattle.std.specs.List.{AllZip};
ghost use Rattle.std.specs.declared.cmp.Ordering.TheVariants.{Less};
ghost use Rattle.of10_match.specs.Header.{IsValidHeader, header_cmp};
ghost use Rattle.of10_match.specs.declared.header.Header.{Header};
ghost use Rattle.header_classes.specs.Cell.{in_some};
ghost use Rattle.header_classes.specs.Trials.{AreTrials};
ghost use Rattle.invariant_check.specs.declared.walk.Node.{Node};
ghost use Rattle.invariant_check.specs.Network.{IsAsked, IsNet};
ghost use Rattle.invariant_check.specs.Verdict.{IsFirstWalk, IsStart, IsVerdict, Keeps, SpeaksOf};

use crate::least::{Witness, least_witness};
use crate::tried::trials_of;
use crate::walk::{Verdict, Verdicts};
use event_world::NetState;
use header_classes::{Cell, Trials, laws};
use std::alloc::{AllocError, Global};
use topology::Invariant;

/// Judges an invariant over all packet headers from all hosts whose switch is up.
pub fn verdict(alloc: Global, net: &NetState, invariant: &Invariant) -> Result<Verdict, AllocError>
    requires net { IsNet net.now }
    requires asked { IsAsked invariant.now }
    ensures { IfOk result (λ verdict. IsVerdict net.now invariant.now verdict) }
{
    let trials = trials_of(alloc, net)?;
    judged(alloc, net, trials.as_slice(), invariant)
}

/// Judges invariants, in their order.
pub fn verdicts(alloc: Global, net: &NetState, list: &[Invariant]) -> Result<Verdicts, AllocError>
    requires net { IsNet net.now }
    requires asked { All IsAsked list.now }
    ensures { IfOk result (λ verdicts. AllZip (λ invariant verdict. IsVerdict net.now invariant verdict) list.now verdicts) }
{
    let trials = trials_of(alloc, net)?;
    let mut verdicts = Verdicts::new(alloc);
    for invariant in list {
        verdicts.push(judged(alloc, net, trials.as_slice(), invariant)?)?;
    }
    Ok(verdicts)
}

/// Judges an invariant, where the entries of all tables are listed as they are tried.
fn judged(
    alloc: Global,
    net: &NetState,
    trials: &[Trials],
    invariant: &Invariant,
) -> Result<Verdict, AllocError>
    requires net { IsNet net.now }
    requires trials { AllZip AreTrials net.now.tables trials.now }
    requires asked { IsAsked invariant.now }
    ensures { IfOk result (λ verdict. IsVerdict net.now invariant.now verdict) }
{
    for host in 0..net.status.place.len() {
        let host = host as u16;
        if let Some(witness) = by_host(alloc, net, trials, invariant, host)? {
            return Ok(Verdict::Violated {
                host,
                header: witness.header,
                walk: witness.walk,
            });
        }
    }
    Ok(Verdict::Holds)
}

/// The least header by which a host violates an invariant, with the first walk that shows it.
fn by_host(
    alloc: Global,
    net: &NetState,
    trials: &[Trials],
    invariant: &Invariant,
    host: u16,
) -> Result<Option<Witness>, AllocError>
    requires net { IsNet net.now }
    requires trials { AllZip AreTrials net.now.tables trials.now }
    requires asked { IsAsked invariant.now }
    requires host { host < length net.now.status.place }
    ensures keeps { IfOk result (λ found. IsNone found → (h : Header) → Keeps net.now invariant.now host h) }
    ensures first { IfOk result (λ found. IfSome found (λ witness. (from : Node)
        × IsStart net.now invariant.now host witness.header from
        × IsFirstWalk net.now invariant.now from witness.walk.nodes witness.walk.finish)) }
    ensures least { IfOk result (λ found. IfSome found (λ witness. (h : Header) → header_cmp h witness.header ≡ Less
        → Keeps net.now invariant.now host h)) }
{
    let (s, p) = net.status.place[usize::from(host)];
    if !net.status.is_switch_up(s) {
        return Ok(None);
    }
    match spoken_of(invariant, host, p) {
        Some(cell) => least_witness(alloc, net, trials, invariant, s, p, cell),
        None => Ok(None),
    }
}

/// The headers of packets from a host at a port of which an invariant speaks.
fn spoken_of(invariant: &Invariant, host: u16, p: u16) -> Option<Cell>
    requires { IsAsked invariant.now }
    ensures { (h : Header) → IsTrue (in_some result h) ↔ (IsValidHeader h × SpeaksOf invariant.now host p h) }
{
    let Invariant::Forbid { src, matches, .. } = invariant else {
        return Some(Cell::full());
    };
    if *src != host {
        return None;
    }
    let cell = Cell::of_match(p, matches)?;
    laws::a_cell_has_valid_headers(&cell);
    Some(cell)
}
