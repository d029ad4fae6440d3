//! Numbers for the switches of a network: their places in an ascending list.
ghost use Rattle.std.specs.Prelude.{◌≡◌, ℕ, ◌<◌, ◌≤◌, ◌^◌, length, slice_index, All, Contains, IfOk, MatchOption, OnOk};
ghost use Rattle.route_app.specs.Table.{Ascends, AreWithin, IsNumbered, named};

use crate::reach::Wire;
use listed::Listed;
use std::alloc::{AllocError, Global};
use topology::Links;

/// The switches at the ends of all links, in ascending order.
pub fn switches_of(alloc: Global, links: &[Wire]) -> Result<Listed<u16>, AllocError>
    ensures ascending { IfOk result (λ switches. Ascends switches) }
    ensures ends { IfOk result (λ switches. All (λ link. Contains switches link.0 × Contains switches link.2) links.now) }
{
    let mut switches = Vec::new(alloc);
    for link in links {
        add(&mut switches, link.0)?;
        add(&mut switches, link.2)?;
    }
    Ok(Listed::of(switches))
}

/// Puts a switch at its place, unless it is there.
fn add(switches: &mut Vec<u16>, s: u16) -> Result<(), AllocError>
    requires { Ascends switches.old.items }
    ensures ascending { OnOk result (Ascends switches.new.items) }
    ensures there { OnOk result (Contains switches.new.items s) }
    ensures kept { OnOk result ((t : ℕ) → Contains switches.old.items t → Contains switches.new.items t) }
{
    match switches.binary_search(&s) {
        Ok(_) => Ok(()),
        Err(at) => {
            switches.insert(at, s)?;
            Ok(())
        }
    }
}

/// The links with numbers for their switches.
pub fn wires_of(alloc: Global, switches: &[u16], links: &[Wire]) -> Result<Links, AllocError>
    requires ascending { Ascends switches.now }
    requires ends { All (λ link. Contains switches.now link.0 × Contains switches.now link.2) links.now }
    ensures { IfOk result (λ wires. IsNumbered switches.now links.now wires) }
{
    there_are_few(switches);
    let mut wires = Listed::new(alloc);
    for link in links {
        wires.push(wire_of(switches, *link))?;
    }
    Ok(wires)
}

/// A link with numbers for its switches.
fn wire_of(switches: &[u16], link: Wire) -> Wire
    requires ascending { Ascends switches.now }
    requires few { length switches.now ≤ 2 ^ 16 }
    requires first { Contains switches.now link.0 }
    requires second { Contains switches.now link.2 }
    ensures within { (result.0 < length switches.now) × (result.2 < length switches.now) }
    ensures same { named switches.now result ≡ link }
{
    let first = place_of(switches, link.0);
    let second = place_of(switches, link.2);
    (first, link.1, second, link.3)
}

/// The number of a switch that has one.
fn place_of(switches: &[u16], s: u16) -> u16
    requires ascending { Ascends switches.now }
    requires few { length switches.now ≤ 2 ^ 16 }
    requires there { Contains switches.now s }
    ensures within { result < length switches.now }
    ensures same { slice_index switches.now result ≡ s }
{
    match number_of(switches, s) {
        Some(at) => at as u16,
        None => unreachable!(),
    }
}

/// The number of a switch.
pub fn number_of(switches: &[u16], s: u16) -> Option<usize>
    requires { Ascends switches.now }
    ensures { MatchOption result (¬ Contains switches.now s) (λ k. (k < length switches.now) × (slice_index switches.now k ≡ s)) }
{
    match switches.binary_search(&s) {
        Ok(at) => Some(at),
        Err(_) => None,
    }
}

/// Different numbers of 16 bits are no more than there are: a fact for the proof.
fn there_are_few(switches: &[u16])
    requires { Ascends switches.now }
    ensures { length switches.now ≤ 2 ^ 16 }
{}
