//! The rules of matches, hosts, links and invariants.
ghost use Rattle.std.specs.Prelude.{◌≡◌, ◌==◌, ◌%◌, ◌^◌, ◌-◌, ◌++◌, ◌||◌, IfOk, slice_index, take};
ghost use Rattle.doc_forms.specs.Reading.{Gives};
ghost use Rattle.topology.specs.Network.{ends_of, is_place, places_of};
ghost use Rattle.scenario_doc.specs.Rules.{address_rules, each, host_number_rules, host_rules, invariant_rules, link_rules, match_rules, port_rules, switch_rules};
ghost use Rattle.scenario_doc.specs.Taken.{HasAddresses, HasPlaces, end_rules, has_place};

use crate::rules::Rules;
use crate::rules_taken::{Addresses, Places};
use doc_forms::{DocFail, below_index, require};
use of10_match::Match;
use std::alloc::{AllocError, Global};
use topology::{Invariant, Topology};

/// Whether the bits of an address past the first so many are 0.
fn is_prefix(address: u32, bits: u8) -> bool
    ensures { result ≡ (address % 2 ^ (32 - bits) == 0) }
{
    u64::from(address) % (1u64 << 32u8.saturating_sub(bits)) == 0
}

fn address_rules(alloc: Global, address: Option<(u32, u8)>) -> Result<(), DocFail>
    ensures { Gives result (address_rules address) }
{
    match address {
        Some((address, bits)) => {
            let kept = require(alloc, 18, is_prefix(address, bits));
            below_index(alloc, 0, kept)
        }
        None => Ok(()),
    }
}

/// Both addresses of a match.
pub(crate) fn match_rules(alloc: Global, m: &Match) -> Result<(), DocFail>
    ensures { Gives result (match_rules m.now) }
{
    below_index(alloc, 8, address_rules(alloc, m.nw_src))?;
    below_index(alloc, 9, address_rules(alloc, m.nw_dst))
}

/// A switch of the network.
pub(crate) fn switch_rules(alloc: Global, network: &Topology, s: u16) -> Result<(), DocFail>
    ensures { result ≡ switch_rules network.now s }
{
    require(alloc, 10, usize::from(s) < network.ports.len())
}

/// How many ports a switch has: none, if there is no such switch.
fn ports_of(network: &Topology, s: u16) -> u16
    ensures { result ≡ slice_index network.now.ports s }
{
    match network.ports.get(usize::from(s)) {
        Some(ports) => *ports,
        None => 0,
    }
}

/// A port of a switch.
pub(crate) fn port_rules(alloc: Global, network: &Topology, s: u16, p: u16) -> Result<(), DocFail>
    ensures { result ≡ port_rules network.now s p }
{
    require(alloc, 11, 1 <= p && p <= ports_of(network, s))
}

/// A host of the network.
pub(crate) fn host_number_rules(alloc: Global, network: &Topology, h: u16) -> Result<(), DocFail>
    ensures { result ≡ host_number_rules network.now h }
{
    require(alloc, 17, usize::from(h) < network.hosts.len())
}

/// An invariant.
pub(crate) struct InvariantRules;

impl Rules for InvariantRules {
    type With = Topology;

    type Of = Invariant;

    ghost rules = { λ network i one. invariant_rules network one };

    fn check(alloc: Global, with: &Topology, _index: usize, it: &Invariant) -> Result<(), DocFail> {
        match it {
            Invariant::Forbid { src, dst, matches } => {
                below_index(alloc, 1, host_number_rules(alloc, with, *src))?;
                below_index(alloc, 2, host_number_rules(alloc, with, *dst))?;
                below_index(alloc, 3, match_rules(alloc, matches))
            }
            Invariant::LoopFree | Invariant::NoBlackHole => Ok(()),
        }
    }
}

/// A host beside those before it.
fn host_rules(
    alloc: Global,
    network: &Topology,
    earlier: &Earlier,
    index: usize,
    host: &(u16, u16, u64),
) -> Result<(), DocFail>
    requires places { HasPlaces earlier.now.places.seen (places_of (take index network.now.hosts)) }
    requires addresses { HasAddresses earlier.now.addresses.seen (take index network.now.hosts) }
    ensures { Gives result (host_rules network.now index host.now) }
{
    let (s, p, mac) = *host;
    require(alloc, 13, !earlier.places.has(s, p))?;
    below_index(alloc, 0, switch_rules(alloc, network, s))?;
    below_index(alloc, 1, port_rules(alloc, network, s, p))?;
    let apart = require(alloc, 14, !earlier.addresses.has(mac));
    below_index(alloc, 2, apart)
}

/// What is known of the hosts before one.
#[derive(Drop)]
struct Earlier {
    places: Places,
    addresses: Addresses,
}

/// All hosts.
pub(crate) fn hosts_rules(alloc: Global, network: &Topology) -> Result<(), DocFail>
    ensures { Gives result (each (host_rules network.now) network.now.hosts) }
{
    let mut earlier = Earlier {
        places: Places::new(alloc),
        addresses: Addresses::new(alloc),
    };
    for (index, host) in network.hosts.iter().enumerate() {
        let found = host_rules(alloc, network, &earlier, index, host);
        below_index(alloc, index, found)?;
        earlier.places.add(host.0, host.1)?;
        earlier.addresses.add(host.2)?;
    }
    Ok(())
}

/// An end of a link: a port of a switch, which is not taken.
pub(crate) fn end_rules(
    alloc: Global,
    network: &Topology,
    is_taken: bool,
    s: u16,
    p: u16,
) -> Result<(), DocFail>
    ensures { result ≡ end_rules network.now is_taken s p }
{
    port_rules(alloc, network, s, p)?;
    require(alloc, 12, !is_taken)
}

/// Whether a place is another one, or one of some.
fn is_taken_beside(one: (u16, u16), taken: &Places, s: u16, p: u16) -> bool
    ensures { result ≡ (is_place s p one || has_place taken.now.seen s p) }
{
    one.0 == s && one.1 == p || taken.has(s, p)
}

/// A link beside those before it, and beside all hosts.
fn link_rules(
    alloc: Global,
    network: &Topology,
    taken: &Places,
    index: usize,
    link: &(u16, u16, u16, u16),
) -> Result<(), DocFail>
    requires { HasPlaces taken.now.seen (ends_of (take index network.now.links) ++ places_of network.now.hosts) }
    ensures { Gives result (link_rules network.now index link.now) }
{
    let (s, p, t, q) = *link;
    below_index(alloc, 0, switch_rules(alloc, network, s))?;
    let one = end_rules(alloc, network, taken.has(s, p), s, p);
    below_index(alloc, 1, one)?;
    below_index(alloc, 2, switch_rules(alloc, network, t))?;
    let is_taken = is_taken_beside((s, p), taken, t, q);
    let other = end_rules(alloc, network, is_taken, t, q);
    below_index(alloc, 3, other)
}

/// Where the hosts start.
fn host_places(alloc: Global, network: &Topology) -> Result<Places, AllocError>
    ensures { IfOk result (λ places. HasPlaces places.seen (places_of network.now.hosts)) }
{
    let mut places = Places::new(alloc);
    for host in network.hosts.iter() {
        places.add(host.0, host.1)?;
    }
    Ok(places)
}

/// All links.
pub(crate) fn links_rules(alloc: Global, network: &Topology) -> Result<(), DocFail>
    ensures { Gives result (each (link_rules network.now) network.now.links) }
{
    let mut taken = host_places(alloc, network)?;
    for (index, link) in network.links.iter().enumerate() {
        let found = link_rules(alloc, network, &taken, index, link);
        below_index(alloc, index, found)?;
        taken.add(link.0, link.1)?;
        taken.add(link.2, link.3)?;
    }
    Ok(())
}
