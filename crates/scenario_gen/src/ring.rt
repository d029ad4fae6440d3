//! The network: a ring of switches, each with one host.
ghost use Rattle.std.specs.Prelude.{◌≡◌, ◌<◌, [], map, replicate, IfOk};
ghost use Rattle.std.specs.List.{range_with_len};
ghost use Rattle.scenario_gen.specs.Ring.{host_of, link_of, ring};

use listed::Listed;
use machine_setup::Presets;
use std::alloc::{AllocError, Global};
use topology::{Hosts, Links, Topology};

/// The ports of a switch: to the switch before it, to the next one, and to its host.
const PORTS: u16 = 3;

/// A ring of so many switches under controller 0.
pub(crate) fn ring(alloc: Global, size: u16) -> Result<Topology, AllocError>
    requires { 0 < size }
    ensures { IfOk result (λ network. network ≡ ring size) }
{
    Ok(Topology {
        ports: Listed::of(vec![in alloc; PORTS; usize::from(size)]?),
        owner: Listed::of(vec![in alloc; Some(0u16); usize::from(size)]?),
        links: links(alloc, size)?,
        hosts: hosts(alloc, size)?,
    })
}

/// From each switch a link to the next one, and from the last one to the first.
#[tactic(auto, using(crate::proofs::Numbers::one_more))]
fn links(alloc: Global, size: u16) -> Result<Links, AllocError>
    requires { 0 < size }
    ensures { IfOk result (λ links. links ≡ map (link_of size) (range_with_len 0 size)) }
{
    let mut links = Listed::new(alloc);
    for s in 0..size {
        links.push((s, 2u16, (s + 1) % size, 1u16))?;
    }
    Ok(links)
}

/// A host at each switch. Their MAC addresses count from 1.
#[tactic(auto, using(crate::proofs::Numbers::one_more))]
fn hosts(alloc: Global, size: u16) -> Result<Hosts, AllocError>
    ensures { IfOk result (λ hosts. hosts ≡ map host_of (range_with_len 0 size)) }
{
    let mut hosts = Listed::new(alloc);
    for s in 0..size {
        hosts.push((s, 3u16, u64::from(s) + 1))?;
    }
    Ok(hosts)
}

/// No presets, for so many switches.
pub(crate) fn no_presets(alloc: Global, size: u16) -> Result<Presets, AllocError>
    ensures { IfOk result (λ presets. presets ≡ replicate size []) }
{
    let mut presets = Listed::new(alloc);
    for _s in 0..size {
        presets.push(Listed::new(alloc))?;
    }
    Ok(presets)
}
