//! Whether a network is one.
ghost use Rattle.std.specs.Prelude.{◌≡◌, ◌≢◌, ◌≤◌, ◌<◌, ◌^◌, ◌↔◌, ◌∷◌, [], ◌++◌, map, All, AllPairs, IsTrue, IfOk};
ghost use Rattle.topology.specs.Network.{IsPort, ends_of};
ghost use Rattle.machine_setup.specs.Setup.{IsNetwork, IsOwner, IsSwitches, IsWired};

use listed::all_different;
use std::alloc::{AllocError, Global};
use topology::{Topology, first_places};

/// Whether the network is one, under so many controllers.
pub(crate) fn is_network(
    alloc: Global,
    topology: &Topology,
    controllers: usize,
) -> Result<bool, AllocError>
    ensures { IfOk result (λ valid. IsTrue valid ↔ IsNetwork topology.now controllers) }
{
    Ok(
        has_switches(topology, controllers)
            && topology.links.len() <= 256
            && topology.hosts.len() <= 128
            && is_wired(alloc, topology)?,
    )
}

fn has_switches(topology: &Topology, controllers: usize) -> bool
    ensures { IsTrue result ↔ IsSwitches topology.now controllers }
{
    topology.ports.len() <= 64
        && have_ports(topology.ports.as_slice())
        && topology.owner.len() == topology.ports.len()
        && have_owners(topology.owner.as_slice(), controllers)
}

fn have_ports(ports: &[u16]) -> bool
    ensures { IsTrue result ↔ All (λ ports. (1 ≤ ports) × (ports ≤ 48)) ports.now }
{
    ports.iter().all(|count| 1 <= *count && *count <= 48)
}

fn have_owners(owners: &[Option<u16>], controllers: usize) -> bool
    ensures { IsTrue result ↔ All (IsOwner controllers) owners.now }
{
    owners.iter().all(|owner| is_owner(*owner, controllers))
}

fn is_owner(owner: Option<u16>, controllers: usize) -> bool
    ensures { IsTrue result ↔ IsOwner controllers owner }
{
    match owner {
        Some(c) => usize::from(c) < controllers,
        None => true,
    }
}

fn is_wired(alloc: Global, topology: &Topology) -> Result<bool, AllocError>
    ensures { IfOk result (λ wired. IsTrue wired ↔ IsWired topology.now) }
{
    let ends = ends(alloc, topology.links.as_slice())?;
    let places = first_places(alloc, topology.hosts.as_slice())?;
    let attached = joined(alloc, ends.as_slice(), places.as_slice())?;
    let addresses = addresses(alloc, topology.hosts.as_slice())?;
    let fit = are_both_ports(
        topology.ports.as_slice(),
        ends.as_slice(),
        places.as_slice(),
    );
    let differ = are_both_different(attached.as_slice(), addresses.as_slice());
    let ranges = have_addresses(topology.hosts.as_slice());
    Ok(fit & differ & ranges)
}

fn joined(
    alloc: Global,
    ends: &[(u16, u16)],
    places: &[(u16, u16)],
) -> Result<Vec<(u16, u16)>, AllocError>
    ensures { IfOk result (λ all. all.items ≡ ends.now ++ places.now) }
{
    let mut all = ends.to_vec(alloc)?;
    all.extend_from_slice(places)?;
    Ok(all)
}

fn are_both_ports(ports: &[u16], ends: &[(u16, u16)], places: &[(u16, u16)]) -> bool
    ensures { IsTrue result ↔ (All (IsPort ports.now) ends.now × All (IsPort ports.now) places.now) }
{
    are_ports(ports, ends) && are_ports(ports, places)
}

fn are_both_different(attached: &[(u16, u16)], addresses: &[u64]) -> bool
    ensures { IsTrue result
        ↔ (AllPairs (λ one other. one ≢ other) attached.now × AllPairs (λ one other. one ≢ other) addresses.now) }
{
    all_different(attached) && all_different(addresses)
}

fn are_ports(ports: &[u16], places: &[(u16, u16)]) -> bool
    ensures { IsTrue result ↔ All (IsPort ports.now) places.now }
{
    places.iter().all(|place| is_port(ports, *place))
}

/// Whether the switch has the port.
pub(crate) fn is_port(ports: &[u16], place: (u16, u16)) -> bool
    ensures { IsTrue result ↔ IsPort ports.now place }
{
    let s = usize::from(place.0);
    s < ports.len() && 1 <= place.1 && place.1 <= ports[s]
}

/// Both ends of each link.
pub(crate) fn ends(
    alloc: Global,
    links: &[(u16, u16, u16, u16)],
) -> Result<Vec<(u16, u16)>, AllocError>
    ensures { IfOk result (λ ends. ends.items ≡ ends_of links.now) }
{
    let mut ends = Vec::new(alloc);
    for link in links {
        ends.push((link.0, link.1))?;
        ends.push((link.2, link.3))?;
    }
    Ok(ends)
}

fn addresses(alloc: Global, hosts: &[(u16, u16, u64)]) -> Result<Vec<u64>, AllocError>
    ensures { IfOk result (λ addresses. addresses.items ≡ map (λ host. host.2) hosts.now) }
{
    hosts.iter().map(|host| host.2).collect(alloc)
}

fn have_addresses(hosts: &[(u16, u16, u64)]) -> bool
    ensures { IsTrue result ↔ All (λ host. (1 ≤ host.2) × (host.2 < 2 ^ 48)) hosts.now }
{
    hosts.iter().all(|host| 1 <= host.2 && host.2 < 1 << 48)
}
