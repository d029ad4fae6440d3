//! The whole scenario.
ghost use Rattle.std.specs.Prelude.{◌≡◌, ◌≤◌, [], ◌∷◌, All, IfOk};
ghost use Rattle.machine_setup.specs.Setup.{IsValidSetup};
ghost use Rattle.topology.specs.declared.invariant.Invariant.TheVariants.{LoopFree, NoBlackHole};
ghost use Rattle.scenario_gen.specs.Generated.{NamesNoHost, generated, routing_in};

use crate::ring::{no_presets, ring};
use crate::script::script;
use controller_host::{App, Host};
use listed::Listed;
use machine_setup::{Controllers, Limits, Setup};
use route_app::{Map, Routing};
use std::alloc::{AllocError, Global};
use topology::{Invariant, Topology};

/// Invariants, in order.
pub type Invariants = Listed<Invariant>;

/// A made-up scenario: a setup, with its controller as it starts, and what must hold of its network.
#[derive(Debug, Drop)]
pub struct Generated {
    pub setup: Setup<Host>,
    pub invariants: Invariants,
}

/// As many events as a run may have at most, recorded by one worker.
const LIMITS: Limits = Limits {
    max_events: 16_384,
    budget: 16,
    workers: 1,
    patience: 0,
};

/// The scenario of a seed: always the same one, and one that can run.
///
/// It is a ring of `size` switches, each with one host, under one controller that routes and clears no entries to ports that
/// go down. So a link that goes down may leave a stale route. The script has three lines for each switch: of eight draws on
/// average five send a packet from a host to a host, one takes a link down, one brings a link up, and one lets 1 to 10 seconds
/// pass. No packet may loop, and none may be lost in a black hole.
pub fn generate(alloc: Global, seed: u64, size: u16) -> Result<Generated, AllocError>
    requires least { 3 ≤ size }
    requires most { size ≤ 64 }
    ensures made { IfOk result (λ made. made ≡ generated seed size) }
    ensures valid { IfOk result (λ made. IsValidSetup made.setup) }
    ensures fit { IfOk result (λ made. All NamesNoHost made.invariants) }
{
    let topology = ring(alloc, size)?;
    let presets = no_presets(alloc, size)?;
    let controllers = controllers(alloc, &topology)?;
    let script = script(alloc, seed, size)?;
    Ok(Generated {
        setup: Setup {
            topology,
            presets,
            controllers,
            script,
            limits: LIMITS,
        },
        invariants: invariants(alloc)?,
    })
}

/// One controller, whose one application routes.
fn controllers(alloc: Global, topology: &Topology) -> Result<Controllers<Host>, AllocError>
    ensures { IfOk result (λ controllers. controllers ≡ routing_in topology.now ∷ []) }
{
    let routing = Routing::new(alloc, false, Map::of(alloc, topology)?)?;
    let mut apps = Listed::new(alloc);
    apps.push(App::Routing(routing))?;
    let mut controllers = Listed::new(alloc);
    controllers.push(Host::new(alloc, apps))?;
    Ok(controllers)
}

/// No packet loops, and none is lost in a black hole.
fn invariants(alloc: Global) -> Result<Invariants, AllocError>
    ensures { IfOk result (λ invariants. invariants ≡ LoopFree ∷ NoBlackHole ∷ []) }
{
    let mut invariants = Listed::new(alloc);
    invariants.push(Invariant::LoopFree)?;
    invariants.push(Invariant::NoBlackHole)?;
    Ok(invariants)
}
