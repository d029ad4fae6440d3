//! Whether a run can start from a setup.
ghost use Rattle.std.specs.Prelude.{◌≡◌, ◌≢◌, ◌↔◌, ◌≤◌, length, All, IsTrue, IfOk};
ghost use Rattle.topology.specs.Network.{IsPort, ends_of};
ghost use Rattle.machine_setup.specs.Setup.{IsFreePort, IsInput, IsLimits, IsValidSetup};

use crate::network::{ends, is_network, is_port};
use crate::presets::are_presets;
use crate::script::{Input, Line};
use crate::setup::{Limits, Setup};
use std::alloc::{AllocError, Global};
use topology::Topology;

impl<C> Setup<C> {
    /// Whether a run can start from the setup: the network is one, the presets fit its switches, the script names what it has,
    /// and the limits are in their ranges.
    pub fn is_valid(&self, alloc: Global) -> Result<bool, AllocError>
        ensures { IfOk result (λ valid. IsTrue valid ↔ IsValidSetup self.now) }
    {
        let controllers = self.controllers.len();
        let topology = &self.topology;
        let ends = ends(alloc, topology.links.as_slice())?;
        let numbers = are_numbers(controllers, &self.limits);
        let inputs = are_few_inputs(
            topology,
            ends.as_slice(),
            controllers,
            self.script.as_slice(),
        );
        let network = is_network(alloc, topology, controllers)?;
        let presets = are_presets(alloc, topology.ports.as_slice(), self.presets.as_slice())?;
        Ok(numbers & inputs & network & presets)
    }
}

fn are_numbers(controllers: usize, limits: &Limits) -> bool
    ensures { IsTrue result ↔ ((controllers ≤ 8) × IsLimits limits.now) }
{
    controllers <= 8 && is_limits(limits)
}

fn is_limits(limits: &Limits) -> bool
    ensures { IsTrue result ↔ IsLimits limits.now }
{
    (1..=16_384).contains(&limits.max_events)
        && limits.budget <= 64
        && (1..=8).contains(&limits.workers)
        && limits.patience <= 1_000_000
}

fn are_few_inputs(
    topology: &Topology,
    ends: &[(u16, u16)],
    controllers: usize,
    script: &[Line],
) -> bool
    requires { ends.now ≡ ends_of topology.now.links }
    ensures { IsTrue result
        ↔ ((length script.now ≤ 256) × All (λ line. IsInput topology.now controllers line.input) script.now) }
{
    script.len() <= 256
        && script
            .iter()
            .all(|line| is_input(topology, ends, controllers, &line.input))
}

fn is_input(topology: &Topology, ends: &[(u16, u16)], controllers: usize, input: &Input) -> bool
    requires { ends.now ≡ ends_of topology.now.links }
    ensures { IsTrue result ↔ IsInput topology.now controllers input.now }
{
    match input {
        Input::Inject { host, packet } => usize::from(*host) < topology.hosts.len()
            && packet.is_valid(),
        Input::LinkDown(link) | Input::LinkUp(link) => usize::from(*link) < topology.links.len(),
        Input::SwitchFail(s) | Input::SwitchUp(s) | Input::ControlDown(s) | Input::ControlUp(s) =>
            usize::from(*s) < topology.ports.len(),
        Input::HostMove { host, s, p } => usize::from(*host) < topology.hosts.len()
            && is_free_port(topology, ends, (*s, *p)),
        Input::Policy { c, deny } => usize::from(*c) < controllers && deny.is_valid(),
        Input::Seconds(n) => (1..=1_000_000).contains(n),
    }
}

// Whether the switch has the port, and no link ends there.
fn is_free_port(topology: &Topology, ends: &[(u16, u16)], place: (u16, u16)) -> bool
    requires { ends.now ≡ ends_of topology.now.links }
    ensures { IsTrue result ↔ IsFreePort topology.now place }
{
    is_port(topology.ports.as_slice(), place) && ends.iter().all(|end| *end != place)
}
