//! The rules of the lines of a script.
ghost use Rattle.std.specs.Prelude.{◌≡◌, ℕ, length, nat_lt};
ghost use Rattle.std.specs.List.{list_any};
ghost use Rattle.doc_forms.specs.Reading.{Gives, require};
ghost use Rattle.topology.specs.Network.{ends_of, is_place};
ghost use Rattle.scenario_doc.specs.Rules.{input_rules};
ghost use Rattle.scenario_doc.specs.Taken.{end_rules};
ghost use Rattle.machine_setup.specs.declared.script.Input.TheVariants.{HostMove, Policy};

use crate::draft::Draft;
use crate::rules::Rules;
use crate::rules_network::{end_rules, host_number_rules, match_rules, switch_rules};
use doc_forms::{DocFail, below_index, require};
use machine_setup::{Input, Line};
use of10_match::Match;
use std::alloc::Global;
use topology::Topology;

/// A controller of so many.
pub(crate) fn controller_rules(alloc: Global, controllers: usize, c: u16) -> Result<(), DocFail>
    ensures { result ≡ require 15 (nat_lt c controllers) }
{
    require(alloc, 15, usize::from(c) < controllers)
}

/// Whether a link ends at a port. It goes through the links.
fn is_end(network: &Topology, s: u16, p: u16) -> bool
    ensures { result ≡ list_any (is_place s p) (ends_of network.now.links) }
{
    for link in network.links.iter() {
        if link.0 == s && link.1 == p || link.2 == s && link.3 == p {
            return true;
        }
    }
    false
}

/// A host moves to a port at which no link ends.
fn move_rules(alloc: Global, network: &Topology, host: u16, s: u16, p: u16) -> Result<(), DocFail>
    ensures { (controllers : ℕ) → Gives result (input_rules network.now controllers (HostMove host s p)) }
{
    below_index(alloc, 2, host_number_rules(alloc, network, host))?;
    below_index(alloc, 3, switch_rules(alloc, network, s))?;
    below_index(alloc, 4, free_port_rules(alloc, network, s, p))
}

/// A port of a switch at which no link ends.
fn free_port_rules(alloc: Global, network: &Topology, s: u16, p: u16) -> Result<(), DocFail>
    ensures { result ≡ end_rules network.now (list_any (is_place s p) (ends_of network.now.links)) s p }
{
    end_rules(alloc, network, is_end(network, s, p), s, p)
}

/// A policy is for a controller, of so many.
fn policy_rules(alloc: Global, controllers: usize, c: u16, deny: &Match) -> Result<(), DocFail>
    ensures { (network : Topology) → Gives result (input_rules network controllers (Policy c deny.now)) }
{
    below_index(alloc, 2, controller_rules(alloc, controllers, c))?;
    below_index(alloc, 3, match_rules(alloc, deny))
}

/// A link of the network.
fn link_number_rules(alloc: Global, network: &Topology, link: u16) -> Result<(), DocFail>
    ensures { result ≡ require 16 (nat_lt link (length network.now.links)) }
{
    require(alloc, 16, usize::from(link) < network.links.len())
}

/// An input, under so many controllers.
fn input_rules(
    alloc: Global,
    network: &Topology,
    controllers: usize,
    input: &Input,
) -> Result<(), DocFail>
    ensures { Gives result (input_rules network.now controllers input.now) }
{
    match input {
        Input::Inject { host, .. } => below_index(
            alloc,
            2,
            host_number_rules(alloc, network, *host),
        ),
        Input::LinkDown(link) | Input::LinkUp(link) => below_index(
            alloc,
            2,
            link_number_rules(alloc, network, *link),
        ),
        Input::SwitchFail(s) | Input::SwitchUp(s) | Input::ControlDown(s) | Input::ControlUp(s) =>
            below_index(alloc, 2, switch_rules(alloc, network, *s)),
        Input::HostMove { host, s, p } => move_rules(alloc, network, *host, *s, *p),
        Input::Policy { c, deny } => policy_rules(alloc, controllers, *c, deny),
        Input::Seconds(_) => Ok(()),
    }
}

/// A line.
pub(crate) struct LineRules;

impl Rules for LineRules {
    type With = Draft;

    type Of = Line;

    ghost rules = { λ draft k line. input_rules draft.topology (length draft.plans) line.input };

    fn check(alloc: Global, with: &Draft, _index: usize, it: &Line) -> Result<(), DocFail> {
        input_rules(alloc, &with.topology, with.plans.len(), &it.input)
    }
}
