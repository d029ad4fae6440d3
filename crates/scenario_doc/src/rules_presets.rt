//! The rules of switches with their presets, and of applications.
ghost use Rattle.std.specs.Prelude.{◌≡◌, length, ◌≤◌};
ghost use Rattle.std.specs.List.{list_any};
ghost use Rattle.doc_forms.specs.Reading.{Gives};
ghost use Rattle.scenario_doc.specs.Rules.{action_rules, each, is_preset_port, match_rules, owner_at, owner_rules, plan_rules, preset_rules, presets_at, same_key, switch_parts_rules};

use crate::draft::Draft;
use crate::plans::{Plan, Plans};
use crate::rules::{Rules, each};
use crate::rules_network::match_rules;
use crate::rules_script::controller_rules;
use doc_forms::{DocFail, below_index, require};
use machine_setup::Preset;
use of10_match::{Match, OFPP_ALL, OFPP_CONTROLLER, OFPP_FLOOD, OFPP_IN_PORT};
use of10_messages::Action;
use std::alloc::Global;

/// A port to which a preset may send, at a switch with so many.
fn is_preset_port(ports: u16, port: u16) -> bool
    ensures { result ≡ is_preset_port ports port }
{
    1 <= port && port <= ports
        || port == OFPP_IN_PORT
        || port == OFPP_FLOOD
        || port == OFPP_ALL
        || port == OFPP_CONTROLLER
}

/// An action of a preset.
struct ActionRules;

impl Rules for ActionRules {
    type With = u16;

    type Of = Action;

    ghost rules = { λ ports k one. action_rules ports one };

    fn check(alloc: Global, with: &u16, _index: usize, it: &Action) -> Result<(), DocFail> {
        match it {
            Action::Output { port, .. } => {
                let kept = require(alloc, 19, is_preset_port(*with, *port));
                below_index(alloc, 1, kept)
            }
            _ => Ok(()),
        }
    }
}

/// Whether two presets can't be told apart.
fn same_key(one: &Preset, other: &Preset) -> bool
    ensures { result ≡ same_key one.now other.now }
{
    one.matches.same(&other.matches) && one.priority == other.priority
}

/// Whether one of the presets can't be told from another one.
fn has_key(presets: &[Preset], preset: &Preset) -> bool
    ensures { result ≡ list_any (same_key preset.now) presets.now }
{
    presets.iter().any(|other| same_key(preset, other))
}

/// A preset of a switch with so many ports, beside those before it.
fn preset_rules(
    alloc: Global,
    ports: u16,
    presets: &[Preset],
    index: usize,
    preset: &Preset,
) -> Result<(), DocFail>
    requires { index ≤ length presets.now }
    ensures { Gives result (preset_rules ports presets.now index preset.now) }
{
    require(alloc, 20, !has_key(&presets[..index], preset))?;
    below_index(alloc, 0, match_rules(alloc, &preset.matches))?;
    let actions = each::<ActionRules>(alloc, &ports, preset.actions.as_slice());
    below_index(alloc, 2, actions)
}

/// The presets of a switch with so many ports.
fn presets_rules(alloc: Global, ports: u16, presets: &[Preset]) -> Result<(), DocFail>
    ensures { Gives result (each (preset_rules ports presets.now) presets.now) }
{
    for (index, preset) in presets.iter().enumerate() {
        let found = preset_rules(alloc, ports, presets, index, preset);
        below_index(alloc, index, found)?;
    }
    Ok(())
}

/// The controller of a switch, of so many, or none.
fn owner_rules(alloc: Global, controllers: usize, owner: Option<u16>) -> Result<(), DocFail>
    ensures { Gives result (owner_rules controllers owner) }
{
    match owner {
        Some(c) => controller_rules(alloc, controllers, c),
        None => Ok(()),
    }
}

/// The controller of a switch of a draft.
fn owner_at(draft: &Draft, s: usize) -> Option<u16>
    ensures { result ≡ owner_at draft.now.topology.owner s }
{
    match draft.topology.owner.get(s) {
        Some(owner) => *owner,
        None => None,
    }
}

/// The presets of a switch of a draft.
fn presets_at_rules(alloc: Global, draft: &Draft, s: usize, ports: u16) -> Result<(), DocFail>
    ensures { Gives result (each (preset_rules ports (presets_at draft.now.presets s)) (presets_at draft.now.presets s)) }
{
    match draft.presets.get(s) {
        Some(presets) => presets_rules(alloc, ports, presets.as_slice()),
        None => Ok(()),
    }
}

/// A switch: its controller and its presets.
pub(crate) struct SwitchRules;

impl Rules for SwitchRules {
    type With = Draft;

    type Of = u16;

    ghost rules = { switch_parts_rules };

    fn check(alloc: Global, with: &Draft, index: usize, it: &u16) -> Result<(), DocFail> {
        let owner = owner_rules(alloc, with.plans.len(), owner_at(with, index));
        below_index(alloc, 1, owner)?;
        below_index(alloc, 2, presets_at_rules(alloc, with, index, *it))
    }
}

/// A rule of a firewall.
struct MatchRules;

impl Rules for MatchRules {
    type With = ();

    type Of = Match;

    ghost rules = { λ _ r one. match_rules one };

    fn check(alloc: Global, _with: &(), _index: usize, it: &Match) -> Result<(), DocFail> {
        match_rules(alloc, it)
    }
}

/// An application.
struct PlanRules;

impl Rules for PlanRules {
    type With = ();

    type Of = Plan;

    ghost rules = { λ _ a one. plan_rules one };

    fn check(alloc: Global, _with: &(), _index: usize, it: &Plan) -> Result<(), DocFail> {
        match it {
            Plan::Firewall { rules, .. } => {
                let rules = each::<MatchRules>(alloc, &(), rules.as_slice());
                below_index(alloc, 2, rules)
            }
            Plan::Learning { .. } | Plan::Routing { .. } => Ok(()),
        }
    }
}

/// The applications of a controller.
pub(crate) struct PlansRules;

impl Rules for PlansRules {
    type With = ();

    type Of = Plans;

    ghost rules = { λ _ c plans. each (λ a one. plan_rules one) plans };

    fn check(alloc: Global, _with: &(), _index: usize, it: &Plans) -> Result<(), DocFail> {
        each::<PlanRules>(alloc, &(), it.as_slice())
    }
}
