//! Whether the parts of a scenario fit one another: the first rule that they break, in the order of the document.
ghost use Rattle.std.specs.Prelude.{ℕ, OnOk, codes, length, ⊤};
ghost use Rattle.doc_forms.specs.Reading.{Gives, Reading, under};
ghost use Rattle.scenario_doc.specs.Fit.{IsFit};
ghost use Rattle.scenario_doc.specs.Ranges.{IsWideDraft};
ghost use Rattle.scenario_doc.specs.Rules.{draft_rules, each, host_rules, input_rules, invariant_rules, link_rules, plan_rules, switch_parts_rules};

use crate::draft::Draft;
use crate::rules_network::{InvariantRules, hosts_rules, links_rules};
use crate::rules_presets::{PlansRules, SwitchRules};
use crate::rules_script::LineRules;
use doc_forms::{DocFail, below, below_index};
use std::alloc::Global;

/// Rules that each element of a list keeps, beside something that is the same for all of them.
pub trait Rules {
    /// What the elements are held against.
    type With;

    /// An element.
    type Of;

    ghost rules: { Self.With → ℕ → Self.Of → Reading ⊤ };

    fn check(alloc: Global, with: &Self::With, index: usize, it: &Self::Of) -> Result<(), DocFail>
        ensures { Gives result (rules with.now index it.now) };
}

/// The rules of each element of a list, in order.
pub fn each<R: Rules>(alloc: Global, with: &R::With, list: &[R::Of]) -> Result<(), DocFail>
    ensures { Gives result (each (R.rules with.now) list.now) }
{
    for (index, it) in list.iter().enumerate() {
        let found = R::check(alloc, with, index, it);
        below_index(alloc, index, found)?;
    }
    Ok(())
}

impl Draft {
    /// Tries all rules. Each rule that a scenario has to keep to run is one of them, or a range that was asked for as it was
    /// read.
    pub fn check(&self, alloc: Global) -> Result<(), DocFail>
        ensures rules { Gives result (draft_rules self.now) }
        ensures fit { OnOk result (IsWideDraft self.now → IsFit self.now) }
    {
        self.check_controllers(alloc)?;
        self.check_hosts(alloc)?;
        self.check_invariants(alloc)?;
        self.check_links(alloc)?;
        self.check_script(alloc)?;
        self.check_switches(alloc)
    }

    fn check_controllers(&self, alloc: Global) -> Result<(), DocFail>
        ensures { Gives result (under (codes "controllers") (each (λ c plans. each (λ a one. plan_rules one) plans) self.now.plans)) }
    {
        let found = each::<PlansRules>(alloc, &(), self.plans.as_slice());
        below(alloc, "controllers", found)
    }

    fn check_hosts(&self, alloc: Global) -> Result<(), DocFail>
        ensures { Gives result (under (codes "hosts") (each (host_rules self.now.topology) self.now.topology.hosts)) }
    {
        below(alloc, "hosts", hosts_rules(alloc, &self.topology))
    }

    fn check_invariants(&self, alloc: Global) -> Result<(), DocFail>
        ensures { Gives result (under (codes "invariants") (each (λ i one. invariant_rules self.now.topology one) self.now.invariants)) }
    {
        let found = each::<InvariantRules>(alloc, &self.topology, self.invariants.as_slice());
        below(alloc, "invariants", found)
    }

    fn check_links(&self, alloc: Global) -> Result<(), DocFail>
        ensures { Gives result (under (codes "links") (each (link_rules self.now.topology) self.now.topology.links)) }
    {
        below(alloc, "links", links_rules(alloc, &self.topology))
    }

    fn check_script(&self, alloc: Global) -> Result<(), DocFail>
        ensures { Gives result (under (codes "script") (each (λ k line. input_rules self.now.topology (length self.now.plans) line.input) self.now.script)) }
    {
        let found = each::<LineRules>(alloc, self, self.script.as_slice());
        below(alloc, "script", found)
    }

    fn check_switches(&self, alloc: Global) -> Result<(), DocFail>
        ensures { Gives result (under (codes "switches") (each (switch_parts_rules self.now) self.now.topology.ports)) }
    {
        let found = each::<SwitchRules>(alloc, self, self.topology.ports.as_slice());
        below(alloc, "switches", found)
    }
}
