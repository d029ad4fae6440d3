//! The scenario document.
ghost use Rattle.std.specs.Prelude.{◌≡◌, ◌≤◌, All, IfErr, IfOk, length};
ghost use Rattle.machine_setup.specs.Setup.{IsValidSetup};
ghost use Rattle.doc_forms.specs.Reading.{Gives};
ghost use Rattle.doc_forms.specs.Texts.{IsRefused, IsText};
ghost use Rattle.scenario_doc.specs.Fit.{IsFit, IsFitInvariant, IsFitPlan};
ghost use Rattle.scenario_doc.specs.Scenario.{made, scenario_of};
ghost use Rattle.scenario_doc.specs.WrittenScenario.{IsWritable};

use crate::controllers::hosts_by;
use crate::draft::{Draft, DraftForm, Invariants};
use crate::laws::a_draft_that_keeps_its_rules_can_be_written;
use controller_host::Host;
use doc_forms::{DocFail, Form, read_document};
use machine_setup::Setup;
use serde_json::Value;
use std::alloc::{AllocError, Global};

/// A setup, with its controllers as they start, and what must hold of its network.
#[derive(Debug, Drop)]
pub struct Scenario {
    pub setup: Setup<Host>,
    pub invariants: Invariants,
}

impl Draft {
    /// The scenario, with its controllers as they start.
    pub fn made(self, alloc: Global) -> Result<Scenario, AllocError>
        requires { IsFit self }
        ensures made { IfOk result (λ scenario. scenario ≡ made self) }
        ensures valid { IfOk result (λ scenario. IsValidSetup scenario.setup) }
        ensures invariants { IfOk result (λ scenario. All (IsFitInvariant (length scenario.setup.topology.hosts)) scenario.invariants) }
    {
        let Draft {
            topology,
            presets,
            plans,
            script,
            limits,
            invariants,
        } = self;
        let controllers = hosts_by(alloc, &topology, plans)?;
        Ok(Scenario {
            setup: Setup {
                topology,
                presets,
                controllers,
                script,
                limits,
            },
            invariants,
        })
    }
}

/// A scenario.
struct ScenarioForm;

impl Form for ScenarioForm {
    type Read = Scenario;

    ghost form = { scenario_of };

    ghost holds = { λ scenario. IsValidSetup scenario.setup × All (IsFitInvariant (length scenario.setup.topology.hosts)) scenario.invariants × IsWritable scenario };

    fn read(alloc: Global, value: &Value) -> Result<Scenario, DocFail> {
        a_draft_that_keeps_its_rules_can_be_written();
        let draft = DraftForm::read(alloc, value)?;
        draft.check(alloc)?;
        Ok(draft.made(alloc)?)
    }
}

/// The scenario that a document of these bytes stands for, or the first rule that it breaks, and where.
pub fn read_scenario(alloc: Global, bytes: &[u8]) -> Result<Scenario, DocFail>
    ensures read { IfOk result (λ scenario. IsText scenario_of bytes.now scenario) }
    ensures valid { IfOk result (λ scenario. IsValidSetup scenario.setup) }
    ensures invariants { IfOk result (λ scenario. All (IsFitInvariant (length scenario.setup.topology.hosts)) scenario.invariants) }
    ensures writable { IfOk result IsWritable }
    ensures refused { IfErr result (λ why. IsRefused scenario_of bytes.now why) }
{
    read_document::<ScenarioForm>(alloc, bytes)
}
