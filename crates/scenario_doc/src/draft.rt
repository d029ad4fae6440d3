//! A scenario as it is read, before it is asked whether its parts fit one another.
ghost use Rattle.std.specs.Prelude.{◌≡◌, ◌≤◌, [], All, IfOk, Ok, codes, length, map};
ghost use Rattle.serde_json.specs.View.{view};
ghost use Rattle.doc_forms.specs.Forms.{field, list};
ghost use Rattle.doc_forms.specs.Reading.{Gives};
ghost use Rattle.scenario_doc.specs.Draft.{draft_of, version};
ghost use Rattle.scenario_doc.specs.Network.{host_of, invariant_of, link_of, switch_of};
ghost use Rattle.scenario_doc.specs.Plans.{plan_of};
ghost use Rattle.scenario_doc.specs.Ranges.{AreWidePlans, IsWideDraft, IsWideHost, IsWideInvariant, IsWideLine, IsWideSwitch};
ghost use Rattle.scenario_doc.specs.Script.{line_of};

use crate::network::{HostForm, InvariantForm, LinkForm, SwitchDraft, SwitchForm};
use crate::plans::{Plans, PlansForm};
use crate::script::LineForm;
use doc_forms::{DocFail, Form, field, keyed, list, require, u32_of, whole};
use listed::Listed;
use machine_setup::{Limits, Presets, Script};
use serde_json::Value;
use std::alloc::{AllocError, Global};
use topology::{Hosts, Invariant, Links, Owners, Ports, Topology};

/// Invariants, in order.
pub type Invariants = Listed<Invariant>;

/// What a scenario document says.
#[derive(Debug, Drop)]
pub struct Draft {
    pub topology: Topology,
    pub presets: Presets,
    pub plans: Listed<Plans>,
    pub script: Script,
    pub limits: Limits,
    pub invariants: Invariants,
}

const KEYS: [&str; 11] = [
    "budget",
    "controllers",
    "hosts",
    "invariants",
    "links",
    "max_events",
    "patience",
    "script",
    "sts",
    "switches",
    "workers",
];

/// The controllers, at most eight.
struct ControllersForm;

impl Form for ControllersForm {
    type Read = Listed<Plans>;

    ghost form = { list (list plan_of 4) 8 };

    ghost holds = { λ plans. (length plans ≤ 8) × All AreWidePlans plans };

    fn read(alloc: Global, value: &Value) -> Result<Listed<Plans>, DocFail> {
        list::<PlansForm>(alloc, value, 8)
    }
}

/// The hosts, at most 128.
struct HostsForm;

impl Form for HostsForm {
    type Read = Hosts;

    ghost form = { list host_of 128 };

    ghost holds = { λ hosts. (length hosts ≤ 128) × All IsWideHost hosts };

    fn read(alloc: Global, value: &Value) -> Result<Hosts, DocFail> {
        list::<HostForm>(alloc, value, 128)
    }
}

/// The invariants, at most 32.
struct InvariantsForm;

impl Form for InvariantsForm {
    type Read = Invariants;

    ghost form = { list invariant_of 32 };

    ghost holds = { λ invariants. (length invariants ≤ 32) × All IsWideInvariant invariants };

    fn read(alloc: Global, value: &Value) -> Result<Invariants, DocFail> {
        list::<InvariantForm>(alloc, value, 32)
    }
}

/// The links, at most 256.
struct LinksForm;

impl Form for LinksForm {
    type Read = Links;

    ghost form = { list link_of 256 };

    ghost holds = { λ links. length links ≤ 256 };

    fn read(alloc: Global, value: &Value) -> Result<Links, DocFail> {
        list::<LinkForm>(alloc, value, 256)
    }
}

/// The lines of the script, at most 256.
struct ScriptForm;

impl Form for ScriptForm {
    type Read = Script;

    ghost form = { list line_of 256 };

    ghost holds = { λ lines. (length lines ≤ 256) × All IsWideLine lines };

    fn read(alloc: Global, value: &Value) -> Result<Script, DocFail> {
        list::<LineForm>(alloc, value, 256)
    }
}

/// The switches, at most 64.
struct SwitchesForm;

impl Form for SwitchesForm {
    type Read = Listed<SwitchDraft>;

    ghost form = { list switch_of 64 };

    ghost holds = { λ switches. (length switches ≤ 64) × All IsWideSwitch switches };

    fn read(alloc: Global, value: &Value) -> Result<Listed<SwitchDraft>, DocFail> {
        list::<SwitchForm>(alloc, value, 64)
    }
}

/// The version of the format, which is 1.
pub struct VersionForm;

impl Form for VersionForm {
    type Read = ();

    ghost form = { version };

    ghost holds = { λ _. Unit {0} };

    fn read(alloc: Global, value: &Value) -> Result<(), DocFail> {
        let number = whole(alloc, value)?;
        require(alloc, 8, number == 1)
    }
}

/// A scenario.
pub struct DraftForm;

impl Form for DraftForm {
    type Read = Draft;

    ghost form = { draft_of };

    ghost holds = { IsWideDraft };

    fn read(alloc: Global, value: &Value) -> Result<Draft, DocFail> {
        keyed(alloc, value, &KEYS)?;
        let budget = u32_of(alloc, value, "budget", 0, 64)?;
        let plans = field::<ControllersForm>(alloc, value, "controllers")?;
        let hosts = field::<HostsForm>(alloc, value, "hosts")?;
        let invariants = field::<InvariantsForm>(alloc, value, "invariants")?;
        let links = field::<LinksForm>(alloc, value, "links")?;
        let max_events = u32_of(alloc, value, "max_events", 1, 16_384)?;
        let patience = u32_of(alloc, value, "patience", 0, 1_000_000)?;
        let script = field::<ScriptForm>(alloc, value, "script")?;
        field::<VersionForm>(alloc, value, "sts")?;
        let switches = field::<SwitchesForm>(alloc, value, "switches")?;
        let workers = u32_of(alloc, value, "workers", 1, 8)?;
        let limits = Limits {
            max_events,
            budget,
            workers,
            patience,
        };
        let columns = columns_of(alloc, switches)?;
        Ok(Draft {
            topology: Topology {
                ports: columns.ports,
                owner: columns.owner,
                links,
                hosts,
            },
            presets: columns.presets,
            plans,
            script,
            limits,
            invariants,
        })
    }
}

/// What is said of the switches, part by part.
#[derive(Debug, Drop)]
struct Columns {
    ports: Ports,
    owner: Owners,
    presets: Presets,
}

impl Columns {
    fn new(alloc: Global) -> Columns
        ensures { (result.ports ≡ []) × (result.owner ≡ []) × (result.presets ≡ []) }
    {
        Columns {
            ports: Listed::new(alloc),
            owner: Listed::new(alloc),
            presets: Listed::new(alloc),
        }
    }
}

/// The parts of some switches.
fn columns_of(alloc: Global, switches: Listed<SwitchDraft>) -> Result<Columns, AllocError>
    ensures ports { IfOk result (λ columns. columns.ports ≡ map (λ s. s.ports) switches) }
    ensures owner { IfOk result (λ columns. columns.owner ≡ map (λ s. s.owner) switches) }
    ensures presets { IfOk result (λ columns. columns.presets ≡ map (λ s. s.presets) switches) }
{
    let mut columns = Columns::new(alloc);
    for switch in switches.into_vec() {
        columns.ports.push(switch.ports)?;
        columns.owner.push(switch.owner)?;
        columns.presets.push(switch.presets)?;
    }
    Ok(columns)
}
