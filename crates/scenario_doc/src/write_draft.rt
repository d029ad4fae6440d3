//! The members of a scenario document as they are written.
ghost use Rattle.std.specs.Prelude.{◌≡◌, IfOk};
ghost use Rattle.serde_json.specs.View.{view};
ghost use Rattle.scenario_doc.specs.Written.{draft_data};

use crate::draft::Invariants;
use crate::plans::Plans;
use crate::write_network::{HostJson, InvariantJson, LinkJson, switches_json};
use crate::write_script::{LineJson, PlansJson};
use doc_forms::list_to_json;
use listed::Listed;
use machine_setup::{Limits, Presets, Script};
use serde_json::{Map, Value, put};
use std::alloc::{AllocError, Global};
use topology::Topology;

/// The value of a scenario document, of the parts of a draft.
pub(crate) fn draft_json(
    alloc: Global,
    topology: &Topology,
    presets: &Presets,
    plans: &Listed<Plans>,
    script: &Script,
    limits: &Limits,
    invariants: &Invariants,
) -> Result<Value, AllocError>
    ensures { IfOk result
        (λ value. view value ≡ draft_data (record { topology = topology.now; presets = presets.now; plans = plans.now; script = script.now; limits = limits.now; invariants = invariants.now })) }
{
    let plans = list_to_json::<PlansJson>(alloc, plans.as_slice())?;
    let hosts = list_to_json::<HostJson>(alloc, topology.hosts.as_slice())?;
    let invariants = list_to_json::<InvariantJson>(alloc, invariants.as_slice())?;
    let links = list_to_json::<LinkJson>(alloc, topology.links.as_slice())?;
    let script = list_to_json::<LineJson>(alloc, script.as_slice())?;
    let switches = switches_json(
        alloc,
        topology.ports.as_slice(),
        topology.owner.as_slice(),
        presets.as_slice(),
    )?;
    let mut members = Map::new(alloc);
    put(&mut members, alloc, "budget", Value::from(limits.budget))?;
    put(&mut members, alloc, "controllers", plans)?;
    put(&mut members, alloc, "hosts", hosts)?;
    put(&mut members, alloc, "invariants", invariants)?;
    put(&mut members, alloc, "links", links)?;
    put(
        &mut members,
        alloc,
        "max_events",
        Value::from(limits.max_events),
    )?;
    put(
        &mut members,
        alloc,
        "patience",
        Value::from(limits.patience),
    )?;
    put(&mut members, alloc, "script", script)?;
    put(&mut members, alloc, "sts", Value::from(1u8))?;
    put(&mut members, alloc, "switches", switches)?;
    put(&mut members, alloc, "workers", Value::from(limits.workers))?;
    Ok(Value::Object(members))
}
