//! Switches, links, hosts and invariants as they are written.
ghost use Rattle.std.specs.Prelude.{◌≡◌, IfOk};
ghost use Rattle.serde_json.specs.View.{view};
ghost use Rattle.doc_forms.specs.Written.{list_data};
ghost use Rattle.scenario_doc.specs.Written.{host_data, invariant_data, link_data, switch_data, switches_beside};

use crate::write_flows::PresetJson;
use crate::write_packets::MatchJson;
use doc_forms::{ToJson, list_to_json};
use machine_setup::SwitchPresets;
use serde_json::{Value, json};
use std::alloc::{AllocError, Global};
use topology::Invariant;

/// A switch: its number of ports, its controller or `null`, and its presets.
fn switch_json(
    alloc: Global,
    ports: u16,
    owner: Option<u16>,
    presets: &SwitchPresets,
) -> Result<Value, AllocError>
    ensures { IfOk result
        (λ value. view value ≡ switch_data (record { ports = ports; owner = owner; presets = presets.now })) }
{
    let presets = list_to_json::<PresetJson>(alloc, presets.as_slice())?;
    json!(in alloc; [ports, owner, presets])
}

/// The switches, of which the lists say part by part.
pub(crate) fn switches_json(
    alloc: Global,
    ports: &[u16],
    owners: &[Option<u16>],
    presets: &[SwitchPresets],
) -> Result<Value, AllocError>
    ensures { IfOk result
        (λ value. view value ≡ list_data switch_data (switches_beside ports.now owners.now presets.now)) }
{
    let mut values = Vec::new(alloc);
    let count = ports.len().min(owners.len()).min(presets.len());
    for s in 0..count {
        values.push(switch_json(alloc, ports[s], owners[s], &presets[s])?)?;
    }
    Ok(Value::Array(values))
}

/// Links, each as switch and port of one end, then of the other.
pub(crate) struct LinkJson;

impl ToJson for LinkJson {
    type Of = (u16, u16, u16, u16);

    ghost json = { link_data };

    fn to_json(alloc: Global, link: &(u16, u16, u16, u16)) -> Result<Value, AllocError> {
        json!(in alloc; [link.0, link.1, link.2, link.3])
    }
}

/// Hosts, each as switch, port and address.
pub(crate) struct HostJson;

impl ToJson for HostJson {
    type Of = (u16, u16, u64);

    ghost json = { host_data };

    fn to_json(alloc: Global, host: &(u16, u16, u64)) -> Result<Value, AllocError> {
        json!(in alloc; [host.0, host.1, host.2])
    }
}

/// Invariants, each a list that begins with its word.
pub(crate) struct InvariantJson;

impl ToJson for InvariantJson {
    type Of = Invariant;

    ghost json = { invariant_data };

    fn to_json(alloc: Global, invariant: &Invariant) -> Result<Value, AllocError> {
        match invariant {
            Invariant::LoopFree => json!(in alloc; ["loop"]),
            Invariant::NoBlackHole => json!(in alloc; ["blackhole"]),
            Invariant::Forbid { src, dst, matches } => {
                let matches = MatchJson::to_json(alloc, matches)?;
                json!(in alloc; ["forbid", *src, *dst, matches])
            }
        }
    }
}
