//! Actions and presets as they are written.
ghost use Rattle.std.specs.Prelude.{◌≡◌, IfOk};
ghost use Rattle.serde_json.specs.View.{view};
ghost use Rattle.scenario_doc.specs.Written.{action_data, preset_data, set_data};

use crate::write_packets::MatchJson;
use doc_forms::{ToJson, list_to_json};
use machine_setup::Preset;
use of10_messages::Action;
use serde_json::{Value, json};
use std::alloc::{AllocError, Global};

/// An action that sets a field, by its type.
fn set_json(alloc: Global, kind: u16, value: u64) -> Result<Value, AllocError>
    ensures { IfOk result (λ found. view found ≡ set_data kind value) }
{
    json!(in alloc; ["set", kind, value])
}

/// Actions, each a list that begins with its word.
struct ActionJson;

impl ToJson for ActionJson {
    type Of = Action;

    ghost json = { action_data };

    fn to_json(alloc: Global, action: &Action) -> Result<Value, AllocError> {
        match action {
            Action::Output { port, max_len } => json!(in alloc; ["output", *port, *max_len]),
            Action::SetVlanVid(vlan) => set_json(alloc, 1, u64::from(*vlan)),
            Action::SetVlanPcp(pcp) => set_json(alloc, 2, u64::from(*pcp)),
            Action::StripVlan => json!(in alloc; ["strip"]),
            Action::SetDlSrc(address) => set_json(alloc, 4, *address),
            Action::SetDlDst(address) => set_json(alloc, 5, *address),
            Action::SetNwSrc(address) => set_json(alloc, 6, u64::from(*address)),
            Action::SetNwDst(address) => set_json(alloc, 7, u64::from(*address)),
            Action::SetNwTos(tos) => set_json(alloc, 8, u64::from(*tos)),
            Action::SetTpSrc(port) => set_json(alloc, 9, u64::from(*port)),
            Action::SetTpDst(port) => set_json(alloc, 10, u64::from(*port)),
            // No scenario that was read has one.
            Action::Other { .. } => Ok(Value::Null),
        }
    }
}

/// Presets, each a list of its seven parts.
pub(crate) struct PresetJson;

impl ToJson for PresetJson {
    type Of = Preset;

    ghost json = { preset_data };

    fn to_json(alloc: Global, preset: &Preset) -> Result<Value, AllocError> {
        let matches = MatchJson::to_json(alloc, &preset.matches)?;
        let actions = list_to_json::<ActionJson>(alloc, preset.actions.as_slice())?;
        json!(in alloc; [
            matches,
            preset.priority,
            actions,
            preset.idle,
            preset.hard,
            preset.flags,
            preset.cookie
        ])
    }
}
