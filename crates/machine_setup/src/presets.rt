//! Whether presets are what a switch may start with. A number that is read and not used tells the proof that it fits its
//! type.
ghost use Rattle.std.specs.Prelude.{◌≡◌, ◌≢◌, ◌↔◌, ◌≤◌, length, map, All, AllPairs, IsTrue, IfOk};
ghost use Rattle.machine_setup.specs.Setup.{IsPreset, IsPresetAction, IsPresetPort, IsPresets, IsPresetsAt, key_of};

use crate::preset::Preset;
use listed::{Listed, all_different};
use of10_match::{Match, OFPP_ALL, OFPP_CONTROLLER, OFPP_FLOOD, OFPP_IN_PORT};
use of10_messages::Action;
use std::alloc::{AllocError, Global};

/// Whether there is a list of presets for each switch, and each is one that its switch may start with.
pub(crate) fn are_presets(
    alloc: Global,
    ports: &[u16],
    presets: &[Listed<Preset>],
) -> Result<bool, AllocError>
    ensures { IfOk result (λ valid. IsTrue valid ↔ IsPresets ports.now presets.now) }
{
    if presets.len() != ports.len() {
        return Ok(false);
    }
    for (s, list) in presets.iter().enumerate() {
        if !are_presets_at(alloc, ports[s], list.as_slice())? {
            return Ok(false);
        }
    }
    Ok(true)
}

fn are_presets_at(alloc: Global, ports: u16, presets: &[Preset]) -> Result<bool, AllocError>
    ensures { IfOk result (λ valid. IsTrue valid ↔ IsPresetsAt ports presets.now) }
{
    if !are_few_presets(ports, presets) {
        return Ok(false);
    }
    let keys = keys(alloc, presets)?;
    Ok(all_different(keys.as_slice()))
}

fn are_few_presets(ports: u16, presets: &[Preset]) -> bool
    ensures { IsTrue result ↔ ((length presets.now ≤ 64) × All (IsPreset ports) presets.now) }
{
    presets.len() <= 64 && presets.iter().all(|preset| is_preset(ports, preset))
}

fn keys(alloc: Global, presets: &[Preset]) -> Result<Vec<(Match, u16)>, AllocError>
    ensures { IfOk result (λ keys. keys.items ≡ map key_of presets.now) }
{
    presets
        .iter()
        .map(|preset| (preset.matches, preset.priority))
        .collect(alloc)
}

fn is_preset(ports: u16, preset: &Preset) -> bool
    ensures { IsTrue result ↔ IsPreset ports preset.now }
{
    let _priority = preset.priority;
    let _idle = preset.idle;
    let _hard = preset.hard;
    let _cookie = preset.cookie;
    let matches = preset.matches.is_valid();
    let flags = preset.flags <= 1;
    let actions = are_preset_actions(ports, preset.actions.as_slice());
    matches & flags & actions
}

fn are_preset_actions(ports: u16, actions: &[Action]) -> bool
    ensures { IsTrue result ↔ ((length actions.now ≤ 16) × All (IsPresetAction ports) actions.now) }
{
    actions.len() <= 16 && actions.iter().all(|action| is_preset_action(ports, action))
}

fn is_preset_action(ports: u16, action: &Action) -> bool
    ensures { IsTrue result ↔ IsPresetAction ports action.now }
{
    match action {
        Action::Output { port, max_len } => {
            let _fits = *max_len;
            is_preset_port(ports, *port)
        }
        Action::SetVlanVid(vlan) => *vlan <= 4095,
        Action::SetVlanPcp(pcp) => *pcp <= 7,
        Action::SetDlSrc(address) | Action::SetDlDst(address) => *address < 1 << 48,
        Action::SetNwSrc(address) | Action::SetNwDst(address) => {
            let _fits = *address;
            true
        }
        Action::SetNwTos(tos) => {
            let _fits = *tos;
            true
        }
        Action::SetTpSrc(port) | Action::SetTpDst(port) => {
            let _fits = *port;
            true
        }
        Action::StripVlan => true,
        Action::Other { .. } => false,
    }
}

fn is_preset_port(ports: u16, port: u16) -> bool
    ensures { IsTrue result ↔ IsPresetPort ports port }
{
    1 <= port && port <= ports
        || matches!(port, OFPP_IN_PORT | OFPP_FLOOD | OFPP_ALL | OFPP_CONTROLLER)
}
