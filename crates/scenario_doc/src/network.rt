//! Switches, links, hosts and invariants.
ghost use Rattle.std.specs.Prelude.{◌≡◌, ◌≤◌, ◌<◌, ◌^◌, All, IfOk, Ok, length};
ghost use Rattle.serde_json.specs.View.{view};
ghost use Rattle.doc_forms.specs.Forms.{list};
ghost use Rattle.doc_forms.specs.Reading.{Gives};
ghost use Rattle.scenario_doc.specs.Flows.{preset_of};
ghost use Rattle.scenario_doc.specs.Network.{host_of, invariant_by, invariant_kind, invariant_of, link_of, switch_of};
ghost use Rattle.scenario_doc.specs.Ranges.{IsWideHost, IsWideInvariant, IsWidePreset, IsWideSwitch};

use crate::flows::PresetForm;
use crate::numbers::{ADDRESS, Name, Nullable};
use crate::packets::MatchForm;
use doc_forms::{DocFail, Form, Kind, counted, element, kind_at, list, name_at, number_at};
use machine_setup::SwitchPresets;
use serde_json::Value;
use std::alloc::Global;
use topology::Invariant;

/// What a document says of a switch.
#[derive(Debug, Drop)]
pub struct SwitchDraft {
    pub ports: u16,
    pub owner: Option<u16>,
    pub presets: SwitchPresets,
}

/// At most 64 presets.
struct PresetsForm;

impl Form for PresetsForm {
    type Read = SwitchPresets;

    ghost form = { list preset_of 64 };

    ghost holds = { λ presets. (length presets ≤ 64) × All IsWidePreset presets };

    fn read(alloc: Global, value: &Value) -> Result<SwitchPresets, DocFail> {
        list::<PresetForm>(alloc, value, 64)
    }
}

/// A switch.
pub(crate) struct SwitchForm;

impl Form for SwitchForm {
    type Read = SwitchDraft;

    ghost form = { switch_of };

    ghost holds = { IsWideSwitch };

    fn read(alloc: Global, value: &Value) -> Result<SwitchDraft, DocFail> {
        counted(alloc, value, 3)?;
        let ports = number_at(alloc, value, 0, 1, 48)? as u16;
        let owner = element::<Nullable<Name>>(alloc, value, 1)?;
        let presets = element::<PresetsForm>(alloc, value, 2)?;
        Ok(SwitchDraft {
            ports,
            owner,
            presets,
        })
    }
}

/// A link.
pub(crate) struct LinkForm;

impl Form for LinkForm {
    type Read = (u16, u16, u16, u16);

    ghost form = { link_of };

    ghost holds = { λ _. Unit {0} };

    fn read(alloc: Global, value: &Value) -> Result<(u16, u16, u16, u16), DocFail> {
        counted(alloc, value, 4)?;
        let s = name_at(alloc, value, 0)?;
        let p = name_at(alloc, value, 1)?;
        let t = name_at(alloc, value, 2)?;
        let q = name_at(alloc, value, 3)?;
        Ok((s, p, t, q))
    }
}

/// A host.
pub(crate) struct HostForm;

impl Form for HostForm {
    type Read = (u16, u16, u64);

    ghost form = { host_of };

    ghost holds = { IsWideHost };

    fn read(alloc: Global, value: &Value) -> Result<(u16, u16, u64), DocFail> {
        counted(alloc, value, 3)?;
        let s = name_at(alloc, value, 0)?;
        let p = name_at(alloc, value, 1)?;
        let mac = number_at(alloc, value, 2, 1, ADDRESS)?;
        Ok((s, p, mac))
    }
}

/// The words of invariants.
#[derive(Clone, Copy)]
pub(crate) enum InvariantKind {
    Loop,
    BlackHole,
    Forbid,
}

impl Kind for InvariantKind {
    ghost of_word = { invariant_kind };

    fn of_word(word: &str) -> Option<InvariantKind> {
        match word {
            "loop" => Some(InvariantKind::Loop),
            "blackhole" => Some(InvariantKind::BlackHole),
            "forbid" => Some(InvariantKind::Forbid),
            _ => None,
        }
    }
}

fn invariant_by(alloc: Global, kind: InvariantKind, list: &Value) -> Result<Invariant, DocFail>
    ensures read { Gives result (invariant_by kind (view list.now)) }
    ensures wide { IfOk result IsWideInvariant }
{
    match kind {
        InvariantKind::Loop => {
            counted(alloc, list, 1)?;
            Ok(Invariant::LoopFree)
        }
        InvariantKind::BlackHole => {
            counted(alloc, list, 1)?;
            Ok(Invariant::NoBlackHole)
        }
        InvariantKind::Forbid => {
            counted(alloc, list, 4)?;
            let src = name_at(alloc, list, 1)?;
            let dst = name_at(alloc, list, 2)?;
            let matches = element::<MatchForm>(alloc, list, 3)?;
            Ok(Invariant::Forbid { src, dst, matches })
        }
    }
}

/// An invariant.
pub(crate) struct InvariantForm;

impl Form for InvariantForm {
    type Read = Invariant;

    ghost form = { invariant_of };

    ghost holds = { IsWideInvariant };

    fn read(alloc: Global, value: &Value) -> Result<Invariant, DocFail> {
        let kind = kind_at::<InvariantKind>(alloc, value, 0)?;
        invariant_by(alloc, kind, value)
    }
}
