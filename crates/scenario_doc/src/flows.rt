//! Presets, the entries with which a switch starts.
ghost use Rattle.std.specs.Prelude.{◌≡◌, ◌≤◌, All, IfOk, Ok, length};
ghost use Rattle.doc_forms.specs.Forms.{list};
ghost use Rattle.serde_json.specs.View.{view};
ghost use Rattle.doc_forms.specs.Reading.{Gives};
ghost use Rattle.scenario_doc.specs.Flows.{action_by, action_kind, action_of, preset_of, rewrite_numbered, rewrite_of, set_to};
ghost use Rattle.scenario_doc.specs.Ranges.{IsWideAction, IsWidePreset};

use crate::numbers::ADDRESS;
use crate::packets::MatchForm;
use doc_forms::{
    DocFail, Form, Kind, counted, element, kind_at, list, name_at, number_at, refused, u8_at,
    u16_at, u32_at, whole,
};
use listed::Listed;
use machine_setup::Preset;
use of10_messages::Action;
use serde_json::Value;
use std::alloc::Global;

/// The words of actions.
#[derive(Clone, Copy)]
pub(crate) enum ActionKind {
    Output,
    Set,
    Strip,
}

impl Kind for ActionKind {
    ghost of_word = { action_kind };

    fn of_word(word: &str) -> Option<ActionKind> {
        match word {
            "output" => Some(ActionKind::Output),
            "set" => Some(ActionKind::Set),
            "strip" => Some(ActionKind::Strip),
            _ => None,
        }
    }
}

/// A field that an action sets.
#[derive(Clone, Copy)]
pub(crate) enum Rewrite {
    VlanVid,
    VlanPcp,
    DlSrc,
    DlDst,
    NwSrc,
    NwDst,
    NwTos,
    TpSrc,
    TpDst,
}

/// A field by the type of the action that sets it (OpenFlow 1.0.0 section 5.2.4).
fn rewrite_numbered(number: u64) -> Option<Rewrite>
    ensures { result ≡ rewrite_numbered number }
{
    match number {
        1 => Some(Rewrite::VlanVid),
        2 => Some(Rewrite::VlanPcp),
        4 => Some(Rewrite::DlSrc),
        5 => Some(Rewrite::DlDst),
        6 => Some(Rewrite::NwSrc),
        7 => Some(Rewrite::NwDst),
        8 => Some(Rewrite::NwTos),
        9 => Some(Rewrite::TpSrc),
        10 => Some(Rewrite::TpDst),
        _ => None,
    }
}

struct RewriteForm;

impl Form for RewriteForm {
    type Read = Rewrite;

    ghost form = { rewrite_of };

    ghost holds = { λ _. Unit {0} };

    fn read(alloc: Global, value: &Value) -> Result<Rewrite, DocFail> {
        match rewrite_numbered(whole(alloc, value)?) {
            Some(field) => Ok(field),
            None => refused(alloc, 7),
        }
    }
}

fn set_to(alloc: Global, field: Rewrite, list: &Value) -> Result<Action, DocFail>
    ensures read { Gives result (set_to field (view list.now)) }
    ensures wide { IfOk result IsWideAction }
{
    match field {
        Rewrite::VlanVid => Ok(Action::SetVlanVid(number_at(alloc, list, 2, 0, 4095)? as u16)),
        Rewrite::VlanPcp => Ok(Action::SetVlanPcp(number_at(alloc, list, 2, 0, 7)? as u8)),
        Rewrite::DlSrc => Ok(Action::SetDlSrc(number_at(alloc, list, 2, 0, ADDRESS)?)),
        Rewrite::DlDst => Ok(Action::SetDlDst(number_at(alloc, list, 2, 0, ADDRESS)?)),
        Rewrite::NwSrc => Ok(Action::SetNwSrc(u32_at(alloc, list, 2)?)),
        Rewrite::NwDst => Ok(Action::SetNwDst(u32_at(alloc, list, 2)?)),
        Rewrite::NwTos => Ok(Action::SetNwTos(u8_at(alloc, list, 2)?)),
        Rewrite::TpSrc => Ok(Action::SetTpSrc(u16_at(alloc, list, 2)?)),
        Rewrite::TpDst => Ok(Action::SetTpDst(u16_at(alloc, list, 2)?)),
    }
}

fn action_by(alloc: Global, kind: ActionKind, list: &Value) -> Result<Action, DocFail>
    ensures read { Gives result (action_by kind (view list.now)) }
    ensures wide { IfOk result IsWideAction }
{
    match kind {
        ActionKind::Output => {
            counted(alloc, list, 3)?;
            let port = name_at(alloc, list, 1)?;
            let max_len = u16_at(alloc, list, 2)?;
            Ok(Action::Output { port, max_len })
        }
        ActionKind::Set => {
            counted(alloc, list, 3)?;
            let field = element::<RewriteForm>(alloc, list, 1)?;
            set_to(alloc, field, list)
        }
        ActionKind::Strip => {
            counted(alloc, list, 1)?;
            Ok(Action::StripVlan)
        }
    }
}

/// An action.
struct ActionForm;

impl Form for ActionForm {
    type Read = Action;

    ghost form = { action_of };

    ghost holds = { IsWideAction };

    fn read(alloc: Global, value: &Value) -> Result<Action, DocFail> {
        let kind = kind_at::<ActionKind>(alloc, value, 0)?;
        action_by(alloc, kind, value)
    }
}

/// At most 16 actions.
struct ActionsForm;

impl Form for ActionsForm {
    type Read = Listed<Action>;

    ghost form = { list action_of 16 };

    ghost holds = { λ actions. (length actions ≤ 16) × All IsWideAction actions };

    fn read(alloc: Global, value: &Value) -> Result<Listed<Action>, DocFail> {
        list::<ActionForm>(alloc, value, 16)
    }
}

/// A preset.
pub(crate) struct PresetForm;

impl Form for PresetForm {
    type Read = Preset;

    ghost form = { preset_of };

    ghost holds = { IsWidePreset };

    fn read(alloc: Global, value: &Value) -> Result<Preset, DocFail> {
        counted(alloc, value, 7)?;
        let matches = element::<MatchForm>(alloc, value, 0)?;
        let priority = u16_at(alloc, value, 1)?;
        let actions = element::<ActionsForm>(alloc, value, 2)?;
        let idle = u16_at(alloc, value, 3)?;
        let hard = u16_at(alloc, value, 4)?;
        let flags = number_at(alloc, value, 5, 0, 1)? as u16;
        let cookie = number_at(alloc, value, 6, 0, u64::MAX)?;
        Ok(Preset {
            matches,
            priority,
            actions,
            idle,
            hard,
            flags,
            cookie,
        })
    }
}
