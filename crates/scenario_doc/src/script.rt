//! The lines of a script.
ghost use Rattle.std.specs.Prelude.{◌≡◌, ◌≤◌, IfOk, Ok};
ghost use Rattle.serde_json.specs.View.{view};
ghost use Rattle.doc_forms.specs.Reading.{Gives};
ghost use Rattle.scenario_doc.specs.Ranges.{IsWideInput, IsWideLine};
ghost use Rattle.scenario_doc.specs.declared.script.LineKind.TheVariants.{HostMove, Inject, Policy};
ghost use Rattle.scenario_doc.specs.Script.{input_by, line_kind, line_length, line_of};

use crate::packets::{HeaderForm, MatchForm};
use doc_forms::{DocFail, Form, Kind, counted, element, kind_at, name_at, number_at, u32_at};
use machine_setup::{Input, Line};
use of10_match::Packet;
use serde_json::Value;
use std::alloc::Global;

/// The words of inputs.
#[derive(Clone, Copy)]
pub(crate) enum LineKind {
    Inject,
    LinkDown,
    LinkUp,
    SwitchFail,
    SwitchUp,
    ControlDown,
    ControlUp,
    HostMove,
    Policy,
    Seconds,
}

impl Kind for LineKind {
    ghost of_word = { line_kind };

    fn of_word(word: &str) -> Option<LineKind> {
        match word {
            "inject" => Some(LineKind::Inject),
            "linkdown" => Some(LineKind::LinkDown),
            "linkup" => Some(LineKind::LinkUp),
            "switchfail" => Some(LineKind::SwitchFail),
            "switchup" => Some(LineKind::SwitchUp),
            "controldown" => Some(LineKind::ControlDown),
            "controlup" => Some(LineKind::ControlUp),
            "hostmove" => Some(LineKind::HostMove),
            "policy" => Some(LineKind::Policy),
            "seconds" => Some(LineKind::Seconds),
            _ => None,
        }
    }
}

impl LineKind {
    /// How many elements a line of the kind has.
    fn line_length(self) -> usize
        ensures { result ≡ line_length self }
    {
        match self {
            LineKind::Inject | LineKind::HostMove => 5,
            LineKind::Policy => 4,
            _ => 3,
        }
    }
}

fn inject(alloc: Global, list: &Value) -> Result<Input, DocFail>
    ensures read { Gives result (input_by Inject (view list.now)) }
    ensures wide { IfOk result IsWideInput }
{
    let host = name_at(alloc, list, 2)?;
    let header = element::<HeaderForm>(alloc, list, 3)?;
    let tag = u32_at(alloc, list, 4)?;
    Ok(Input::Inject {
        host,
        packet: Packet { header, tag },
    })
}

fn host_move(alloc: Global, list: &Value) -> Result<Input, DocFail>
    ensures read { Gives result (input_by HostMove (view list.now)) }
    ensures wide { IfOk result IsWideInput }
{
    let host = name_at(alloc, list, 2)?;
    let s = name_at(alloc, list, 3)?;
    let p = name_at(alloc, list, 4)?;
    Ok(Input::HostMove { host, s, p })
}

fn policy(alloc: Global, list: &Value) -> Result<Input, DocFail>
    ensures read { Gives result (input_by Policy (view list.now)) }
    ensures wide { IfOk result IsWideInput }
{
    let c = name_at(alloc, list, 2)?;
    let deny = element::<MatchForm>(alloc, list, 3)?;
    Ok(Input::Policy { c, deny })
}

fn input_by(alloc: Global, kind: LineKind, list: &Value) -> Result<Input, DocFail>
    ensures read { Gives result (input_by kind (view list.now)) }
    ensures wide { IfOk result IsWideInput }
{
    match kind {
        LineKind::Inject => inject(alloc, list),
        LineKind::LinkDown => Ok(Input::LinkDown(name_at(alloc, list, 2)?)),
        LineKind::LinkUp => Ok(Input::LinkUp(name_at(alloc, list, 2)?)),
        LineKind::SwitchFail => Ok(Input::SwitchFail(name_at(alloc, list, 2)?)),
        LineKind::SwitchUp => Ok(Input::SwitchUp(name_at(alloc, list, 2)?)),
        LineKind::ControlDown => Ok(Input::ControlDown(name_at(alloc, list, 2)?)),
        LineKind::ControlUp => Ok(Input::ControlUp(name_at(alloc, list, 2)?)),
        LineKind::HostMove => host_move(alloc, list),
        LineKind::Policy => policy(alloc, list),
        LineKind::Seconds => Ok(Input::Seconds(number_at(alloc, list, 2, 1, 1_000_000)? as u32)),
    }
}

/// A line.
pub(crate) struct LineForm;

impl Form for LineForm {
    type Read = Line;

    ghost form = { line_of };

    ghost holds = { IsWideLine };

    fn read(alloc: Global, value: &Value) -> Result<Line, DocFail> {
        let kind = kind_at::<LineKind>(alloc, value, 1)?;
        counted(alloc, value, kind.line_length())?;
        let mark = number_at(alloc, value, 0, 0, 1)?;
        let input = input_by(alloc, kind, value)?;
        Ok(Line {
            after_quiet: mark == 1,
            input,
        })
    }
}
