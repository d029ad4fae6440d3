//! Applications and lines of scripts as they are written.
ghost use Rattle.std.specs.Prelude.{◌≡◌, IfOk, string_bytes};
ghost use Rattle.serde_json.specs.View.{view};
ghost use Rattle.serde_json.specs.Written.{compact_text};
ghost use Rattle.doc_forms.specs.Written.{list_data};
ghost use Rattle.scenario_doc.specs.Written.{inject_data, input_data, line_data, move_data, plan_data, policy_data, short_data};

use crate::plans::{Plan, Plans};
use crate::write_packets::{MatchJson, header_json};
use doc_forms::{ToJson, list_to_json};
use machine_setup::{Input, Line};
use of10_match::{Match, Packet};
use serde_json::{Value, json};
use std::alloc::{AllocError, Global};

/// Applications, each a list that begins with its word.
struct PlanJson;

impl ToJson for PlanJson {
    type Of = Plan;

    ghost json = { plan_data };

    fn to_json(alloc: Global, plan: &Plan) -> Result<Value, AllocError> {
        match plan {
            Plan::Learning { idle } => json!(in alloc; ["learning", *idle]),
            Plan::Firewall { reinstall, rules } => {
                let rules = list_to_json::<MatchJson>(alloc, rules.as_slice())?;
                json!(in alloc; ["firewall", *reinstall, rules])
            }
            Plan::Routing { clear_on_down } => json!(in alloc; ["routing", *clear_on_down]),
        }
    }
}

/// The applications of controllers.
pub(crate) struct PlansJson;

impl ToJson for PlansJson {
    type Of = Plans;

    ghost json = { list_data plan_data };

    fn to_json(alloc: Global, plans: &Plans) -> Result<Value, AllocError> {
        list_to_json::<PlanJson>(alloc, plans.as_slice())
    }
}

/// A line that names one thing.
fn short_json(alloc: Global, mark: u8, word: &str, number: u32) -> Result<Value, AllocError>
    ensures { IfOk result (λ value. view value ≡ short_data mark word.now number) }
{
    json!(in alloc; [mark, word, number])
}

fn inject_json(alloc: Global, mark: u8, host: u16, packet: &Packet) -> Result<Value, AllocError>
    ensures { IfOk result (λ value. view value ≡ inject_data mark host packet.now) }
{
    let header = header_json(alloc, &packet.header)?;
    json!(in alloc; [mark, "inject", host, header, packet.tag])
}

fn move_json(alloc: Global, mark: u8, host: u16, s: u16, p: u16) -> Result<Value, AllocError>
    ensures { IfOk result (λ value. view value ≡ move_data mark host s p) }
{
    json!(in alloc; [mark, "hostmove", host, s, p])
}

fn policy_json(alloc: Global, mark: u8, c: u16, deny: &Match) -> Result<Value, AllocError>
    ensures { IfOk result (λ value. view value ≡ policy_data mark c deny.now) }
{
    let deny = MatchJson::to_json(alloc, deny)?;
    json!(in alloc; [mark, "policy", c, deny])
}

/// A line, by its mark and its input.
fn input_json(alloc: Global, mark: u8, input: &Input) -> Result<Value, AllocError>
    ensures { IfOk result (λ value. view value ≡ input_data mark input.now) }
{
    match input {
        Input::Inject { host, packet } => inject_json(alloc, mark, *host, packet),
        Input::LinkDown(link) => short_json(alloc, mark, "linkdown", u32::from(*link)),
        Input::LinkUp(link) => short_json(alloc, mark, "linkup", u32::from(*link)),
        Input::SwitchFail(s) => short_json(alloc, mark, "switchfail", u32::from(*s)),
        Input::SwitchUp(s) => short_json(alloc, mark, "switchup", u32::from(*s)),
        Input::ControlDown(s) => short_json(alloc, mark, "controldown", u32::from(*s)),
        Input::ControlUp(s) => short_json(alloc, mark, "controlup", u32::from(*s)),
        Input::HostMove { host, s, p } => move_json(alloc, mark, *host, *s, *p),
        Input::Policy { c, deny } => policy_json(alloc, mark, *c, deny),
        Input::Seconds(n) => short_json(alloc, mark, "seconds", *n),
    }
}

/// Lines of scripts, each a list: the mark, the word, and what it asks for.
pub(crate) struct LineJson;

impl ToJson for LineJson {
    type Of = Line;

    ghost json = { line_data };

    fn to_json(alloc: Global, line: &Line) -> Result<Value, AllocError> {
        input_json(alloc, u8::from(line.after_quiet), &line.input)
    }
}

/// One line of a script by itself, as compact JSON.
pub fn line_text(alloc: Global, line: &Line) -> Result<String, AllocError>
    ensures { IfOk result (λ text. string_bytes text ≡ compact_text (line_data line.now)) }
{
    LineJson::to_json(alloc, line)?.to_string(alloc)
}
