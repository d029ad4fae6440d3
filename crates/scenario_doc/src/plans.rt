//! The applications of controllers, as a document tells them.
ghost use Rattle.std.specs.Prelude.{◌≡◌, ◌≤◌, All, IfOk, Ok, length};
ghost use Rattle.serde_json.specs.View.{view};
ghost use Rattle.doc_forms.specs.Forms.{list};
ghost use Rattle.doc_forms.specs.Reading.{Gives};
ghost use Rattle.scenario_doc.specs.Packets.{match_of};
ghost use Rattle.scenario_doc.specs.Plans.{plan_by, plan_kind, plan_of};
ghost use Rattle.scenario_doc.specs.Ranges.{AreWidePlans, IsWideMatch, IsWidePlan};

use crate::packets::MatchForm;
use controller_apps::Rules;
use doc_forms::{DocFail, Form, Kind, counted, element, flag_at, kind_at, list, u16_at};
use listed::Listed;
use serde_json::Value;
use std::alloc::Global;

/// What a document says of an application.
#[derive(Debug, Drop)]
pub enum Plan {
    Learning { idle: u16 },
    Firewall { reinstall: bool, rules: Rules },
    Routing { clear_on_down: bool },
}

/// The applications of a controller.
pub type Plans = Listed<Plan>;

/// The words of applications.
#[derive(Clone, Copy)]
pub(crate) enum PlanKind {
    Learning,
    Firewall,
    Routing,
}

impl Kind for PlanKind {
    ghost of_word = { plan_kind };

    fn of_word(word: &str) -> Option<PlanKind> {
        match word {
            "learning" => Some(PlanKind::Learning),
            "firewall" => Some(PlanKind::Firewall),
            "routing" => Some(PlanKind::Routing),
            _ => None,
        }
    }
}

/// At most 64 matches.
struct RulesForm;

impl Form for RulesForm {
    type Read = Rules;

    ghost form = { list match_of 64 };

    ghost holds = { λ rules. (length rules ≤ 64) × All IsWideMatch rules };

    fn read(alloc: Global, value: &Value) -> Result<Rules, DocFail> {
        list::<MatchForm>(alloc, value, 64)
    }
}

fn plan_by(alloc: Global, kind: PlanKind, list: &Value) -> Result<Plan, DocFail>
    ensures read { Gives result (plan_by kind (view list.now)) }
    ensures wide { IfOk result IsWidePlan }
{
    match kind {
        PlanKind::Learning => {
            counted(alloc, list, 2)?;
            let idle = u16_at(alloc, list, 1)?;
            Ok(Plan::Learning { idle })
        }
        PlanKind::Firewall => {
            counted(alloc, list, 3)?;
            let reinstall = flag_at(alloc, list, 1)?;
            let rules = element::<RulesForm>(alloc, list, 2)?;
            Ok(Plan::Firewall { reinstall, rules })
        }
        PlanKind::Routing => {
            counted(alloc, list, 2)?;
            let clear_on_down = flag_at(alloc, list, 1)?;
            Ok(Plan::Routing { clear_on_down })
        }
    }
}

/// An application.
struct PlanForm;

impl Form for PlanForm {
    type Read = Plan;

    ghost form = { plan_of };

    ghost holds = { IsWidePlan };

    fn read(alloc: Global, value: &Value) -> Result<Plan, DocFail> {
        let kind = kind_at::<PlanKind>(alloc, value, 0)?;
        plan_by(alloc, kind, value)
    }
}

/// At most four applications.
pub(crate) struct PlansForm;

impl Form for PlansForm {
    type Read = Plans;

    ghost form = { list plan_of 4 };

    ghost holds = { AreWidePlans };

    fn read(alloc: Global, value: &Value) -> Result<Plans, DocFail> {
        list::<PlanForm>(alloc, value, 4)
    }
}
