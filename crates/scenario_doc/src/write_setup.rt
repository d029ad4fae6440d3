//! A scenario as it is written.
ghost use Rattle.std.specs.Prelude.{◌≡◌, ◌≤◌, All, IfOk, Ok, false, map};
ghost use Rattle.serde_json.specs.Data.{depth};
ghost use Rattle.serde_json.specs.View.{view};
ghost use Rattle.serde_json.specs.Written.{has_float};
ghost use Rattle.doc_forms.specs.Texts.{IsText};
ghost use Rattle.scenario_doc.specs.Draft.{draft_of};
ghost use Rattle.scenario_doc.specs.Scenario.{scenario_of};
ghost use Rattle.scenario_doc.specs.Written.{IsNarrowPlan, draft_data};
ghost use Rattle.scenario_doc.specs.WrittenScenario.{IsWritable, drafted, plan_of_app, plans_of_host, scenario_text};
ghost use Rattle.controller_host.specs.declared.app.App.TheVariants as app;

use crate::plans::{Plan, Plans};
use crate::scenario::Scenario;
use crate::write_draft::draft_json;
use controller_apps::Firewall;
use controller_host::{App, Host};
use doc_forms::json_bytes;
use listed::Listed;
use serde_json::Value;
use std::alloc::{AllocError, Global};

/// The bytes of the document that says what a scenario is, with no space between its words.
pub fn write_scenario(alloc: Global, scenario: &Scenario) -> Result<Vec<u8>, AllocError>
    ensures text { IfOk result (λ text. text.items ≡ scenario_text scenario.now) }
    ensures reads_back { IfOk result
        (λ text. IsWritable scenario.now → IsText scenario_of text.items scenario.now) }
{
    let value = scenario_json(alloc, scenario)?;
    json_bytes(alloc, &value)
}

/// The value of the document that says what a scenario is, for documents of which it is a part.
pub fn scenario_json(alloc: Global, scenario: &Scenario) -> Result<Value, AllocError>
    ensures json { IfOk result (λ value. view value ≡ draft_data (drafted scenario.now)) }
    ensures whole { IfOk result (λ _. has_float (draft_data (drafted scenario.now)) ≡ false) }
    ensures flat { IfOk result (λ _. depth (draft_data (drafted scenario.now)) ≤ 7) }
    ensures reads { IfOk result
        (λ _. IsWritable scenario.now → draft_of (draft_data (drafted scenario.now)) ≡ Ok (drafted scenario.now)) }
{
    let setup = &scenario.setup;
    let plans = plans_by(alloc, setup.controllers.as_slice())?;
    draft_json(
        alloc,
        &setup.topology,
        &setup.presets,
        &plans,
        &setup.script,
        &setup.limits,
        &scenario.invariants,
    )
}

/// What a document says of controllers.
fn plans_by(alloc: Global, hosts: &[Host]) -> Result<Listed<Plans>, AllocError>
    ensures plans { IfOk result (λ plans. plans ≡ map plans_of_host hosts.now) }
    ensures narrow { IfOk result (λ plans. All (All IsNarrowPlan) plans) }
{
    let mut plans = Listed::new(alloc);
    for host in hosts {
        plans.push(plans_of_host(alloc, host)?)?;
    }
    Ok(plans)
}

fn plans_of_host(alloc: Global, host: &Host) -> Result<Plans, AllocError>
    ensures plans { IfOk result (λ plans. plans ≡ plans_of_host host.now) }
    ensures narrow { IfOk result (λ plans. All IsNarrowPlan plans) }
{
    let mut plans = Listed::new(alloc);
    let apps = host.apps();
    for app in apps {
        plans.push(plan_of_app(alloc, app)?)?;
    }
    Ok(plans)
}

fn plan_of_app(alloc: Global, app: &App) -> Result<Plan, AllocError>
    ensures plan { IfOk result (λ plan. plan ≡ plan_of_app app.now) }
    ensures narrow { IfOk result IsNarrowPlan }
{
    match app {
        App::Learning(learning) => Ok(Plan::Learning {
            idle: learning.idle(),
        }),
        App::Firewall(wall) => firewall_plan(alloc, wall),
        App::Routing(routing) => Ok(Plan::Routing {
            clear_on_down: routing.clear_on_down(),
        }),
    }
}

fn firewall_plan(alloc: Global, wall: &Firewall) -> Result<Plan, AllocError>
    ensures plan { IfOk result (λ plan. plan ≡ plan_of_app (app.Firewall wall.now)) }
    ensures narrow { IfOk result IsNarrowPlan }
{
    let rules = Listed::of(wall.rules().to_vec(alloc)?);
    Ok(Plan::Firewall {
        reinstall: wall.reinstall(),
        rules,
    })
}
