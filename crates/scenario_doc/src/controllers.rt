//! The controllers that a scenario's applications make.
ghost use Rattle.std.specs.Prelude.{◌≡◌, ◌≤◌, All, IfOk, length, map};
ghost use Rattle.scenario_doc.specs.Applications.{app_of, host_by};
ghost use Rattle.scenario_doc.specs.Fit.{IsFitPlan};
ghost use Rattle.scenario_doc.specs.Scenario.{map_of};
ghost use Rattle.scenario_doc.specs.declared.plans.Plan.TheVariants as plan;

use crate::plans::{Plan, Plans};
use controller_apps::{Firewall, Learning};
use controller_host::{App, Apps, Host};
use listed::Listed;
use machine_setup::Controllers;
use route_app::{Map, Routing};
use std::alloc::{AllocError, Global};
use topology::Topology;

/// A controller for each list of applications, as it starts in a network.
pub(crate) fn hosts_by(
    alloc: Global,
    topology: &Topology,
    plans: Listed<Plans>,
) -> Result<Controllers<Host>, AllocError>
    requires { All (λ plans. (length plans ≤ 4) × All IsFitPlan plans) plans }
    ensures { IfOk result (λ hosts. hosts ≡ map (host_by (map_of topology.now)) plans) }
{
    let mut hosts = Listed::new(alloc);
    for apps in plans.into_vec() {
        hosts.push(host_by(alloc, topology, apps)?)?;
    }
    Ok(hosts)
}

fn host_by(alloc: Global, topology: &Topology, plans: Plans) -> Result<Host, AllocError>
    requires few { length plans ≤ 4 }
    requires fit { All IsFitPlan plans }
    ensures { IfOk result (λ host. host ≡ host_by (map_of topology.now) plans) }
{
    Ok(Host::new(alloc, apps_of(alloc, topology, plans)?))
}

fn apps_of(alloc: Global, topology: &Topology, plans: Plans) -> Result<Apps, AllocError>
    requires { All IsFitPlan plans }
    ensures { IfOk result (λ apps. apps ≡ map (app_of (map_of topology.now)) plans) }
{
    let mut apps = Listed::new(alloc);
    for plan in plans.into_vec() {
        apps.push(app_of(alloc, topology, plan)?)?;
    }
    Ok(apps)
}

fn app_of(alloc: Global, topology: &Topology, plan: Plan) -> Result<App, AllocError>
    requires { IsFitPlan plan }
    ensures { IfOk result (λ app. app ≡ app_of (map_of topology.now) plan) }
{
    match plan {
        Plan::Learning { idle } => Ok(App::Learning(Learning::new(alloc, idle))),
        Plan::Firewall { reinstall, rules } => {
            Ok(App::Firewall(Firewall::new(alloc, reinstall, rules)))
        }
        Plan::Routing { clear_on_down } => routing(alloc, topology, clear_on_down),
    }
}

fn routing(alloc: Global, topology: &Topology, clear_on_down: bool) -> Result<App, AllocError>
    ensures { IfOk result (λ app. app ≡ app_of (map_of topology.now) (plan.Routing clear_on_down)) }
{
    let map = Map::of(alloc, topology)?;
    Ok(App::Routing(Routing::new(alloc, clear_on_down, map)?))
}
