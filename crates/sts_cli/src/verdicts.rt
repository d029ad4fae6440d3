//! Verdicts in a world.
ghost use Rattle.std.specs.Prelude.{◌≡◌, ◌≤◌, All, IfOk, length};
ghost use Rattle.event_world.specs.Fits.{Fits};
ghost use Rattle.controller_host.specs.Hosting.{policies_of};
ghost use Rattle.invariant_check.specs.Network.{IsAsked};
ghost use Rattle.sts_cli.specs.Verdicts.{AreVerdicts, IsCheck, first_violated};

use crate::answer::Answer;
use crate::status::Status;
use controller_host::Host;
use event_world::World;
use invariant_check::Verdicts;
use invariant_check::judge::verdicts;
use invariant_check::laws::the_network_of_a_world_can_be_judged;
use report_text::verdict_lines;
use scenario_doc::Scenario;
use std::alloc::{AllocError, Global};

/// The verdicts on a scenario's invariants in a world.
pub(crate) fn verdicts_at(
    alloc: Global,
    scenario: &Scenario,
    world: &World<Host>,
) -> Result<Verdicts, AllocError>
    requires asked { All IsAsked scenario.now.invariants }
    requires fits { Fits policies_of scenario.now.setup world.now }
    ensures verdicts { IfOk result (λ verdicts. AreVerdicts scenario.now world.now verdicts) }
    ensures count { IfOk result (λ verdicts. length scenario.now.invariants ≡ length verdicts) }
{
    the_network_of_a_world_can_be_judged::<Host>();
    let network = world.network(&scenario.setup)?;
    verdicts(alloc, &network, scenario.invariants.as_slice())
}

/// The verdicts at the end of a run, and whether one is that an invariant is violated.
pub(crate) fn checked(
    alloc: Global,
    scenario: &Scenario,
    world: &World<Host>,
) -> Result<Answer, AllocError>
    requires asked { All IsAsked scenario.now.invariants }
    requires few { length scenario.now.invariants ≤ 32 }
    requires fits { Fits policies_of scenario.now.setup world.now }
    ensures { IfOk result (λ answer. IsCheck scenario.now world.now answer.status.code answer.text.items) }
{
    let verdicts = verdicts_at(alloc, scenario, world)?;
    let status = match first_violated(&verdicts) {
        Some(_) => Status::VIOLATED,
        None => Status::DONE,
    };
    let text = verdict_lines(alloc, scenario.invariants.as_slice(), &verdicts)?;
    Ok(Answer { status, text })
}

/// The place of the first invariant that is violated.
pub(crate) fn first_violated(verdicts: &Verdicts) -> Option<u32>
    requires { length verdicts.now ≤ 32 }
    ensures { result ≡ first_violated verdicts.now }
{
    let place = violated_place(verdicts)?;
    Some(place as u32)
}

fn violated_place(verdicts: &Verdicts) -> Option<usize>
    ensures { result ≡ first_violated verdicts.now }
{
    verdicts.iter().position(|verdict| verdict.is_violated())
}
