//! Workers that record at once, each in a thread of its own where it can have one.
ghost use Rattle.std.specs.Prelude.{◌≡◌, ◌≤◌, All, IfOk, length};
ghost use Rattle.std.specs.Thread.{IsSend, IsSync};
ghost use Rattle.machine_setup.specs.Setup.{IsValidSetup};
ghost use Rattle.event_world.specs.Fits.{Fits};
ghost use Rattle.event_machine.specs.Holding.{IsEntryOf};
ghost use Rattle.event_machine.specs.Legal.{IsLegalRun, world_after};
ghost use Rattle.event_machine.specs.Rule.{IsOneThreadRun};
ghost use Rattle.paired_work.specs.Worked.{CanWork, HasWorked, HaveWorked};
ghost use Rattle.run_recorder.specs.Answers.{AreDealt, AreParts, IsPartOf, RestComesLast};
ghost use Rattle.run_recorder.specs.AtOnce.{AreAway, AreStints, CameBack, HasServed, TellsByPasses};
ghost use Rattle.run_recorder.specs.Recorder.{recorded};
ghost use Rattle.run_recorder.specs.Rest.{RestIsRuled};

use crate::drive::Left;
use crate::gate::Gate;
use crate::part::{Part, Parts};
use crate::recorder::Recorder;
use controller_api::Controller;
use event_machine::{Setup, Trace};
use event_world::World;
use listed::Listed;
use paired_work::work_all;
use std::alloc::{AllocError, Global};
use std::thread::Threads;

/// A run that was recorded, and the world at its end.
#[derive(Drop)]
pub struct Recorded<C> {
    pub trace: Trace,
    pub world: World<C>,
}

/// Records a run of a setup, by as many workers as the setup says, at once. Worker i has the gate at index i - 1. Once all workers have
/// left, the run is completed by the rule of one thread, as worker 0.
pub fn record<R: Threads + Sync, C: Controller, G: Gate>(
    rt: &R,
    alloc: Global,
    setup: &Setup<C>,
    gates: &mut [G],
) -> Result<Trace, AllocError>
    requires setup { IsValidSetup setup.now }
    requires gates { setup.now.limits.workers ≤ length gates.old }
    ensures legal { IfOk result (λ trace. IsLegalRun C.react C.start setup.now trace) }
    ensures dealt { IfOk result (λ trace. AreDealt setup.now setup.now.limits.workers trace.entries) }
    ensures last { IfOk result (λ trace. RestComesLast trace.entries) }
    ensures ruled { IfOk result (λ trace. RestIsRuled C.react C.start setup.now trace.entries) }
    ensures passes { IfOk result (λ trace. TellsByPasses G.passes setup.now gates.old gates.new trace.entries) }
    ensures holding { IfOk result (λ trace. All (IsEntryOf setup.now) trace.entries) }
    ensures alone { IfOk result (λ trace. setup.now.limits.patience ≡ 0 → IsOneThreadRun C.react C.start setup.now trace) }
{
    let recorded = record_to_end(rt, alloc, setup, gates)?;
    Ok(recorded.trace)
}

/// Records a run as `record` does, and gives the world at its end too.
pub fn record_to_end<R: Threads + Sync, C: Controller, G: Gate>(
    rt: &R,
    alloc: Global,
    setup: &Setup<C>,
    gates: &mut [G],
) -> Result<Recorded<C>, AllocError>
    requires setup { IsValidSetup setup.now }
    requires gates { setup.now.limits.workers ≤ length gates.old }
    ensures legal { IfOk result (λ r. IsLegalRun C.react C.start setup.now r.trace) }
    ensures dealt { IfOk result (λ r. AreDealt setup.now setup.now.limits.workers r.trace.entries) }
    ensures last { IfOk result (λ r. RestComesLast r.trace.entries) }
    ensures ruled { IfOk result (λ r. RestIsRuled C.react C.start setup.now r.trace.entries) }
    ensures passes { IfOk result (λ r. TellsByPasses G.passes setup.now gates.old gates.new r.trace.entries) }
    ensures holding { IfOk result (λ r. All (IsEntryOf setup.now) r.trace.entries) }
    ensures alone { IfOk result (λ r. setup.now.limits.patience ≡ 0 → IsOneThreadRun C.react C.start setup.now r.trace) }
    ensures world { IfOk result (λ r. r.world ≡ world_after C.react C.start setup.now r.trace) }
    ensures fits { IfOk result (λ r. Fits C.policies setup.now r.world) }
{
    let workers = setup.limits.workers;
    let (recorder, parts) = Recorder::open(alloc, setup, workers)?;
    let parts = served(rt, alloc, &recorder, parts, &mut gates[..workers as usize])?;
    let (trace, world) = recorder.rest(parts)?;
    Ok(Recorded { trace, world })
}

// All workers go round at once, each with its own gate, until they have left. Worker 0 does not.
fn served<'a, R: Threads + Sync, C: Controller, G: Gate>(
    rt: &R,
    alloc: Global,
    recorder: &Recorder<'a, C>,
    parts: Parts<'a, C>,
    gates: &mut [G],
) -> Result<Parts<'a, C>, AllocError>
    requires parts { AreParts (recorded recorder.now) parts }
    requires gates { length gates.old ≡ (recorded recorder.now).workers }
    ensures parts { IfOk result (λ after. AreParts (recorded recorder.now) after) }
    ensures served { IfOk result (λ after. AreAway C.react C.start G.passes gates.old gates.new parts.entry after) }
{
    let mut parts = parts.into_vec();
    let idle = parts.remove(0);
    let stints = stints(alloc, recorder, parts)?;
    let stints = serve_all(rt, stints, gates);
    let mut parts = back(alloc, stints)?;
    parts.insert(0, idle)?;
    Ok(Listed::of(parts))
}

// A worker at its part of a recorder, and why it left, once it has.
#[derive(Drop)]
pub(crate) struct Stint<'r, 'a, C: Controller> {
    recorder: &'r Recorder<'a, C>,
    part: Part<'a, C>,
    left: Option<Left>,
}

impl<'r, 'a, C: Controller> Stint<'r, 'a, C> {
    // The worker goes round until it leaves.
    fn serve<G: Gate>(&mut self, gate: &mut G)
        requires { IsPartOf (recorded self.old.recorder.now) self.old.part }
        ensures { HasServed C.react C.start (G.passes gate.old) (G.passes gate.new) self.old self.new }
    {
        self.left = Some(self.recorder.drive(&mut self.part, gate));
    }
}

// A stint at each part.
fn stints<'r, 'a, C: Controller>(
    alloc: Global,
    recorder: &'r Recorder<'a, C>,
    parts: Vec<Part<'a, C>>,
) -> Result<Vec<Stint<'r, 'a, C>>, AllocError>
    ensures { IfOk result (λ stints. AreStints recorder.now parts.entry.items stints.items) }
{
    let mut stints = Vec::new(alloc);
    for part in parts {
        stints.push(Stint {
            recorder,
            part,
            left: None,
        })?;
    }
    Ok(stints)
}

// All stints at once.
fn serve_all<'r, 'a, R: Threads + Sync, C: Controller, G: Gate>(
    rt: &R,
    stints: Vec<Stint<'r, 'a, C>>,
    gates: &mut [G],
) -> Vec<Stint<'r, 'a, C>>
    requires count { length stints.items ≡ length gates.old }
    requires parts { All (λ stint. IsPartOf (recorded stint.recorder.now) stint.part) stints.items }
    ensures { HaveWorked (λ old new before now. HasServed C.react C.start (G.passes before) (G.passes now) old new) stints.entry.items result.items gates.old gates.new }
{
    worked(
        rt,
        &|stint: &mut Stint<'_, '_, C>, gate: &mut G|
            requires { IsSend C.row × IsSync C.row × IsSend G.row × IsPartOf (recorded stint.old.recorder.now) stint.old.part }
            ensures { HasServed C.react C.start (G.passes gate.old) (G.passes gate.new) stint.old stint.new }
        { stint.serve(gate) },
        stints,
        gates,
    )
}

// The works of a vector, once each was done with its partner. It is written for works of any kind: what a slice of a vector was left as
// is not known where the elements' type names a lifetime, as a stint's does.
fn worked<R: Threads + Sync, W: Send, P: Send, F: Fn(&mut W, &mut P) + Sync>(
    rt: &R,
    work: &F,
    works: Vec<W>,
    partners: &mut [P],
) -> Vec<W>
    requires count { length works.items ≡ length partners.old }
    requires can { All (CanWork F.Fn work.now) works.items }
    ensures { HaveWorked (HasWorked F.Fn work.now) works.items result.items partners.old partners.new }
{
    let mut works = works;
    work_all(rt, work, &mut works, partners);
    works
}

// The parts, unless a worker left for want of memory.
fn back<'r, 'a, C: Controller>(
    alloc: Global,
    stints: Vec<Stint<'r, 'a, C>>,
) -> Result<Vec<Part<'a, C>>, AllocError>
    ensures { IfOk result (λ parts. CameBack stints.entry.items parts.items) }
{
    let mut parts = Vec::new(alloc);
    for stint in stints {
        if stint.left == Some(Left::OutOfMemory) {
            return Err(AllocError);
        }
        parts.push(stint.part)?;
    }
    Ok(parts)
}
