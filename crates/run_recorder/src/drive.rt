//! How a worker goes round its actors.
ghost use Rattle.std.specs.Prelude.{◌≡◌};
ghost use Rattle.run_recorder.specs.Answers.{HasActor, IsDue, IsPartOf};
ghost use Rattle.run_recorder.specs.Driving.{AfterRound, HasLeft, IsErrand, IsSameWorker};
ghost use Rattle.run_recorder.specs.Recorder.{recorded};

use crate::answers::{Committed, Offered};
use crate::gate::Gate;
use crate::laws::an_offer_is_due;
use crate::part::Part;
use crate::recorder::Recorder;
use crate::task::Deed;
use controller_api::Controller;
use event_world::Actor;

/// Why a worker left.
#[derive(Clone, Copy, Debug, PartialEq, Eq)]
pub enum Left {
    /// Its part has no actor.
    NoActor,
    /// The run is complete, with so many entries.
    Ended { place: u64 },
    /// It made as many rounds in succession that entered nothing as the setup's patience says.
    Tired,
    /// There was no memory for an event. What it entered before stands.
    OutOfMemory,
}

// What a worker is about in its next round: to ask what an actor may do, or to enter what another worker's turn kept it from entering.
#[derive(Clone, Copy, Debug, PartialEq, Eq)]
pub(crate) enum Errand {
    Ask(Actor),
    Enter(Deed),
}

// What a round came to: an event was entered or none was, and what the worker is about next; or the worker leaves.
#[derive(Clone, Copy, Debug, PartialEq, Eq)]
pub(crate) enum Round {
    Entered(Errand),
    Vain(Errand),
    Ended(u64),
    OutOfMemory,
}

impl<'a, C: Controller> Recorder<'a, C> {
    /// A worker goes round its part's actors, and enters what they may do, until it leaves. It passes its gate before each round, outside
    /// the turn.
    pub fn drive<G: Gate>(&self, part: &mut Part<'a, C>, gate: &mut G) -> Left
        requires part { IsPartOf (recorded self.now) part.old }
        ensures part { IsPartOf (recorded self.now) part.new }
        ensures same { IsSameWorker part.old part.new }
        ensures left { HasLeft C.react C.start (G.passes gate.old) (G.passes gate.new) part.old part.new result }
    {
        let Some(first) = part.first_actor() else {
            return Left::NoActor;
        };
        let patience = self.setup.limits.patience;
        let mut errand = Errand::Ask(first);
        let mut made = 0;
        let mut vain = 0;
        while vain < patience {
            gate.pass(part.worker(), made);
            made = u64::saturating_add(made, 1);
            match self.round(part, errand) {
                Round::Entered(next) => {
                    part.known();
                    errand = next;
                    vain = 0;
                }
                Round::Vain(next) => {
                    errand = next;
                    vain += 1;
                }
                Round::Ended(place) => return Left::Ended { place },
                Round::OutOfMemory => return Left::OutOfMemory,
            }
        }
        Left::Tired
    }

    // One round.
    fn round(&self, part: &mut Part<'a, C>, errand: Errand) -> Round
        requires part { IsPartOf (recorded self.now) part.old }
        requires errand { IsErrand C.react C.start part.old errand }
        ensures part { IsPartOf (recorded self.now) part.new }
        ensures same { IsSameWorker part.old part.new }
        ensures round { AfterRound C.react C.start part.old part.new result }
    {
        match errand {
            Errand::Ask(actor) => self.ask(part, actor),
            Errand::Enter(deed) => self.enter(part, deed),
        }
    }

    // A round that begins with an offer: where there is work, it is done and entered.
    fn ask(&self, part: &mut Part<'a, C>, actor: Actor) -> Round
        requires part { IsPartOf (recorded self.now) part.old }
        requires has { HasActor part.old actor }
        ensures part { IsPartOf (recorded self.now) part.new }
        ensures same { IsSameWorker part.old part.new }
        ensures round { AfterRound C.react C.start part.old part.new result }
    {
        an_offer_is_due::<C>();
        match self.offer(part, actor) {
            Offered::Work(task) => self.enter(part, task.work()),
            Offered::NothingNow { .. } => Round::Vain(Errand::Ask(part.actor_after(actor))),
            Offered::Ended { place } => Round::Ended(place),
            Offered::Busy { .. } => Round::Vain(Errand::Ask(actor)),
        }
    }

    // A round, or the end of one, in which a deed is entered. Where another worker had the turn, the next round is about the same deed;
    // an overtaken deed is given up.
    fn enter(&self, part: &mut Part<'a, C>, deed: Deed) -> Round
        requires part { IsPartOf (recorded self.now) part.old }
        requires due { IsDue C.react C.start part.old deed }
        ensures part { IsPartOf (recorded self.now) part.new }
        ensures same { IsSameWorker part.old part.new }
        ensures round { AfterRound C.react C.start part.old part.new result }
    {
        part.known();
        let actor = deed.task.event.actor();
        match self.commit(part, deed) {
            Committed::Entered { .. } => Round::Entered(Errand::Ask(actor)),
            Committed::Overtaken { .. } => Round::Vain(Errand::Ask(actor)),
            Committed::Ended { place, .. } => Round::Ended(place),
            Committed::Busy { deed, .. } => Round::Vain(Errand::Enter(deed)),
            Committed::OutOfMemory { .. } => Round::OutOfMemory,
        }
    }
}
