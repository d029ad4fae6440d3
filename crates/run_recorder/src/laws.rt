//! Laws of the definitions, each the contract of a function that does nothing.
ghost use Rattle.pool_book.specs.declared.actor.Actor.{Actor};
ghost use Rattle.run_recorder.specs.Answers.{HasActor, IsDue, IsLook, IsOffer};
ghost use Rattle.run_recorder.specs.Recording.{IsWorking, Working};
ghost use Rattle.run_recorder.specs.declared.answers.Offered.TheVariants.{Work};
ghost use Rattle.run_recorder.specs.declared.task.Deed.{Deed};
ghost use Rattle.run_recorder.specs.declared.task.Task.{Task};

use event_machine::laws::the_first_event_is_legal;

/// A task that was just offered to a part is due: its deed may be entered.
pub fn an_offer_is_due<C: controller_api::Controller>()
    ensures { (old new : Working C) (who : Actor) (task : Task) → HasActor old who → IsOffer C.react C.start old new who (Work task)
        → IsDue C.react C.start new (record { task = task }) }
{
    the_first_event_is_legal::<C>();
}

/// A deed that was offered stays due, whatever others enter, as long as its part only looks: so one that was overtaken may be tried
/// again.
pub fn a_look_keeps_a_deed_due<C: controller_api::Controller>()
    ensures { (old new : Working C) (deed : Deed) → IsWorking old → IsDue C.react C.start old deed → IsLook old new → IsDue C.react C.start new deed }
{}
