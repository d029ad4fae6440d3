//! Laws of the definitions, each the contract of a function that does nothing.
ghost use Rattle.std.specs.Prelude.{◌≡◌, ◌≢◌, ℕ, ◌<◌, ◌≤◌, List, [], ◌∷◌, ◌++◌, length, drop, slice_get, Option, Some};
ghost use Rattle.machine_setup.specs.Setup.{IsValidSetup};
ghost use Rattle.machine_setup.specs.declared.setup.Setup.{Setup};
ghost use Rattle.message_pools.specs.declared.item.Item.{Item};
ghost use Rattle.pool_book.specs.declared.actor.Actor.{Actor};
ghost use Rattle.pool_book.specs.declared.actor.Actor.TheVariants.{Controller, Script, Switch};
ghost use Rattle.switch_core.specs.declared.state.State.{State};
ghost use Rattle.event_world.specs.Answers.{first_event_of, next_line};
ghost use Rattle.event_world.specs.Events.{actor_of};
ghost use Rattle.event_world.specs.Fits.{Fits};
ghost use Rattle.event_world.specs.World.{Situation, next, start};
ghost use Rattle.event_world.specs.declared.event.Event.{Event};
ghost use Rattle.event_machine.specs.Actors.{IsLastBeginning, all_taken_by, controller_through, switch_through};
ghost use Rattle.event_machine.specs.Legal.{IsDone, IsLegalEvent, IsLegalIn, IsNextOfWorker, IsSoundTo, TakeHeads, world_before};
ghost use Rattle.event_machine.specs.Rule.{IsOneThreadRun, rule_event};
ghost use Rattle.event_machine.specs.declared.trace.Entry.{Entry};
ghost use Rattle.event_machine.specs.declared.trace.Trace.{Trace};

/// A history whose entries are all sound, as one without entries is, goes on by an entry that may stand next and has its
/// worker's next number: it stays sound, and comes to the next world. What came before an entry stays as it was.
pub fn a_history_goes_on_by_a_legal_entry<C: controller_api::Controller>()
    ensures nothing { (setup : Setup C) → IsSoundTo C.react C.start setup [] 0 × (world_before C.react C.start setup [] 0 ≡ start C.start setup) }
    ensures sound { (setup : Setup C) (entries : List Entry) (entry : Entry)
        → IsSoundTo C.react C.start setup entries (length entries)
        → IsLegalIn setup (world_before C.react C.start setup entries (length entries)) (length entries) entry
        → IsNextOfWorker entries (length entries) entry
        → IsSoundTo C.react C.start setup (entries ++ entry ∷ []) (length (entries ++ entry ∷ [])) }
    ensures world { (setup : Setup C) (entries : List Entry) (entry : Entry)
        → world_before C.react C.start setup (entries ++ entry ∷ []) (length (entries ++ entry ∷ []))
        ≡ next C.react setup (world_before C.react C.start setup entries (length entries)) entry.event }
    ensures events { (setup : Setup C) (entries : List Entry)
        → (world_before C.react C.start setup entries (length entries)).shared.events ≡ length entries }
    ensures front { (setup : Setup C) (entries more : List Entry)
        → world_before C.react C.start setup (entries ++ more) (length entries) ≡ world_before C.react C.start setup entries (length entries) }
{}

/// The script's next line stays due as long as the script gives no input. Where the line is marked nothing waits, so nothing
/// else can happen before it.
pub fn a_line_stays_due<C: controller_api::Controller>()
    ensures { (setup : Setup C) (entries : List Entry) (from : ℕ) (event : Event)
        → IsSoundTo C.react C.start setup entries (length entries) → from ≤ length entries
        → next_line setup.script (world_before C.react C.start setup entries from).shared ≡ Some event
        → ((at : ℕ) (entry : Entry) → from ≤ at → slice_get entries at ≡ Some entry → actor_of entry.event ≢ Script)
        → next_line setup.script (world_before C.react C.start setup entries (length entries)).shared ≡ Some event }
{}

/// In a sound history there were no more inputs than the script has lines.
pub fn inputs_are_lines<C: controller_api::Controller>()
    ensures { (setup : Setup C) (entries : List Entry) → IsSoundTo C.react C.start setup entries (length entries)
        → (world_before C.react C.start setup entries (length entries)).shared.inputs ≤ length setup.script }
{}

/// In a world that fits its setup, the first event of an actor has what its event asks of an entry: no item where it is an input,
/// and else the first item of its pool. It is the actor's own. The limit of events is asked apart.
pub fn the_first_event_is_legal<C: controller_api::Controller>()
    ensures legal { (setup : Setup C) (world : Situation C) (who : Actor) (event : Event)
        → Fits C.policies setup world → first_event_of setup world.shared who ≡ Some event
        → (item : Option Item) × IsLegalEvent setup world event item }
    ensures actor { (setup : Setup C) (world : Situation C) (who : Actor) (event : Event)
        → first_event_of setup world.shared who ≡ Some event → actor_of event ≡ who }
{}

/// In a world that fits its setup, that had no more inputs than the script has lines, and that is not done, the rule of one thread
/// gives a next event, with what that event asks of an entry. The limit of events is asked apart.
pub fn the_rule_goes_on<C: controller_api::Controller>()
    ensures { (setup : Setup C) (world : Situation C)
        → Fits C.policies setup world → ¬ IsDone setup world → world.shared.inputs ≤ length setup.script
        → (event : Event) × (item : Option Item) × (rule_event setup world.shared ≡ Some event) × IsLegalEvent setup world event item }
{}

/// A setup has at most one run of one thread.
pub fn there_is_one_run_of_one_thread<C: controller_api::Controller>()
    ensures { (setup : Setup C) (one other : Trace)
        → IsOneThreadRun C.react C.start setup one → IsOneThreadRun C.react C.start setup other → one ≡ other }
{}

/// A switch has come to what the items make of it that it took itself since it last lost its state, or since the start: since
/// then no entry of another actor has changed it. Such a beginning there always is.
pub fn a_switch_is_made_by_its_own_entries<C: controller_api::Controller>()
    ensures state { (setup : Setup C) (entries : List Entry) (s from : ℕ) (state : State)
        → IsValidSetup setup → TakeHeads C.react C.start setup entries → s < length setup.topology.ports
        → IsLastBeginning C.react C.start setup entries s from state
        → slice_get (world_before C.react C.start setup entries (length entries)).switches s
        ≡ Some (switch_through (all_taken_by (Switch s) (drop from entries)) state) }
    ensures beginning { (setup : Setup C) (entries : List Entry) (s : ℕ)
        → IsValidSetup setup → s < length setup.topology.ports
        → (from : ℕ) × (state : State) × IsLastBeginning C.react C.start setup entries s from state }
{}

/// A controller has come to what the items make of it that it took itself since the start.
pub fn a_controller_is_made_by_its_own_entries<C: controller_api::Controller>()
    ensures { (setup : Setup C) (entries : List Entry) (c : ℕ) (controller : C)
        → TakeHeads C.react C.start setup entries → slice_get setup.controllers c ≡ Some controller
        → slice_get (world_before C.react C.start setup entries (length entries)).controllers c
        ≡ Some (controller_through C.react (all_taken_by (Controller c) entries) (C.start controller)) }
{}
