//! Laws of replays, each the contract of a function that does nothing.
ghost use Rattle.std.specs.Prelude.{◌≡◌, ℕ, List, [], length, take, All, Bool, true};
ghost use Rattle.machine_setup.specs.declared.setup.Setup.{Setup};
ghost use Rattle.event_world.specs.World.{Situation};
ghost use Rattle.event_machine.specs.Legal.{IsLegalRun, world_after, world_before};
ghost use Rattle.event_machine.specs.declared.trace.Entry.{Entry};
ghost use Rattle.event_machine.specs.declared.trace.Trace.{Trace};
ghost use Rattle.causal_replay.specs.Replay.{IsReplay, own_steps, world_at};
ghost use Rattle.causal_replay.specs.Steps.{AreLegalSteps};
ghost use Rattle.causal_replay.specs.declared.replayed.Taken.{Taken};

/// Entries have at most one replay for each choice of lines: the run, the absent entries and the world at the end are determined.
pub fn there_is_one_replay<C: controller_api::Controller>()
    ensures { (setup : Setup C) (entries : List Entry) (keep : List Bool) (run other_run : List Taken) (absent other_absent : List ℕ) (world other_world : Situation C)
        → IsReplay C.react C.start setup entries keep run absent world → IsReplay C.react C.start setup entries keep other_run other_absent other_world
        → (run ≡ other_run) × (absent ≡ other_absent) × (world ≡ other_world) }
{}

/// Where every line is kept, the replay of a legal run is the run itself: each event is an input or is expected by its own entry,
/// none is extra and none is absent, and the world is the same after each.
pub fn whole_replay_gives_the_run<C: controller_api::Controller>()
    ensures run { (setup : Setup C) (trace : Trace) (keep : List Bool) (run : List Taken) (absent : List ℕ) (world : Situation C)
        → IsLegalRun C.react C.start setup trace → All (λ kept. kept ≡ true) keep → IsReplay C.react C.start setup trace.entries keep run absent world
        → (run ≡ own_steps trace.entries) × (absent ≡ []) }
    ensures worlds { (setup : Setup C) (trace : Trace) (keep : List Bool) (run : List Taken) (absent : List ℕ) (world : Situation C)
        → IsLegalRun C.react C.start setup trace → All (λ kept. kept ≡ true) keep → IsReplay C.react C.start setup trace.entries keep run absent world
        → (at : ℕ) → world_at C.react C.start setup (take at run) ≡ world_before C.react C.start setup trace.entries at }
{}

/// A legal run has a whole replay: where every line is kept, its own events are one, with none absent, and it comes to the run's
/// own world.
pub fn a_legal_run_replays_whole<C: controller_api::Controller>()
    ensures { (setup : Setup C) (trace : Trace) (keep : List Bool)
        → IsLegalRun C.react C.start setup trace → length keep ≡ length setup.script → All (λ kept. kept ≡ true) keep
        → IsReplay C.react C.start setup trace.entries keep (own_steps trace.entries) [] (world_after C.react C.start setup trace) }
{}

/// A replay of a legal run takes legal steps, whichever lines are kept: each event can happen where the earlier ones lead, and the
/// inputs come in the order of the script, each once at most.
pub fn a_replay_takes_legal_steps<C: controller_api::Controller>()
    ensures { (setup : Setup C) (trace : Trace) (keep : List Bool) (run : List Taken) (absent : List ℕ) (world : Situation C)
        → IsLegalRun C.react C.start setup trace → IsReplay C.react C.start setup trace.entries keep run absent world
        → AreLegalSteps C.react C.start setup run }
{}
