//! Laws of the definitions, each the contract of a function that does nothing.
ghost use Rattle.std.specs.Prelude.{ℕ, ◌<◌, ◌≤◌, ◌^◌, length, All};
ghost use Rattle.machine_setup.specs.Setup.{IsValidSetup};
ghost use Rattle.machine_setup.specs.declared.setup.Setup.{Setup};
ghost use Rattle.event_machine.specs.Holding.{IsEntryOf};
ghost use Rattle.event_machine.specs.Legal.{IsLegalRun};
ghost use Rattle.event_machine.specs.declared.trace.Entry.{Entry};
ghost use Rattle.event_machine.specs.declared.trace.Trace.{Trace};
ghost use Rattle.log_doc.specs.Written.{HasValidItem, IsWritableEntry};

/// An entry that a run of a setup can have can be written where it is one of the workers'; and the item that it has is valid.
pub fn what_a_run_holds_can_be_written<C: controller_api::Controller>()
    ensures entries { (setup : Setup C) (workers : ℕ) (entry : Entry)
        → IsValidSetup setup → IsEntryOf setup entry → entry.worker ≤ workers → workers < 2 ^ 32 → entry.number < 2 ^ 64
        → IsWritableEntry workers entry }
    ensures items { (setup : Setup C) (entry : Entry) → IsEntryOf setup entry → HasValidItem entry }
{}

/// A legal run has at most 16,384 entries. They can be written where each is one of the workers' and such as a run can have.
pub fn a_legal_run_can_be_written<C: controller_api::Controller>()
    ensures few { (setup : Setup C) (trace : Trace) → IsValidSetup setup → IsLegalRun C.react C.start setup trace → length trace.entries ≤ 16384 }
    ensures entries { (setup : Setup C) (workers : ℕ) (trace : Trace)
        → IsValidSetup setup → IsLegalRun C.react C.start setup trace → All (IsEntryOf setup) trace.entries
        → All (λ entry. entry.worker ≤ workers) trace.entries → workers < 2 ^ 32
        → All (IsWritableEntry workers) trace.entries }
    ensures items { (setup : Setup C) (trace : Trace) → All (IsEntryOf setup) trace.entries → All HasValidItem trace.entries }
{}
