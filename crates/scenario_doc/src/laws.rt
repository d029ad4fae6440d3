//! Laws of the definitions, each the contract of a function that does nothing.
ghost use Rattle.std.specs.Prelude.{◌≡◌, Ok};
ghost use Rattle.scenario_doc.specs.Fit.{IsFit};
ghost use Rattle.scenario_doc.specs.Ranges.{IsWideDraft};
ghost use Rattle.scenario_doc.specs.Rules.{draft_rules};
ghost use Rattle.scenario_doc.specs.Scenario.{made};
ghost use Rattle.scenario_doc.specs.WrittenScenario.{IsWritable};
ghost use Rattle.scenario_doc.specs.declared.draft.Draft.{Draft};

/// A scenario that was read and keeps all rules can run, and all that it names is there.
pub fn a_draft_that_keeps_its_rules_fits()
    ensures { (draft : Draft) → IsWideDraft draft → draft_rules draft ≡ Ok tt → IsFit draft }
{}

/// A scenario that was read and keeps all rules can be written, and its controllers stand as they start.
pub fn a_draft_that_keeps_its_rules_can_be_written()
    ensures { (draft : Draft) → IsWideDraft draft → draft_rules draft ≡ Ok tt → IsWritable (made draft) }
{}
