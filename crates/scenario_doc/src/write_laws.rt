//! What is written for a scenario reads as it: a law of the definitions, the contract of a function that does nothing.
ghost use Rattle.scenario_doc.specs.Written.{ReadsBack};

/// The data that stands for a scenario reads as it.
pub fn reads_back()
    ensures { ReadsBack }
{}
