//! Laws of the definitions, each the contract of a function that does nothing.
ghost use Rattle.std.specs.Prelude.{◌≡◌, ℕ, List};
ghost use Rattle.run_recorder.specs.AtOnce.{TellsByPasses};
ghost use Rattle.scenario_doc.specs.declared.scenario.Scenario.{Scenario};
ghost use Rattle.sts_cli.specs.Answer.{IsOfLog};
ghost use Rattle.sts_cli.specs.Finding.{IsFinding, IsMade};
ghost use Rattle.sts_cli.specs.declared.words.Job.{Job};

use causal_minimizer::laws::there_is_one_reduction;
use causal_replay::laws::there_is_one_replay;
use controller_host::Host;
use event_machine::laws::there_is_one_run_of_one_thread;
use invariant_check::laws::there_is_one_verdict;
use run_recorder::Gate;

/// The bytes of a log have one answer: what the program writes to a document, and with which status, is a function of its bytes, where
/// a log is asked for.
pub fn the_bytes_of_a_log_have_one_answer()
    ensures { (job : Job) (bytes : List ℕ) (code other : ℕ) (text more : List ℕ) → IsOfLog job bytes code text → IsOfLog job bytes other more
        → (code ≡ other) × (text ≡ more) }
{
    there_is_one_replay::<Host>();
    there_is_one_verdict();
    there_is_one_reduction::<Host>();
}

/// A log has one finding: what is found of a scenario by a run of it, and with which status, is a function of the scenario and of the log
/// of the run.
pub fn a_log_has_one_finding<G: Gate>()
    ensures { (old new : List G) (scenario : Scenario) (code other : ℕ) (text more : List ℕ)
        (one : IsFinding (λ setup entries. TellsByPasses G.passes setup old new entries) scenario code text)
        (two : IsFinding (λ setup entries. TellsByPasses G.passes setup old new entries) scenario other more)
        → one.log ≡ two.log → (code ≡ other) × (text ≡ more) }
{
    there_is_one_verdict();
    there_is_one_reduction::<Host>();
}

/// A made-up scenario has one summary: what is written, and with which status, is a function of the seed and the number of switches.
pub fn a_made_up_scenario_has_one_summary()
    ensures { (seed size : ℕ) (code other : ℕ) (text more : List ℕ) → IsMade seed size code text → IsMade seed size other more
        → (code ≡ other) × (text ≡ more) }
{
    there_is_one_run_of_one_thread::<Host>();
    there_is_one_verdict();
    there_is_one_reduction::<Host>();
}
