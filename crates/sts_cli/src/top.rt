//! The top call.
ghost use Rattle.std.specs.Prelude.{◌≡◌, ◌≢◌, ◌+◌, ◌≤◌, ◌↔◌, ◌⊎◌, IfOk, IsOk, IsErrOf, Err, length};
ghost use Rattle.sts_io.specs.Causes.{Rose};
ghost use Rattle.sts_io.specs.declared.reading.ReadFail.TheVariants as ReadFail;
ghost use Rattle.sts_io.specs.Taken.{TakesAtMost, TakesCount};
ghost use Rattle.run_recorder.specs.AtOnce.{TellsByPasses};
ghost use Rattle.sts_cli.specs.Answer.{IsAnswer};
ghost use Rattle.sts_cli.specs.Ends.{IsAnswered, IsCutOff, IsRead, IsSilent, IsTold};
ghost use Rattle.sts_cli.specs.Words.{AskForMade, AskForRun, HasRange, IsForm, IsMadeUp, IsRunOf};

use crate::answer::{Answer, of_log, of_scenario};
use crate::made::made;
use crate::status::Status;
use crate::words::{Form, form_of};
use run_recorder::Gate;
use std::alloc::{AllocError, Global};
use std::thread::Threads;
use sts_io::{ReadFail, Sink, Source, read_all, write_all_bytes};

// The most bytes that a document may have.
const LIMIT: u64 = 16_777_216;

/// Runs the program: reads the source to its end, and writes the answer to the sink. The words are those after the
/// program's name: `find`, `record`, `check`, `replay`, `reduce` or `gen SEED SIZE`, which reads nothing. Workers that record pass the
/// gates, worker i that at index i - 1.
pub fn sts<R: Threads + Sync, S: Source, K: Sink, G: Gate>(
    rt: &R,
    alloc: Global,
    words: &[String],
    source: &mut S,
    sink: &mut K,
    gates: &mut [G],
) -> Status
    requires { length gates.old ≡ 8 }

    // The words decide first: where they are no form, nothing is read.
    ensures form { (result.code ≡ 2) ↔ ¬ IsForm words.now }
    ensures unread { result.code ≡ 2 → source.new ≡ source.old }

    // Reading.
    ensures read_fault { result.code ≡ 5 → Rose (S.faults source.old) (S.faults source.new) }
    ensures too_long { result.code ≡ 8 → TakesCount (16777216 + 1) (S.left source.old) (S.left source.new) }
    ensures within { result.code ≢ 8 → TakesAtMost 16777216 (S.left source.old) (S.left source.new) }
    ensures no_read_fault { result.code ≢ 5 → S.faults source.new ≡ S.faults source.old }

    // Answering: the whole text is written.
    ensures answered { IsTold result.code → IsAnswered (λ setup entries. TellsByPasses G.passes setup gates.old gates.new entries) words.now
        (S.left source.old) (S.left source.new) (K.taken sink.old) (K.taken sink.new) result.code }

    // Writing: after a fault a part of the text was taken.
    ensures write_fault { result.code ≡ 6 → Rose (K.faults sink.old) (K.faults sink.new) }
    ensures no_write_fault { result.code ≢ 6 → K.faults sink.new ≡ K.faults sink.old }
    ensures cut_off { result.code ≡ 6 → IsCutOff (λ setup entries. TellsByPasses G.passes setup gates.old gates.new entries) words.now
        (S.left source.old) (S.left source.new) (K.taken sink.old) (K.taken sink.new) }

    // Every other status writes nothing, and there is no other.
    ensures silent { IsSilent result.code → sink.new ≡ sink.old }
    ensures known { IsTold result.code ⊎ ((result.code ≡ 6) ⊎ IsSilent result.code) }

    // A made-up scenario needs no source.
    ensures made { AskForMade words.now → (source.new ≡ source.old) × (result.code ≢ 5) × (result.code ≢ 8) }

    // Nobody passes a gate but where a run is recorded.
    ensures gates { (¬ AskForRun words.now) → gates.new ≡ gates.old }

    // Counts of faults never fall.
    ensures source_later { S.faults source.old ≤ S.faults source.new }
    ensures sink_later { K.faults sink.old ≤ K.faults sink.new }
{
    let Some(form) = form_of(words) else {
        return Status::WORDS;
    };
    let bytes = match input(alloc, form, source) {
        Ok(bytes) => bytes,
        Err(ReadFail::Fault) => return Status::READ_FAULT,
        Err(ReadFail::TooLong) => return Status::TOO_LONG,
        Err(ReadFail::OutOfMemory) => return Status::OUT_OF_MEMORY,
    };
    let Ok(answer) = answer_to(rt, alloc, form, bytes.as_slice(), gates) else {
        return Status::OUT_OF_MEMORY;
    };
    match write_all_bytes(sink, answer.text.as_slice()) {
        Ok(()) => answer.status,
        Err(_) => Status::WRITE_FAULT,
    }
}

// What the source gives for a form: all its bytes, or none where a scenario is made up.
fn input<S: Source>(alloc: Global, form: Form, source: &mut S) -> Result<Vec<u8>, ReadFail>
    ensures read { IfOk result (λ bytes. IsRead form (S.left source.old) (S.left source.new) bytes.items) }
    ensures within { result ≢ Err ReadFail.TooLong → TakesAtMost 16777216 (S.left source.old) (S.left source.new) }
    ensures too_long { IsErrOf result ReadFail.TooLong → TakesCount (16777216 + 1) (S.left source.old) (S.left source.new) }
    ensures later { S.faults source.old ≤ S.faults source.new }
    ensures fault { IsErrOf result ReadFail.Fault → Rose (S.faults source.old) (S.faults source.new) }
    ensures no_fault { result ≢ Err ReadFail.Fault → S.faults source.new ≡ S.faults source.old }
    ensures made { IsMadeUp form → (source.new ≡ source.old) × IsOk result }
{
    match form {
        Form::Gen { .. } => Ok(Vec::new(alloc)),
        Form::OfScenario(_) | Form::OfLog(_) => read_all(alloc, source, LIMIT),
    }
}

// The answer to what a form asks of some bytes.
fn answer_to<R: Threads + Sync, G: Gate>(
    rt: &R,
    alloc: Global,
    form: Form,
    bytes: &[u8],
    gates: &mut [G],
) -> Result<Answer, AllocError>
    requires gates { length gates.old ≡ 8 }
    requires range { HasRange form }
    ensures answer { IfOk result (λ answer. IsAnswer (λ setup entries. TellsByPasses G.passes setup gates.old gates.new entries) form bytes.now answer.status.code answer.text.items) }
    ensures told { IfOk result (λ answer. IsTold answer.status.code) }
    ensures idle { (¬ IsRunOf form) → gates.new ≡ gates.old }
{
    match form {
        Form::OfScenario(aim) => of_scenario(rt, alloc, aim, bytes, gates),
        Form::OfLog(job) => of_log(alloc, job, bytes),
        Form::Gen { seed, size } => made(rt, alloc, seed, size),
    }
}
