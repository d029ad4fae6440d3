//! What the process makes of its words and of a status.
ghost use Rattle.std.specs.Prelude.{◌≡◌, if◌then◌else◌, option_map};
ghost use Rattle.std.specs.Process.{exit_status};
ghost use Rattle.sts.specs.Edge.{help_of};

use std::process::ExitCode;
use sts_cli::Status;

/// What ends the program where its words can't be had: there was no memory for them, or one of them is no text.
pub(crate) fn without_words(is_memory: bool) -> Status
    ensures { result.code ≡ (if is_memory then 7 else 2) }
{
    if is_memory {
        Status::OUT_OF_MEMORY
    } else {
        Status::WORDS
    }
}

/// The line of help for a status: what it means where it writes nothing, or no more than a part.
pub(crate) fn help(status: Status) -> Option<&'static str>
    ensures { option_map (λ line. line.now) result ≡ help_of status.code }
{
    match status {
        Status::WORDS => Some(
            "usage:\n  sts find < SCENARIO     the log of a run, its verdicts and, where an invariant is violated, the inputs that are enough for it\n  sts record < SCENARIO   the log of a run\n  sts check < LOG         its invariants judged over every packet header\n  sts replay < LOG        its replay with all inputs\n  sts reduce < LOG        the inputs that are enough for the first invariant that is violated at its end\n  sts gen SEED SIZE       what a run of a made-up scenario comes to",
        ),
        Status::READ_FAULT => Some("reading standard input failed"),
        Status::WRITE_FAULT => Some("writing standard output failed"),
        Status::OUT_OF_MEMORY => Some("out of memory"),
        Status::TOO_LONG => Some("the input is longer than 16,777,216 bytes"),
        _ => None,
    }
}

/// The exit code of a status.
pub(crate) fn exit_code(status: Status) -> ExitCode
    ensures { exit_status result ≡ status.code }
{
    ExitCode::from(status.code)
}
