//! The program on a document, in memory.
use crate::meeting::{Meeting, meetings};
use log_doc::read_log;
use run_recorder::Gate;
use std::alloc::{AllocError, Global};
use std::fs::Files;
use std::io::Print;
use std::thread::Threads;
use std::{fs, io};
use sts_cli::{Status, open_gates, sts};
use sts_io::{MemSink, MemSource};

/// Prints what the program writes where all gates are open, and its status.
pub(crate) fn print_open<R: Files + AllocGlobal + Print + Threads + Sync>(
    rt: &R,
    word: &str,
    file: &str,
) -> io::Result<()> {
    let document = fs::read(rt, file)?;
    let (status, text) = run(rt, word, document, &mut open_gates())?;
    rt.write_all(text.as_slice())?;
    println!(rt; "status {}", status.code)
}

// How often two workers are given the chance to meet. On a busy machine one may have gone on before the other has begun; workers that
// run one after another never meet.
const TRIES: u32 = 20;

/// Prints whether the workers 1 and 2 met, whether one of them recorded, and the status of the program.
pub(crate) fn print_met<R: Files + AllocGlobal + Print + Threads + Sync>(
    rt: &R,
    word: &str,
    file: &str,
) -> io::Result<()> {
    for _ in 1..TRIES {
        let met = one_try(rt, word, file)?;
        if met.count == 2 && met.recorded {
            return print_meeting(rt, &met);
        }
    }
    print_meeting(rt, &one_try(rt, word, file)?)
}

// What became of two workers.
#[derive(Drop)]
struct Met {
    count: usize,
    recorded: bool,
    status: Status,
}

fn print_meeting<R: Print>(rt: &R, met: &Met) -> io::Result<()> {
    println!(rt;
        "met {}, recorded {}, status {}",
        met.count, met.recorded, met.status.code
    )
}

fn one_try<R: Files + AllocGlobal + Threads + Sync>(
    rt: &R,
    word: &str,
    file: &str,
) -> io::Result<Met> {
    let document = fs::read(rt, file)?;
    let mut gates = meetings(rt.alloc())?;
    let (status, text) = run(rt, word, document, &mut gates)?;
    Ok(Met {
        count: gates.iter().filter(|gate| gate.has_met()).count(),
        recorded: is_recorded(rt.alloc(), text.as_slice()),
        status,
    })
}

/// Prints what the program finds of a scenario, and what its other words say of the log that it found, but for what differs from run to
/// run: the log and the steps of a replay.
pub(crate) fn print_settled<R: Files + AllocGlobal + Print + Threads + Sync>(
    rt: &R,
    file: &str,
) -> io::Result<()> {
    let document = fs::read(rt, file)?;
    let (status, found) = run(rt, "find", document, &mut open_gates())?;
    print_rest(rt, "find", status, found.as_slice())?;
    for word in ["check", "replay", "reduce"] {
        let log = first_line(found.as_slice()).to_vec(rt.alloc())?;
        let (status, text) = run(rt, word, log, &mut open_gates())?;
        print_rest(rt, word, status, text.as_slice())?;
    }
    Ok(())
}

// Prints the lines that are the same in each run, and the status.
fn print_rest<R: Print>(rt: &R, word: &str, status: Status, text: &[u8]) -> io::Result<()> {
    for line in text.split(|byte| *byte == b'\n') {
        if is_told(line) {
            rt.write_all(line)?;
            rt.write_all(b"\n")?;
        }
    }
    println!(rt; "{word}: status {}", status.code)
}

// Whether a line is the same in each run: no log, no step, and not how many steps there are.
fn is_told(line: &[u8]) -> bool {
    match line.first() {
        Some(byte) => *byte != b'{' && !byte.is_ascii_digit() && !line.starts_with(b"replay "),
        None => false,
    }
}

// The bytes up to the first line feed.
fn first_line(text: &[u8]) -> &[u8] {
    match text.iter().position(|byte| *byte == b'\n') {
        Some(end) => &text[..end],
        None => text,
    }
}

// Whether the first line is a log in which worker 1 or worker 2 has an entry.
fn is_recorded(alloc: Global, text: &[u8]) -> bool {
    let Ok(log) = read_log(alloc, first_line(text)) else {
        return false;
    };
    for entry in log.trace.entries.iter() {
        if entry.worker == 1 || entry.worker == 2 {
            return true;
        }
    }
    false
}

// The status of the program with one word, and what it writes.
fn run<R: AllocGlobal + Threads + Sync, G: Gate>(
    rt: &R,
    word: &str,
    document: Vec<u8>,
    gates: &mut [G; 8],
) -> Result<(Status, Vec<u8>), AllocError> {
    let alloc = rt.alloc();
    let mut words = Vec::new(alloc);
    words.push(word.to_string(alloc)?)?;
    let mut source = MemSource::new(document, 1 << 16, Vec::new(alloc));
    let mut sink = MemSink::new(alloc, 1 << 20, 1 << 16, Vec::new(alloc))?;
    let status = sts(rt, alloc, words.as_slice(), &mut source, &mut sink, gates);
    Ok((status, sink.taken().to_vec(alloc)?))
}
