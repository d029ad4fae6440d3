//! The worked cases of the top call, over a source and a sink in memory.
use super::{Status, open_gates, sts};
use doc_forms::DocFail;
use event_machine::{LogNo, StepNo};
use listed::Listed;
use std::alloc::{AllocError, Global};
use std::fmt::Display;
use std::test::Fail;
use std::thread::Threads;
use sts_io::{MemSink, MemSource};

// One packet that is sent and lost, on one switch with two hosts.
const LOG: &str =
    "{\"end\":\"quiet\",\"entries\":[[0,0,\"in\",0],[0,1,\"pkt\",0,1,0,\"000000000001000000000002ffff00080000060000000a0000001403e800500000000700\"]],\"scenario\":{\"budget\":0,\"controllers\":[],\"hosts\":[[0,1,1],[0,2,2]],\"invariants\":[],\"links\":[],\"max_events\":100,\"patience\":0,\"script\":[[0,\"inject\",0,[1,2,65535,0,2048,0,6,10,20,1000,80],7]],\"sts\":1,\"switches\":[[2,null,[]]],\"workers\":1},\"sts\":1}";

// That scenario without its script, and the log of its run.
const IDLE: &str =
    "{\"budget\":0,\"controllers\":[],\"hosts\":[[0,1,1],[0,2,2]],\"invariants\":[],\"links\":[],\"max_events\":100,\"patience\":0,\"script\":[],\"sts\":1,\"switches\":[[2,null,[]]],\"workers\":1}";

const IDLE_LOG: &str =
    "{\"end\":\"quiet\",\"entries\":[],\"scenario\":{\"budget\":0,\"controllers\":[],\"hosts\":[[0,1,1],[0,2,2]],\"invariants\":[],\"links\":[],\"max_events\":100,\"patience\":0,\"script\":[],\"sts\":1,\"switches\":[[2,null,[]]],\"workers\":1},\"sts\":1}\nno violation\n";

// Its scenario.
const SCENARIO: &str =
    "{\"budget\":0,\"controllers\":[],\"hosts\":[[0,1,1],[0,2,2]],\"invariants\":[],\"links\":[],\"max_events\":100,\"patience\":0,\"script\":[[0,\"inject\",0,[1,2,65535,0,2048,0,6,10,20,1000,80],7]],\"sts\":1,\"switches\":[[2,null,[]]],\"workers\":1}";

const REPLAY: &str = "replay 2 steps\n0 input 0\n1 expected 1 pkt 0 1 0\nabsent 0\nend holds\n";

const LIMIT: usize = 16_777_216;

// The words of a command line.
fn words(alloc: Global, line: &str) -> Result<Vec<String>, AllocError> {
    let mut list = Vec::new(alloc);
    for word in line.split_whitespace() {
        list.push(word.to_string(alloc)?)?;
    }
    Ok(list)
}

// The bytes of a text with spaces after it, up to a length.
fn padded(alloc: Global, text: &str, len: usize) -> Result<Vec<u8>, AllocError> {
    let mut bytes = text.as_bytes().to_vec(alloc)?;
    bytes.resize(len.max(text.len()), b' ')?;
    Ok(bytes)
}

// The status of a run of the program through open gates, and what it writes into a sink of 1,000 bytes.
fn run(
    rt: &(impl AllocGlobal + Threads + Sync),
    line: &str,
    document: Vec<u8>,
) -> Result<(Status, Vec<u8>), AllocError> {
    let alloc = rt.alloc();
    let words = words(alloc, line)?;
    let mut source = MemSource::new(document, 100_000, Vec::new(alloc));
    let mut sink = MemSink::new(alloc, 1_000, 100, Vec::new(alloc))?;
    let mut gates = open_gates();
    let status = sts(
        rt,
        alloc,
        words.as_slice(),
        &mut source,
        &mut sink,
        &mut gates,
    );
    Ok((status, sink.taken().to_vec(alloc)?))
}

#[test]
fn logs_and_their_answers(rt: HostRuntime) -> Result<(), Fail> {
    for (line, part, other, code, text) in [
        ("replay", "", "", 0, REPLAY),
        // the second entry's number, the item's number, and the end
        (
            "replay",
            "[0,1,\"pkt\"",
            "[0,2,\"pkt\"",
            4,
            "worker order at 1 want 1 has 2\n",
        ),
        (
            "check",
            "\"pkt\",0,1,0",
            "\"pkt\",0,1,1",
            4,
            "not legal at 1\n",
        ),
        ("replay", "\"quiet\"", "\"full\"", 4, "end wrong\n"),
        (
            "replay",
            "[0,2,2]",
            "[0,2,1]",
            3,
            "refused 14 at /scenario/hosts/1/2\n",
        ),
        (
            "replay",
            "\"invariants\":[]",
            "\"invariants\":[[\"loop\"]]",
            0,
            REPLAY,
        ),
        (
            "check",
            "\"invariants\":[]",
            "\"invariants\":[[\"loop\"]]",
            0,
            "verdict 0 loop holds\n",
        ),
        ("check", "", "", 0, ""),
        ("check", "\"sts\":1}", "", 3, "refused 1 at /\n"),
    ] {
        let document = LOG.replacen(rt.alloc(), part, other, 1)?;
        let (status, written) = run(&rt, line, document.into_bytes())?;
        assert_eq!(rt; status.code, code, "at {other}");
        assert_eq!(rt; written.as_slice(), text.as_bytes(), "at {other}");
    }
    Ok(())
}

#[test]
fn the_log_of_a_scenario(rt: HostRuntime) -> Result<(), Fail> {
    let (status, mut written) = run(&rt, "record", padded(rt.alloc(), SCENARIO, 0)?)?;
    assert_eq!(rt; status.code, 0);
    assert_eq!(rt; written.pop(), Some(b'\n'));
    assert_eq!(rt; written.as_slice(), LOG.as_bytes());
    let (status, written) = run(&rt, "record", padded(rt.alloc(), LOG, 0)?)?;
    assert_eq!(rt;
        (status.code, written.as_slice()),
        (3, b"refused 3 at /budget\n".as_slice())
    );
    Ok(())
}

#[test]
fn nothing_is_violated(rt: HostRuntime) -> Result<(), Fail> {
    let (status, written) = run(&rt, "find", padded(rt.alloc(), IDLE, 0)?)?;
    assert_eq!(rt; (status.code, written.as_slice()), (0, IDLE_LOG.as_bytes()));
    let (status, written) = run(&rt, "reduce", padded(rt.alloc(), LOG, 0)?)?;
    assert_eq!(rt;
        (status.code, written.as_slice()),
        (9, b"no violation\n".as_slice())
    );
    Ok(())
}

#[test]
fn a_made_up_scenario_is_summed_up(rt: HostRuntime) -> Result<(), Fail> {
    let (status, written) = run(&rt, "gen 0 3", Vec::new(rt.alloc()))?;
    let wanted =
        "gen 0 3\nentries 61 end quiet\nverdict 0 loop holds\nverdict 1 blackhole holds\nno violation\n";
    assert_eq!(rt; (status.code, written.as_slice()), (0, wanted.as_bytes()));
    Ok(())
}

#[test]
fn words_that_are_no_form(rt: HostRuntime) -> Result<(), Fail> {
    for line in [
        "",
        "Replay",
        "replay replay",
        "--help",
        "causes 007",
        "gen 1 2",
        "gen 1 65",
        "gen 01 3",
        "gen +1 3",
        "gen 18446744073709551616 3",
    ] {
        let (status, written) = run(&rt, line, padded(rt.alloc(), LOG, 0)?)?;
        assert_eq!(rt; (status.code, written.len()), (2, 0), "at {line}");
    }
    Ok(())
}

#[test]
fn faults_of_the_ends(rt: HostRuntime) -> Result<(), Fail> {
    let words = words(rt.alloc(), "find")?;
    let mut gates = open_gates();
    let mut source = MemSource::new(padded(rt.alloc(), IDLE, 0)?, 100, Vec::new(rt.alloc()));
    let mut sink = MemSink::new(rt.alloc(), 100, 16, vec![in rt.alloc(); 1]?)?;
    let cut_off = sts(
        &rt,
        rt.alloc(),
        words.as_slice(),
        &mut source,
        &mut sink,
        &mut gates,
    );
    assert_eq!(rt; cut_off.code, 6);
    assert_eq!(rt; sink.taken(), b"{\"end\":\"quiet\",\"".as_slice());

    let mut source = MemSource::new(padded(rt.alloc(), IDLE, 0)?, 100, vec![in rt.alloc(); 0]?);
    let mut sink = MemSink::new(rt.alloc(), 100, 16, Vec::new(rt.alloc()))?;
    let unread = sts(
        &rt,
        rt.alloc(),
        words.as_slice(),
        &mut source,
        &mut sink,
        &mut gates,
    );
    assert_eq!(rt; (unread.code, sink.taken().len()), (5, 0));
    Ok(())
}

#[test]
fn the_longest_document(rt: HostRuntime) -> Result<(), Fail> {
    for (len, code, text) in [(LIMIT, 0, REPLAY), (LIMIT + 1, 8, "")] {
        let (status, written) = run(&rt, "replay", padded(rt.alloc(), LOG, len)?)?;
        assert_eq!(rt; status.code, code, "at {len}");
        assert_eq!(rt; written.as_slice(), text.as_bytes(), "at {len}");
    }
    Ok(())
}

// The text of an error.
fn told<E: Display>(alloc: Global, error: &E) -> Result<String, AllocError> {
    format!(in alloc; "{error}")
}

#[test]
fn texts_of_errors(rt: HostRuntime) -> Result<(), Fail> {
    let order = LogNo::WorkerOrder {
        at: 4,
        want: 1,
        has: 2,
    };
    let refused = DocFail::Refused {
        number: 9,
        path: Listed::new(rt.alloc()),
    };
    for (text, wanted) in [
        (
            told(rt.alloc(), &LogNo::NotLegal { at: 3 })?,
            "entry 3 is not legal",
        ),
        (
            told(rt.alloc(), &order)?,
            "entry 4 has number 2, and its worker's next is 1",
        ),
        (
            told(rt.alloc(), &LogNo::EndWrong)?,
            "the trace does not end as it says",
        ),
        (
            told(rt.alloc(), &StepNo::NotEnabled { head: None })?,
            "the event is not enabled",
        ),
        (told(rt.alloc(), &refused)?, "rule 9 is broken"),
        (told(rt.alloc(), &DocFail::OutOfMemory)?, "out of memory"),
    ] {
        assert_eq!(rt; text.as_str(), wanted);
    }
    Ok(())
}
