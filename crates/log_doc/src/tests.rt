//! A log with an entry of each kind, which is written as it was read, and one that is refused.
use super::{DocFail, read_log, write_log};
use std::test::Fail;

// One switch under a controller with two applications, and an event of each kind; the worker that completes the run adds the last.
const LOG: &str =
    "{\"end\":\"quiet\",\"entries\":[[1,0,\"in\",0],[1,1,\"ctl\",0,0,\"0112000800000001\"],[1,2,\"pkt\",0,1,0,\"000000000001000000000002ffff00080000060a0000010a00000203e800500000000700\"],[1,3,\"note\",0,0,\"0000000005\"],[1,4,\"note\",0,1,\"01000201\"],[1,5,\"note\",0,2,\"020000000000000003\"],[1,6,\"app\",0,0,0,\"\"],[1,7,\"admin\",0,0,\"003820ff000000000000000000000000000000000000000000000000000000000000000000000000\"],[0,0,\"recv\",0,0,\"000000000001000000000002ffff00080000060a0000010a00000203e800500000000700\"]],\"scenario\":{\"budget\":8,\"controllers\":[[[\"learning\",9],[\"routing\",false]]],\"hosts\":[[0,1,1]],\"invariants\":[],\"links\":[],\"max_events\":100,\"patience\":3,\"script\":[[1,\"seconds\",5]],\"sts\":1,\"switches\":[[2,0,[]]],\"workers\":1},\"sts\":1}";

#[test]
fn a_log_with_each_entry(rt: HostRuntime) -> Result<(), Fail> {
    let read = read_log(rt.alloc(), LOG.as_bytes());
    let Ok(log) = read else {
        return Err(Fail::from("it is not read"));
    };
    assert_eq!(rt; log.trace.entries.len(), 9);
    let written = write_log(rt.alloc(), &log)?;
    assert_eq!(rt; written.as_slice(), LOG.as_bytes());
    Ok(())
}

#[test]
fn an_empty_object(rt: HostRuntime) -> Result<(), Fail> {
    match read_log(rt.alloc(), b"{}") {
        Err(DocFail::Refused { number, path }) => {
            assert_eq!(rt; number, 3);
            assert_eq!(rt; path.as_slice(), b"/end".as_slice());
            Ok(())
        }
        _ => Err(Fail::from("it is not refused")),
    }
}
