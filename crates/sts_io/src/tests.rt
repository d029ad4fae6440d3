//! What no clause says: that calls succeed with ample memory, the texts of the errors, and the ends over std.
use crate::{
    Failed, MemSink, MemSource, NeverFails, ReadFail, Sink, Source, StdSink, StdSource, VoidSink,
    WriteFail, read_all, write_all_bytes,
};
use std::io;
use std::io::{ErrorKind, Read, Write};
use std::test::Fail;

const LIMIT: u64 = 16_777_216;

/// An end of std whose first call does a little and whose other calls do not: a read or a write of one
/// byte, then an error of a read, and a write that takes nothing.
#[derive(Drop)]
struct Tiring {
    calls: u64,
}

impl Tiring {
    fn is_first_call(&mut self) -> bool {
        self.calls = self.calls.saturating_add(1);
        self.calls == 1
    }
}

impl Read for Tiring {
    fn read(&mut self, buf: &mut [u8]) -> io::Result<usize> {
        if self.is_first_call() && !buf.is_empty() {
            buf[0] = b'x';
            return Ok(1);
        }
        Err(io::Error::new(ErrorKind::BrokenPipe, "no more"))
    }
}

impl Write for Tiring {
    fn write(&mut self, buf: &[u8]) -> io::Result<usize> {
        if self.is_first_call() && !buf.is_empty() {
            return Ok(1);
        }
        Ok(0)
    }

    fn flush(&mut self) -> io::Result<()> {
        Ok(())
    }
}

#[test]
fn reads_to_the_end_within_the_limit(rt: HostRuntime) -> Result<(), Fail> {
    let alloc = rt.alloc();
    for (size, most, limit, fails, want) in [
        (0usize, 1usize, 0u64, 9u64, None),
        (5, 1, 5, 9, None),
        (5, 2, 4, 9, Some(ReadFail::TooLong)),
        (5, 8, 0, 9, Some(ReadFail::TooLong)),
        (5, 8, u64::MAX, 0, Some(ReadFail::Fault)),
        (5, 2, 5, 2, Some(ReadFail::Fault)),
        (5, 5, 5, 1, Some(ReadFail::Fault)),
        (70_000, 70_000, 70_000, 9, None),
        (16_777_216, 16_777_217, LIMIT, 999, None),
        (16_777_217, 16_777_217, LIMIT, 999, Some(ReadFail::TooLong)),
    ] {
        let bytes = vec![in alloc; b' '; size]?;
        let fails = vec![in alloc; fails]?;
        let mut source = MemSource::new(bytes, most.max(1), fails);
        match read_all(alloc, &mut source, limit) {
            Ok(bytes) => {
                assert_eq!(rt; want, None, "{size} within {limit}");
                assert_eq!(rt; bytes.len(), size, "{size} within {limit}");
            }
            Err(fail) => assert_eq!(rt; Some(fail), want, "{size} within {limit}"),
        }
    }
    Ok(())
}

#[test]
fn keeps_the_order_of_pieces(rt: HostRuntime) -> Result<(), Fail> {
    let alloc = rt.alloc();
    let text = b"switches and links";
    let mut source = NeverFails::new(text.to_vec(alloc)?, 5);
    let bytes = read_all(alloc, &mut source, LIMIT)?;
    assert_eq!(rt; bytes.as_slice(), text.as_slice());
    let mut sink = MemSink::new(alloc, 18, 4, Vec::new(alloc))?;
    assert_eq!(rt; write_all_bytes(&mut sink, &bytes), Ok(()));
    assert_eq!(rt; sink.taken(), text.as_slice());
    assert_eq!(rt; write_all_bytes(&mut VoidSink::new(), &bytes), Ok(()));
    Ok(())
}

#[test]
fn a_failed_write_tells_how_much_has_gone(rt: HostRuntime) -> Result<(), Fail> {
    let alloc = rt.alloc();
    let text = b"twenty bytes of text";
    for (room, most, fails, gone) in [
        (64usize, 16usize, 1u64, 16u64),
        (3, 8, 9, 3),
        (64, 64, 0, 0),
    ] {
        let fails = vec![in alloc; fails]?;
        let mut sink = MemSink::new(alloc, room, most, fails)?;
        let result = write_all_bytes(&mut sink, text);
        assert_eq!(rt; result, Err(WriteFail::Fault { gone }), "room for {room}");
        assert_eq!(rt;
            sink.taken(),
            &text[..gone.min(20) as usize],
            "room for {room}"
        );
    }
    Ok(())
}

#[test]
fn ends_over_std_pass_bytes_and_faults_on(rt: HostRuntime) -> Result<(), Fail> {
    let alloc = rt.alloc();
    let text = b"over std";
    let bytes = read_all(alloc, &mut StdSource::new(text.as_slice()), LIMIT)?;
    assert_eq!(rt; bytes.as_slice(), text.as_slice());
    let mut written = Vec::new(alloc);
    assert_eq!(rt;
        write_all_bytes(&mut StdSink::new(&mut written), &bytes),
        Ok(())
    );
    assert_eq!(rt; written.as_slice(), text.as_slice());

    let mut source = StdSource::new(Tiring { calls: 0 });
    let result = read_all(alloc, &mut source, LIMIT);
    assert_eq!(rt; result.err(), Some(ReadFail::Fault));
    assert_eq!(rt; source.read(&mut [0; 4]), Err(Failed));
    let mut sink = StdSink::new(Tiring { calls: 0 });
    let result = write_all_bytes(&mut sink, &bytes);
    assert_eq!(rt; result, Err(WriteFail::Fault { gone: 1 }));
    assert_eq!(rt; sink.write(b""), Ok(0));
    assert_eq!(rt; sink.write(b"x"), Err(Failed));
    Ok(())
}

#[test]
fn errors_have_texts(rt: HostRuntime) -> Result<(), Fail> {
    let alloc = rt.alloc();
    for (shown, want) in [
        (Failed.to_string(alloc)?, "reading or writing failed"),
        (ReadFail::Fault.to_string(alloc)?, "reading failed"),
        (ReadFail::TooLong.to_string(alloc)?, "the input is too long"),
        (ReadFail::OutOfMemory.to_string(alloc)?, "out of memory"),
        (
            WriteFail::Fault { gone: 16 }.to_string(alloc)?,
            "writing failed after 16 bytes",
        ),
    ] {
        assert_eq!(rt; shown.as_str(), want);
    }
    Ok(())
}
