//! Streams that come in pieces, and streams that go on with no message.
use crate::{Cutter, Next};
use of10_messages::BadMessage;
use std::test::Fail;

// HELLO, ECHO_REQUEST of "abc", BARRIER_REQUEST, PACKET_OUT of "hi" to port 1, and the first three bytes of one more.
const STREAM: &[u8] =
    b"\x01\x00\x00\x08\x00\x00\x00\x01\x01\x02\x00\x0b\x00\x00\x00\x02abc\x01\x12\x00\x08\x00\x00\x00\x03\x01\x0d\x00\x1a\x00\x00\x00\x04\xff\xff\xff\xff\xff\xff\x00\x08\x00\x00\x00\x08\x00\x01\x00\x00hi\x01\x02\x00";

const HEADERS: [(u8, u16, u32); 4] = [(0, 8, 1), (2, 11, 2), (18, 8, 3), (13, 26, 4)];

const ECHO: &[u8] = b"\x01\x02\x00\x0a\x00\x00\x00\x05ab";

// What comes next, a message by its type, length and xid.
#[derive(Clone, Copy, Debug, PartialEq, Eq)]
enum Answer {
    Whole(u8, u16, u32),
    NotYet(u64, u64),
    Broken(BadMessage),
}

fn ask(cutter: &mut Cutter) -> Answer {
    match cutter.next_message() {
        Next::Whole(view) => {
            let (kind, len, xid) = view.header();
            Answer::Whole(kind, len, xid)
        }
        Next::NotYet { need, have } => Answer::NotYet(need, have),
        Next::Broken(bad) => Answer::Broken(bad),
    }
}

#[test]
fn a_message_in_three_pieces(rt: HostRuntime) -> Result<(), Fail> {
    let mut cutter = Cutter::new(rt.alloc());
    cutter.feed(b"\x01\x02\x00\x0a\x00")?;
    assert_eq!(rt; ask(&mut cutter), Answer::NotYet(8, 5));
    cutter.feed(b"\x00\x00\x05")?;
    assert_eq!(rt; ask(&mut cutter), Answer::NotYet(10, 8));
    cutter.feed(b"ab")?;
    match cutter.next_message() {
        Next::Whole(view) => {
            assert_eq!(rt; view.header(), (2, 10, 5));
            assert_eq!(rt; view.data(), b"ab".as_slice());
        }
        _ => return Err(Fail::from("the message is whole")),
    }
    assert_eq!(rt; ask(&mut cutter), Answer::NotYet(8, 0));
    Ok(())
}

#[test]
fn a_broken_stream_stays_broken(rt: HostRuntime) -> Result<(), Fail> {
    let cases: [(&[u8], BadMessage); 6] = [
        (b"\x04\x00\x00\x08\x00\x00\x00\x01", BadMessage::Version(4)),
        // no more is waited for, and the version comes first
        (b"\x04\x00\x00\x64\x00\x00\x00\x01", BadMessage::Version(4)),
        (b"\x04\x00\x00\x07\x00\x00\x00\x01", BadMessage::Version(4)),
        (
            b"\x01\x00\x00\x07\x00\x00\x00\x01",
            BadMessage::Length { said: 7, given: 8 },
        ),
        (b"\x01\x16\x00\x08\x00\x00\x00\x01", BadMessage::Kind(22)),
        (
            b"\x01\x0d\x00\x18\x00\x00\x00\x01\xff\xff\xff\xff\x00\x01\x00\x08\x00\x00\x00\x07\x00\x01\x00\x00",
            BadMessage::BadAction { place: 16, kind: 0 },
        ),
    ];
    for (bytes, bad) in cases {
        let mut cutter = Cutter::new(rt.alloc());
        cutter.feed(ECHO)?;
        cutter.feed(bytes)?;
        assert_eq!(rt; ask(&mut cutter), Answer::Whole(2, 10, 5));
        assert_eq!(rt; ask(&mut cutter), Answer::Broken(bad));
        assert_eq!(rt; ask(&mut cutter), Answer::Broken(bad));
        cutter.feed(ECHO)?;
        assert_eq!(rt; ask(&mut cutter), Answer::Broken(bad));
    }
    Ok(())
}

#[test]
fn a_bad_version_at_the_start(rt: HostRuntime) -> Result<(), Fail> {
    let mut cutter = Cutter::new(rt.alloc());
    cutter.feed(b"\x04\x00\x00\x08\x00\x00\x00\x00")?;
    for _ in 0..3 {
        assert_eq!(rt; ask(&mut cutter), Answer::Broken(BadMessage::Version(4)));
    }
    Ok(())
}

#[test]
fn a_bad_type_is_told_with_the_whole_message(rt: HostRuntime) -> Result<(), Fail> {
    let mut cutter = Cutter::new(rt.alloc());
    cutter.feed(b"\x01\x16\x00\x0c\x00\x00\x00\x01")?;
    assert_eq!(rt; ask(&mut cutter), Answer::NotYet(12, 8));
    cutter.feed(b"abcd")?;
    assert_eq!(rt; ask(&mut cutter), Answer::Broken(BadMessage::Kind(22)));
    Ok(())
}

// Takes at most so many messages, adds their headers, and gives what comes after them.
fn take_some(
    cutter: &mut Cutter,
    most: usize,
    headers: &mut Vec<(u8, u16, u32)>,
) -> Result<Answer, Fail> {
    for _ in 0..most {
        match ask(cutter) {
            Answer::Whole(kind, len, xid) => headers.push((kind, len, xid))?,
            other => return Ok(other),
        }
    }
    Ok(ask(cutter))
}

#[test]
fn two_pieces_cut_at_every_place(rt: HostRuntime) -> Result<(), Fail> {
    for place in 0..STREAM.len() + 1 {
        let mut cutter = Cutter::new(rt.alloc());
        let mut headers = Vec::new(rt.alloc());
        cutter.feed(&STREAM[..place])?;
        take_some(&mut cutter, 4, &mut headers)?;
        cutter.feed(&STREAM[place..])?;
        let last = take_some(&mut cutter, 4, &mut headers)?;
        assert_eq!(rt; last, Answer::NotYet(8, 3), "cut at {place}");
        assert_eq!(rt; headers.as_slice(), HEADERS.as_slice(), "cut at {place}");
    }
    Ok(())
}

// What was taken out is dropped again and again: with pieces of 25 bytes one message of five is left to the end.
#[test]
fn many_small_pieces(rt: HostRuntime) -> Result<(), Fail> {
    let mut stream = Vec::new(rt.alloc());
    for _ in 0..60 {
        stream.extend_from_slice(ECHO)?;
    }
    for size in [1, 3, 7, 16, 25] {
        let mut cutter = Cutter::new(rt.alloc());
        let mut headers = Vec::new(rt.alloc());
        for piece in stream.chunks(size) {
            cutter.feed(piece)?;
            for _ in 0..2 {
                if let Answer::Whole(kind, len, xid) = ask(&mut cutter) {
                    headers.push((kind, len, xid))?;
                }
            }
        }
        let last = take_some(&mut cutter, 60, &mut headers)?;
        assert_eq!(rt; last, Answer::NotYet(8, 0), "pieces of {size}");
        assert_eq!(rt; headers.len(), 60, "pieces of {size}");
        for header in &headers {
            assert_eq!(rt; *header, (2, 10, 5), "pieces of {size}");
        }
    }
    Ok(())
}
