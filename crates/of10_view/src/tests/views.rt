//! Messages as they stand on the wire, the parts that their views lend, and bytes of which there is no view.
use crate::*;
use of10_messages::{Action, BadMessage, decode};
use std::test::Fail;

// What a learning switch is sent for a web server's answer: ADD, all twelve fields, output to port 1.
const FLOW_MOD: &[u8] =
    b"\x01\x0e\x00\x50\x00\x00\x00\x04\x00\x00\x00\x00\x00\x02\x00\x00\x00\x00\x00\x02\x00\x00\x00\x00\x00\x01\xff\xff\x00\x00\x08\x00\x00\x06\x00\x00\x00\x00\x00\x14\x00\x00\x00\x0a\x00\x50\x03\xe8\x00\x00\x00\x00\x00\x00\x00\x01\x00\x00\x00\x00\x00\x00\x80\x00\xff\xff\xff\xff\xff\xff\x00\x00\x00\x00\x00\x08\x00\x01\x00\x00";

// A packet of 36 bytes that no entry took, from port 1.
const PACKET_IN: &[u8] =
    b"\x01\x0a\x00\x36\x00\x00\x00\x02\xff\xff\xff\xff\x00\x24\x00\x01\x00\x00\x00\x00\x00\x00\x00\x01\x00\x00\x00\x00\x00\x02\xff\xff\x00\x08\x00\x00\x06\x00\x00\x00\x0a\x00\x00\x00\x14\x03\xe8\x00\x50\x00\x00\x00\x07\x00";

// A PACKET_OUT with every type of action, an Enqueue and one of a vendor.
const PACKET_OUT: &[u8] =
    b"\x01\x0d\x00\x92\x00\x00\x00\x0c\xff\xff\xff\xff\xff\xff\x00\x80\x00\x00\x00\x08\xff\xfd\x00\x40\x00\x01\x00\x08\x00\x64\x00\x00\x00\x02\x00\x08\x05\x00\x00\x00\x00\x03\x00\x08\x00\x00\x00\x00\x00\x04\x00\x10\x00\x00\x00\x00\x00\x0a\x00\x00\x00\x00\x00\x00\x00\x05\x00\x10\x00\x00\x00\x00\x00\x0b\x00\x00\x00\x00\x00\x00\x00\x06\x00\x08\x0a\x00\x00\x01\x00\x07\x00\x08\x0a\x00\x00\x02\x00\x08\x00\x08\x2c\x00\x00\x00\x00\x09\x00\x08\x00\x50\x00\x00\x00\x0a\x00\x08\x03\xe8\x00\x00\x00\x0b\x00\x10\x00\x01\x00\x00\x00\x00\x00\x00\x00\x00\x00\x07\xff\xff\x00\x08\x00\x00\x23\x20xy";

// The types of its actions, and where each stands.
const OUT_ACTIONS: [(u16, usize, usize); 13] = [
    (0, 16, 24),
    (1, 24, 32),
    (2, 32, 40),
    (3, 40, 48),
    (4, 48, 64),
    (5, 64, 80),
    (6, 80, 88),
    (7, 88, 96),
    (8, 96, 104),
    (9, 104, 112),
    (10, 112, 120),
    (11, 120, 136),
    (0xffff, 136, 144),
];

fn view(bytes: &[u8]) -> Result<View<'_>, Fail> {
    Ok(View::of(bytes)?)
}

#[test]
fn a_flow_mod(rt: HostRuntime) -> Result<(), Fail> {
    let view = view(FLOW_MOD)?;
    assert_eq!(rt; view.bytes(), FLOW_MOD);
    assert_eq!(rt; view.header(), (14, 80, 4));
    assert_eq!(rt; view.match_bytes(), Some(&FLOW_MOD[8..48]));
    assert_eq!(rt; view.data(), b"".as_slice());
    let mut actions = view.actions();
    match actions.next() {
        Some(output) => {
            assert_eq!(rt; output.kind, 0);
            assert_eq!(rt; output.bytes, &FLOW_MOD[72..]);
            match output.action(rt.alloc())? {
                Action::Output { port, max_len } => assert_eq!(rt; (port, max_len), (1, 0)),
                _ => return Err(Fail::from("it is an output")),
            }
        }
        None => return Err(Fail::from("an action is there")),
    }
    assert!(rt; actions.next().is_none());
    Ok(())
}

#[test]
fn a_packet_out(rt: HostRuntime) -> Result<(), Fail> {
    let view = view(PACKET_OUT)?;
    assert_eq!(rt; view.header(), (13, 146, 12));
    assert_eq!(rt; view.match_bytes(), None);
    assert_eq!(rt; view.data(), b"xy".as_slice());
    let mut actions = view.actions();
    for (kind, from, to) in OUT_ACTIONS {
        match actions.next() {
            Some(action) => {
                assert_eq!(rt; action.kind, kind);
                assert_eq!(rt; Some(action.bytes), PACKET_OUT.get(from..to), "type {kind}");
            }
            None => return Err(Fail::from("an action is there")),
        }
    }
    assert!(rt; actions.next().is_none());
    Ok(())
}

// A FLOW_REMOVED of the match that takes everything.
const FLOW_REMOVED: &[u8] =
    b"\x01\x0b\x00\x58\x00\x00\x00\x0a\x00\x38\x20\xff\x00\x00\x00\x00\x00\x00\x00\x00\x00\x00\x00\x00\x00\x00\x00\x00\x00\x00\x00\x00\x00\x00\x00\x00\x00\x00\x00\x00\x00\x00\x00\x00\x00\x00\x00\x00\x00\x00\x00\x00\x00\x00\x00\x09\x80\x00\x01\x00\x00\x00\x00\x05\x00\x00\x00\x06\x00\x07\x00\x00\x00\x00\x00\x00\x00\x00\x00\x08\x00\x00\x00\x00\x00\x00\x02\x00";

#[test]
fn a_flow_removed(rt: HostRuntime) -> Result<(), Fail> {
    let view = view(FLOW_REMOVED)?;
    assert_eq!(rt; view.header(), (11, 88, 10));
    assert_eq!(rt; view.match_bytes(), Some(&FLOW_REMOVED[8..48]));
    assert_eq!(rt; view.data(), b"".as_slice());
    assert!(rt; view.actions().next().is_none());
    Ok(())
}

#[test]
fn a_packet_in(rt: HostRuntime) -> Result<(), Fail> {
    let view = view(PACKET_IN)?;
    assert_eq!(rt; view.header(), (10, 54, 2));
    assert_eq!(rt; view.match_bytes(), None);
    assert_eq!(rt; view.data(), &PACKET_IN[18..]);
    assert_eq!(rt; view.data().len(), 36);
    assert!(rt; view.actions().next().is_none());
    Ok(())
}

#[test]
fn data_of_short_messages(rt: HostRuntime) -> Result<(), Fail> {
    for (bytes, data) in [
        (
            b"\x01\x00\x00\x09\x00\x00\x00\x01a".as_slice(),
            b"".as_slice(),
        ),
        (
            b"\x01\x01\x00\x0f\x00\x00\x00\x02\x00\x01\x00\x06abc".as_slice(),
            b"abc".as_slice(),
        ),
        (
            b"\x01\x02\x00\x0b\x00\x00\x00\x03abc".as_slice(),
            b"abc".as_slice(),
        ),
        (
            b"\x01\x03\x00\x08\x00\x00\x00\x04".as_slice(),
            b"".as_slice(),
        ),
        (
            b"\x01\x04\x00\x0c\x00\x00\x00\x05\x00\x00\x23\x20".as_slice(),
            b"\x00\x00\x23\x20".as_slice(),
        ),
        (
            b"\x01\x0f\x00\x09\x00\x00\x00\x0ea".as_slice(),
            b"a".as_slice(),
        ),
        (
            b"\x01\x10\x00\x0c\x00\x00\x00\x0f\x00\x00\x00\x00".as_slice(),
            b"\x00\x00\x00\x00".as_slice(),
        ),
        (
            b"\x01\x11\x00\x08\x00\x00\x00\x10".as_slice(),
            b"".as_slice(),
        ),
        (
            b"\x01\x14\x00\x0c\x00\x00\x00\x13\x00\x01\x00\x00".as_slice(),
            b"\x00\x01\x00\x00".as_slice(),
        ),
        (
            b"\x01\x05\x00\x08\x00\x00\x00\x06".as_slice(),
            b"".as_slice(),
        ),
        (
            b"\x01\x08\x00\x0c\x00\x00\x00\x08\x00\x01\x00\x80".as_slice(),
            b"".as_slice(),
        ),
        (
            b"\x01\x13\x00\x08\x00\x00\x00\x12".as_slice(),
            b"".as_slice(),
        ),
        (
            b"\x01\x15\x00\x10\x00\x00\x00\x14\x00\x01\x00\x00\x00\x00\x00\x00".as_slice(),
            b"\x00\x01\x00\x00\x00\x00\x00\x00".as_slice(),
        ),
    ] {
        let view = view(bytes)?;
        assert_eq!(rt; view.data(), data, "type {}", view.header().0);
        assert_eq!(rt; view.match_bytes(), None);
        assert!(rt; view.actions().next().is_none());
    }
    Ok(())
}

#[test]
fn no_view_of_what_is_not_read(rt: HostRuntime) -> Result<(), Fail> {
    let alloc = rt.alloc();
    for (at, value, len, want) in [
        (0usize, 1u8, 7usize, BadMessage::Short),
        (0, 4, 80, BadMessage::Version(4)),
        (
            3,
            80,
            79,
            BadMessage::Length {
                said: 80,
                given: 79,
            },
        ),
        (1, 22, 80, BadMessage::Kind(22)),
        (
            3,
            71,
            71,
            BadMessage::BodyLength {
                kind: 14,
                length: 71,
            },
        ),
        (75, 16, 80, BadMessage::BadAction { place: 72, kind: 0 }),
    ] {
        let mut bytes = Vec::from_slice(alloc, FLOW_MOD)?;
        if let Some(byte) = bytes.get_mut(at) {
            *byte = value;
        }
        bytes.truncate(len);
        assert_eq!(rt; View::of(bytes.as_slice()).err(), Some(want), "at {at}");
        assert_eq!(rt;
            decode(alloc, bytes.as_slice()).err(),
            Some(want),
            "at {at}"
        );
    }
    Ok(())
}
