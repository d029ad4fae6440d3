//! Messages as they stand on the wire, and bytes that are none.
ghost use Rattle.std.specs.Prelude.{◌≡◌, IfOk};
ghost use Rattle.of10_messages.specs.Valid.{IsValidMessage};

use super::*;
use of10_match::{Match, OFPP_CONTROLLER, OFPP_FLOOD, OFPP_NONE};
use std::alloc::Global;
use std::test::Fail;

// What a learning switch is sent for a web server's answer: ADD, all twelve fields, output to port 1.
const FLOW_MOD: &[u8] =
    b"\x01\x0e\x00\x50\x00\x00\x00\x04\x00\x00\x00\x00\x00\x02\x00\x00\x00\x00\x00\x02\x00\x00\x00\x00\x00\x01\xff\xff\x00\x00\x08\x00\x00\x06\x00\x00\x00\x00\x00\x14\x00\x00\x00\x0a\x00\x50\x03\xe8\x00\x00\x00\x00\x00\x00\x00\x01\x00\x00\x00\x00\x00\x00\x80\x00\xff\xff\xff\xff\xff\xff\x00\x00\x00\x00\x00\x08\x00\x01\x00\x00";

// A packet of 36 bytes that no entry took, from port 1.
const PACKET_IN: &[u8] =
    b"\x01\x0a\x00\x36\x00\x00\x00\x02\xff\xff\xff\xff\x00\x24\x00\x01\x00\x00\x00\x00\x00\x00\x00\x01\x00\x00\x00\x00\x00\x02\xff\xff\x00\x08\x00\x00\x06\x00\x00\x00\x0a\x00\x00\x00\x14\x03\xe8\x00\x50\x00\x00\x00\x07\x00";

// A switch with one port, named p1, that is switched off and has no link.
const FEATURES_REPLY: &[u8] =
    b"\x01\x06\x00\x50\x00\x00\x00\x07\x00\x00\x00\x00\x00\x00\x00\x01\x00\x00\x01\x00\x02\x00\x00\x00\x00\x00\x00\xc7\x00\x00\x0f\xff\x00\x01\x02\x00\x00\x01\x00\x01p1\x00\x00\x00\x00\x00\x00\x00\x00\x00\x00\x00\x00\x00\x00\x00\x00\x00\x01\x00\x00\x00\x01\x00\x00\x02\x80\x00\x00\x00\x00\x00\x00\x00\x00\x00\x00\x00\x00";

// One message of each type but those above.
const OTHERS: [&[u8]; 19] = [
    b"\x01\x00\x00\x08\x00\x00\x00\x01",
    b"\x01\x01\x00\x0f\x00\x00\x00\x02\x00\x01\x00\x06abc",
    b"\x01\x02\x00\x0b\x00\x00\x00\x03abc",
    b"\x01\x03\x00\x08\x00\x00\x00\x04",
    b"\x01\x04\x00\x0c\x00\x00\x00\x05\x00\x00\x23\x20",
    b"\x01\x05\x00\x08\x00\x00\x00\x06",
    b"\x01\x07\x00\x08\x00\x00\x00\x07",
    b"\x01\x08\x00\x0c\x00\x00\x00\x08\x00\x01\x00\x80",
    b"\x01\x09\x00\x0c\x00\x00\x00\x09\x00\x02\xff\xff",
    b"\x01\x0b\x00\x58\x00\x00\x00\x0a\x00\x38\x20\xff\x00\x00\x00\x00\x00\x00\x00\x00\x00\x00\x00\x00\x00\x00\x00\x00\x00\x00\x00\x00\x00\x00\x00\x00\x00\x00\x00\x00\x00\x00\x00\x00\x00\x00\x00\x00\x00\x00\x00\x00\x00\x00\x00\x09\x80\x00\x01\x00\x00\x00\x00\x05\x00\x00\x00\x06\x00\x07\x00\x00\x00\x00\x00\x00\x00\x00\x00\x08\x00\x00\x00\x00\x00\x00\x02\x00",
    b"\x01\x0c\x00\x40\x00\x00\x00\x0b\x02\x00\x00\x00\x00\x00\x00\x00\x00\x02\x02\x00\x00\x01\x00\x02p2\x00\x00\x00\x00\x00\x00\x00\x00\x00\x00\x00\x00\x00\x00\x00\x00\x00\x20\x00\x00\x00\x01\x00\x00\x00\x02\x00\x00\x00\x03\x00\x00\x00\x04\x00\x00\x00\x05",
    // a PACKET_OUT with every type of action, an Enqueue and one of a vendor
    b"\x01\x0d\x00\x92\x00\x00\x00\x0c\xff\xff\xff\xff\xff\xff\x00\x80\x00\x00\x00\x08\xff\xfd\x00\x40\x00\x01\x00\x08\x00\x64\x00\x00\x00\x02\x00\x08\x05\x00\x00\x00\x00\x03\x00\x08\x00\x00\x00\x00\x00\x04\x00\x10\x00\x00\x00\x00\x00\x0a\x00\x00\x00\x00\x00\x00\x00\x05\x00\x10\x00\x00\x00\x00\x00\x0b\x00\x00\x00\x00\x00\x00\x00\x06\x00\x08\x0a\x00\x00\x01\x00\x07\x00\x08\x0a\x00\x00\x02\x00\x08\x00\x08\x2c\x00\x00\x00\x00\x09\x00\x08\x00\x50\x00\x00\x00\x0a\x00\x08\x03\xe8\x00\x00\x00\x0b\x00\x10\x00\x01\x00\x00\x00\x00\x00\x00\x00\x00\x00\x07\xff\xff\x00\x08\x00\x00\x23\x20xy",
    b"\x01\x0f\x00\x09\x00\x00\x00\x0ea",
    b"\x01\x10\x00\x0c\x00\x00\x00\x0f\x00\x00\x00\x00",
    b"\x01\x11\x00\x08\x00\x00\x00\x10",
    b"\x01\x12\x00\x08\x00\x00\x00\x11",
    b"\x01\x13\x00\x08\x00\x00\x00\x12",
    b"\x01\x14\x00\x0c\x00\x00\x00\x13\x00\x01\x00\x00",
    b"\x01\x15\x00\x10\x00\x00\x00\x14\x00\x01\x00\x00\x00\x00\x00\x00",
];

fn read(alloc: Global, bytes: &[u8]) -> Result<Message, Fail>
    ensures { IfOk result (λ m. IsValidMessage m) }
{
    Ok(decode(alloc, bytes)?)
}

// The refusal of the bytes, or `None` where they are read.
fn refused(alloc: Global, bytes: &[u8]) -> Option<BadMessage> {
    decode(alloc, bytes).err()
}

#[test]
fn one_of_each_type_is_written_as_it_was_read(rt: HostRuntime) -> Result<(), Fail> {
    let alloc = rt.alloc();
    for bytes in OTHERS {
        let message = read(alloc, bytes)?;
        let written = encode(alloc, &message)?;
        assert_eq!(rt; written.as_slice(), bytes, "type {:?}", bytes.get(1));
        assert_eq!(rt; encoded_len(&message), bytes.len() as u64);
    }
    for bytes in [FLOW_MOD, PACKET_IN, FEATURES_REPLY] {
        let written = encode(alloc, &read(alloc, bytes)?)?;
        assert_eq!(rt; written.as_slice(), bytes, "type {:?}", bytes.get(1));
    }
    Ok(())
}

#[test]
fn what_says_nothing_is_dropped(rt: HostRuntime) -> Result<(), Fail> {
    let alloc = rt.alloc();
    // the body of a HELLO, and the padding of a PACKET_IN and of an action
    for (bytes, canonical) in [
        (
            b"\x01\x00\x00\x0a\x00\x00\x00\x01ab".as_slice(),
            b"\x01\x00\x00\x08\x00\x00\x00\x01".as_slice(),
        ),
        (
            b"\x01\x0a\x00\x13\x00\x00\x00\x01\x00\x00\x00\x00\x00\x24\x00\x01\x00\xffa",
            b"\x01\x0a\x00\x13\x00\x00\x00\x01\x00\x00\x00\x00\x00\x24\x00\x01\x00\x00a",
        ),
        (
            b"\x01\x0d\x00\x18\x00\x00\x00\x01\xff\xff\xff\xff\xff\xff\x00\x08\x00\x03\x00\x08\x01\x02\x03\x04",
            b"\x01\x0d\x00\x18\x00\x00\x00\x01\xff\xff\xff\xff\xff\xff\x00\x08\x00\x03\x00\x08\x00\x00\x00\x00",
        ),
    ] {
        let written = encode(alloc, &read(alloc, bytes)?)?;
        assert_eq!(rt; written.as_slice(), canonical, "type {:?}", bytes.get(1));
    }
    Ok(())
}

fn some_bytes(alloc: Global, bytes: &[u8]) -> Result<Bytes, Fail>
    ensures { IfOk result (λ copy. copy ≡ bytes.now) }
{
    Ok(Listed::of(Vec::from_slice(alloc, bytes)?))
}

// The messages of OTHERS whose fields are numbers alone, and those with data.
fn short_messages(alloc: Global) -> Result<Vec<Message>, Fail> {
    let mut all = vec![in alloc; Message::hello(1)]?;
    all.push(Message::Error {
        xid: 2,
        kind: 1,
        code: 6,
        content: some_bytes(alloc, b"abc")?,
    })?;
    all.push(Message::echo_request(3, some_bytes(alloc, b"abc")?))?;
    all.push(Message::echo_reply(4, Listed::new(alloc)))?;
    all.push(other(alloc, 5, 4, b"\x00\x00\x23\x20")?)?;
    all.push(Message::features_request(6))?;
    all.push(Message::get_config_request(7))?;
    all.push(Message::GetConfigReply {
        xid: 8,
        flags: 1,
        miss_send_len: 128,
    })?;
    all.push(Message::SetConfig {
        xid: 9,
        flags: 2,
        miss_send_len: 65535,
    })?;
    Ok(all)
}

fn other(alloc: Global, xid: u32, kind: u8, body: &[u8]) -> Result<Message, Fail> {
    Ok(Message::Other {
        xid,
        kind,
        body: some_bytes(alloc, body)?,
    })
}

// One action of each type, as in the PACKET_OUT of OTHERS.
fn every_action(alloc: Global) -> Result<Actions10, Fail> {
    let mut all = vec![in alloc;
        Action::Output {
            port: OFPP_CONTROLLER,
            max_len: 64
        },
    ]?;
    all.push(Action::SetVlanVid(100))?;
    all.push(Action::SetVlanPcp(5))?;
    all.push(Action::StripVlan)?;
    all.push(Action::SetDlSrc(10))?;
    all.push(Action::SetDlDst(11))?;
    all.push(Action::SetNwSrc(0x0a00_0001))?;
    all.push(Action::SetNwDst(0x0a00_0002))?;
    all.push(Action::SetNwTos(44))?;
    all.push(Action::SetTpSrc(80))?;
    all.push(Action::SetTpDst(1000))?;
    all.push(Action::Other {
        kind: OFPAT_ENQUEUE,
        body: some_bytes(alloc, b"\x00\x01\x00\x00\x00\x00\x00\x00\x00\x00\x00\x07")?,
    })?;
    all.push(Action::Other {
        kind: OFPAT_VENDOR,
        body: some_bytes(alloc, b"\x00\x00\x23\x20")?,
    })?;
    Ok(Listed::of(all))
}

// What OTHERS are read as, in their order.
fn others(alloc: Global) -> Result<Vec<Message>, Fail> {
    let mut all = short_messages(alloc)?;
    all.push(Message::FlowRemoved {
        xid: 10,
        matches: Match::any(),
        cookie: 9,
        priority: 0x8000,
        reason: OFPRR_HARD_TIMEOUT,
        duration_sec: 5,
        duration_nsec: 6,
        idle_timeout: 7,
        packet_count: 8,
        byte_count: 512,
    })?;
    all.push(Message::PortStatus {
        xid: 11,
        reason: OFPPR_MODIFY,
        port: PortDesc {
            port_no: 2,
            hw_addr: 0x0200_0001_0002,
            name: *b"p2\x00\x00\x00\x00\x00\x00\x00\x00\x00\x00\x00\x00\x00\x00",
            config: 0x20,
            state: OFPPS_LINK_DOWN,
            curr: 2,
            advertised: 3,
            supported: 4,
            peer: 5,
        },
    })?;
    all.push(Message::PacketOut {
        xid: 12,
        buffer_id: 0xffff_ffff,
        in_port: OFPP_NONE,
        actions_len: 128,
        actions: every_action(alloc)?,
        content: some_bytes(alloc, b"xy")?,
    })?;
    all.push(other(alloc, 14, 15, b"a")?)?;
    all.push(other(alloc, 15, 16, b"\x00\x00\x00\x00")?)?;
    all.push(other(alloc, 16, 17, b"")?)?;
    all.push(Message::barrier_request(17))?;
    all.push(Message::barrier_reply(18))?;
    all.push(other(alloc, 19, 20, b"\x00\x01\x00\x00")?)?;
    all.push(other(alloc, 20, 21, b"\x00\x01\x00\x00\x00\x00\x00\x00")?)?;
    Ok(all)
}

#[test]
fn one_of_each_type_is_read(rt: HostRuntime) -> Result<(), Fail> {
    let alloc = rt.alloc();
    let wanted = others(alloc)?;
    assert_eq!(rt; wanted.len(), OTHERS.len());
    for (bytes, want) in OTHERS.iter().zip(wanted.iter()) {
        let message = read(alloc, bytes)?;
        assert!(rt; message.same(want), "type {:?}", bytes.get(1));
        assert!(rt; message.copy()?.same(want), "type {:?}", bytes.get(1));
        let alike = wanted.iter().filter(|one| message.same(one)).count();
        assert_eq!(rt; alike, 1usize, "type {:?}", bytes.get(1));
    }
    Ok(())
}

#[test]
fn notices_are_compared_and_copied(rt: HostRuntime) -> Result<(), Fail> {
    let notices = [
        Notice::Tick(1),
        Notice::Tick(2),
        Notice::Port {
            port: 1,
            down: true,
        },
        Notice::Port {
            port: 1,
            down: false,
        },
        Notice::Join { down: 1 },
    ];
    for one in &notices {
        let alike = notices.iter().filter(|other| one.same(other)).count();
        assert_eq!(rt; alike, 1usize);
        assert!(rt; one.copy()?.same(one));
    }
    Ok(())
}

#[test]
fn a_message_of_the_greatest_length(rt: HostRuntime) -> Result<(), Fail> {
    let alloc = rt.alloc();
    let mut bytes = vec![in alloc; 0u8; 65535]?;
    for (at, value) in [(0usize, 1u8), (1, 2), (2, 0xff), (3, 0xff)] {
        if let Some(byte) = bytes.get_mut(at) {
            *byte = value;
        }
    }
    let message = read(alloc, bytes.as_slice())?;
    assert_eq!(rt; encoded_len(&message), 65535);
    assert_eq!(rt; encode(alloc, &message)?.as_slice(), bytes.as_slice());
    Ok(())
}

#[test]
fn texts_of_refusals(rt: HostRuntime) -> Result<(), Fail> {
    for (bad, text) in [
        (BadMessage::Short, "fewer bytes than a header"),
        (BadMessage::Version(4), "version 4"),
        (
            BadMessage::Length {
                said: 88,
                given: 80,
            },
            "length 88 of 80 bytes",
        ),
        (BadMessage::Kind(22), "type 22"),
        (
            BadMessage::BodyLength {
                kind: 14,
                length: 71,
            },
            "length 71 of a message of type 14",
        ),
        (
            BadMessage::BadAction { place: 72, kind: 3 },
            "bad action of type 3 at 72",
        ),
        (BadMessage::OutOfMemory, "out of memory"),
    ] {
        assert_eq!(rt; format!(in rt.alloc(); "{bad}")?.as_str(), text);
    }
    Ok(())
}

#[test]
fn a_flow_mod(rt: HostRuntime) -> Result<(), Fail> {
    let alloc = rt.alloc();
    let matches = Match {
        in_port: Some(2),
        dl_src: Some(2),
        dl_dst: Some(1),
        dl_vlan: Some(65535),
        dl_vlan_pcp: Some(0),
        dl_type: Some(2048),
        nw_tos: Some(0),
        nw_proto: Some(6),
        nw_src: Some((20, 32)),
        nw_dst: Some((10, 32)),
        tp_src: Some(80),
        tp_dst: Some(1000),
    };
    let actions = one_action(alloc, Action::output(1))?;
    let mods = FlowMod::add(matches, 32768, actions).with_cookie(1);
    let want = Message::flow_mod(4, mods);
    assert!(rt; read(alloc, FLOW_MOD)?.same(&want));
    Ok(())
}

#[test]
fn a_packet_in(rt: HostRuntime) -> Result<(), Fail> {
    let alloc = rt.alloc();
    let content = some_bytes(alloc, &PACKET_IN[18..])?;
    let want = Message::packet_in(2, 1, OFPR_NO_MATCH, content);
    assert!(rt; read(alloc, PACKET_IN)?.same(&want));
    Ok(())
}

#[test]
fn features_of_a_switch(rt: HostRuntime) -> Result<(), Fail> {
    let alloc = rt.alloc();
    let port = PortDesc {
        port_no: 1,
        hw_addr: 0x0200_0001_0001,
        name: *b"p1\x00\x00\x00\x00\x00\x00\x00\x00\x00\x00\x00\x00\x00\x00",
        config: 1,
        state: 1,
        curr: 0x280,
        advertised: 0,
        supported: 0,
        peer: 0,
    };
    let features = Features {
        datapath_id: 1,
        n_buffers: 256,
        n_tables: 2,
        capabilities: 0xc7,
        actions: 0xfff,
        ports: Listed::of(vec![in alloc; port]?),
    };
    let want = Message::FeaturesReply { xid: 7, features };
    assert!(rt; read(alloc, FEATURES_REPLY)?.same(&want));
    Ok(())
}

#[test]
fn one_byte_of_a_flow_mod_at_a_time(rt: HostRuntime) -> Result<(), Fail> {
    let alloc = rt.alloc();
    let whole = BadMessage::BadAction { place: 72, kind: 0 };
    for (at, value, len, want) in [
        (0usize, 1u8, 7usize, Some(BadMessage::Short)),
        (0, 4, 80, Some(BadMessage::Version(4))),
        (
            3,
            88,
            80,
            Some(BadMessage::Length {
                said: 88,
                given: 80,
            }),
        ),
        (
            3,
            80,
            79,
            Some(BadMessage::Length {
                said: 80,
                given: 79,
            }),
        ),
        (1, 22, 80, Some(BadMessage::Kind(22))),
        (
            3,
            71,
            71,
            Some(BadMessage::BodyLength {
                kind: 14,
                length: 71,
            }),
        ),
        (
            1,
            12,
            80,
            Some(BadMessage::BodyLength {
                kind: 12,
                length: 80,
            }),
        ),
        (3, 72, 72, None),
        (3, 73, 73, Some(whole)),
        (75, 7, 80, Some(whole)),
        (75, 0, 80, Some(whole)),
        (75, 16, 80, Some(whole)),
        (
            73,
            4,
            80,
            Some(BadMessage::BadAction { place: 72, kind: 4 }),
        ),
        (73, 12, 80, None),
        (7, 9, 80, None),
        // two reasons at once: the earlier one is told
        (0, 4, 79, Some(BadMessage::Version(4))),
        (
            1,
            22,
            79,
            Some(BadMessage::Length {
                said: 80,
                given: 79,
            }),
        ),
    ] {
        let mut bytes = Vec::from_slice(alloc, FLOW_MOD)?;
        if let Some(byte) = bytes.get_mut(at) {
            *byte = value;
        }
        bytes.truncate(len);
        assert_eq!(rt; refused(alloc, bytes.as_slice()), want, "at {at}, {value}");
    }
    Ok(())
}

// A PACKET_OUT whose actions are an Output and an Enqueue, and whose data are two bytes.
const PACKET_OUT: &[u8] =
    b"\x01\x0d\x00\x2a\x00\x00\x00\x01\xff\xff\xff\xff\xff\xff\x00\x18\x00\x00\x00\x08\x00\x02\x00\x00\x00\x0b\x00\x10\x00\x01\x00\x00\x00\x00\x00\x00\x00\x00\x00\x07xy";

#[test]
fn one_byte_of_a_packet_out_at_a_time(rt: HostRuntime) -> Result<(), Fail> {
    let alloc = rt.alloc();
    let second = |kind: u16| Some(BadMessage::BadAction { place: 24, kind });
    for (at, value, want) in [
        (15usize, 24u8, None),
        // the actions end within the second, so that it is past their end or has no room for its type
        (15, 16, second(11)),
        (15, 9, second(0)),
        (15, 10, second(11)),
        (15, 8, None),
        (
            15,
            27,
            Some(BadMessage::BodyLength {
                kind: 13,
                length: 42,
            }),
        ),
        (27, 8, second(11)),
        (27, 12, second(11)),
        (27, 24, second(11)),
        (25, 12, None),
        (19, 24, Some(BadMessage::BadAction { place: 16, kind: 0 })),
    ] {
        let mut bytes = Vec::from_slice(alloc, PACKET_OUT)?;
        if let Some(byte) = bytes.get_mut(at) {
            *byte = value;
        }
        assert_eq!(rt; refused(alloc, bytes.as_slice()), want, "at {at}, {value}");
    }
    Ok(())
}

#[test]
fn an_earlier_reason_is_told(rt: HostRuntime) -> Result<(), Fail> {
    // a type that is not there with a length that none has; a short FLOW_MOD whose first action would be bad; a PACKET_OUT
    // whose actions are longer than it is, the first of them bad
    for (bytes, want) in [
        (
            b"\x01\x16\x00\x08\x00\x00\x00\x00".as_slice(),
            BadMessage::Kind(22),
        ),
        (
            b"\x01\x0e\x00\x10\x00\x00\x00\x00\x00\x00\x00\x01\x00\x00\x00\x00",
            BadMessage::BodyLength {
                kind: 14,
                length: 16,
            },
        ),
        (
            b"\x01\x0d\x00\x18\x00\x00\x00\x00\x00\x00\x00\x00\x00\x00\x00\x10\x00\x00\x00\x01\x00\x00\x00\x00",
            BadMessage::BodyLength {
                kind: 13,
                length: 24,
            },
        ),
    ] {
        assert_eq!(rt; refusal(bytes), Some(want));
    }
    assert_eq!(rt; refusal(FLOW_MOD), None);
    Ok(())
}

#[test]
fn lengths_that_a_type_has_not(rt: HostRuntime) -> Result<(), Fail> {
    let alloc = rt.alloc();
    // a type, a length that it has, and one that it has not
    for (kind, right, wrong) in [
        (0u8, 9u8, 7u8),
        (1, 12, 11),
        (5, 8, 9),
        (6, 80, 79),
        (6, 32, 33),
        (7, 8, 12),
        (8, 12, 8),
        (9, 12, 13),
        (10, 18, 17),
        (11, 88, 96),
        (12, 64, 72),
        (13, 16, 15),
        (14, 72, 71),
        (18, 8, 16),
        (19, 8, 9),
    ] {
        for (length, read) in [(right, true), (wrong, false)] {
            let mut bytes = vec![in alloc; 0u8; usize::from(length)]?;
            for (at, value) in [(0usize, 1u8), (1, kind), (3, length)] {
                if let Some(byte) = bytes.get_mut(at) {
                    *byte = value;
                }
            }
            let want = if read {
                None
            } else if length < 8 {
                Some(BadMessage::Short)
            } else {
                Some(BadMessage::BodyLength {
                    kind,
                    length: u16::from(length),
                })
            };
            assert_eq!(rt;
                refused(alloc, bytes.as_slice()),
                want,
                "type {kind}, {length}"
            );
        }
    }
    Ok(())
}

fn hello() -> Message
    ensures { IsValidMessage result }
{
    Message::hello(1)
}

fn drop_entry(alloc: Global) -> Result<Message, Fail>
    ensures { IfOk result (λ m. IsValidMessage m) }
{
    let mods = FlowMod::add(Match::any(), 100, no_actions(alloc));
    Ok(Message::flow_mod(2, mods))
}

fn forward_entry(alloc: Global) -> Result<Message, Fail>
    ensures { IfOk result (λ m. IsValidMessage m) }
{
    let actions = one_action(alloc, Action::output(2))?;
    let mods = FlowMod::add(Match::any(), 100, actions).with_idle_timeout(5);
    Ok(Message::flow_mod(3, mods))
}

fn flood(alloc: Global) -> Result<Message, Fail>
    ensures { IfOk result (λ m. IsValidMessage m) }
{
    let actions = one_action(alloc, Action::output(OFPP_FLOOD))?;
    let content = some_bytes(alloc, b"abc")?;
    Ok(Message::packet_out(4, 1, actions, content))
}

fn echo_reply(alloc: Global) -> Result<Message, Fail>
    ensures { IfOk result (λ m. IsValidMessage m) }
{
    Ok(Message::echo_reply(5, some_bytes(alloc, b"abc")?))
}

fn removal(alloc: Global) -> Result<Message, Fail>
    ensures { IfOk result (λ m. IsValidMessage m) }
{
    let mods = FlowMod::delete(alloc, Match::any())
        .with_command(OFPFC_DELETE_STRICT)
        .with_hard_timeout(6)
        .with_flags(OFPFF_SEND_FLOW_REM)
        .with_out_port(2);
    Ok(Message::flow_mod(6, mods))
}

// The refusal of a FLOW_MOD, which has the first 64 bytes of it.
fn refusal_of_drop_entry(alloc: Global) -> Result<Message, Fail>
    ensures { IfOk result (λ m. IsValidMessage m) }
{
    Ok(Message::error(alloc, 3, 0, &drop_entry(alloc)?)?)
}

// Whether the message is written as these bytes, and these bytes are read as the message.
fn stands_as(alloc: Global, message: &Message, bytes: &[u8]) -> Result<bool, Fail>
    requires { IsValidMessage message.now }
{
    let written = encode(alloc, message)?;
    Ok(written.as_slice() == bytes && read(alloc, bytes)?.same(message))
}

const HELLO: &[u8] = b"\x01\x00\x00\x08\x00\x00\x00\x01";

const DROP_ENTRY: &[u8] =
    b"\x01\x0e\x00\x48\x00\x00\x00\x02\x00\x38\x20\xff\x00\x00\x00\x00\x00\x00\x00\x00\x00\x00\x00\x00\x00\x00\x00\x00\x00\x00\x00\x00\x00\x00\x00\x00\x00\x00\x00\x00\x00\x00\x00\x00\x00\x00\x00\x00\x00\x00\x00\x00\x00\x00\x00\x00\x00\x00\x00\x00\x00\x00\x00\x64\xff\xff\xff\xff\xff\xff\x00\x00";

const FORWARD_ENTRY: &[u8] =
    b"\x01\x0e\x00\x50\x00\x00\x00\x03\x00\x38\x20\xff\x00\x00\x00\x00\x00\x00\x00\x00\x00\x00\x00\x00\x00\x00\x00\x00\x00\x00\x00\x00\x00\x00\x00\x00\x00\x00\x00\x00\x00\x00\x00\x00\x00\x00\x00\x00\x00\x00\x00\x00\x00\x00\x00\x00\x00\x00\x00\x05\x00\x00\x00\x64\xff\xff\xff\xff\xff\xff\x00\x00\x00\x00\x00\x08\x00\x02\x00\x00";

const FLOOD: &[u8] =
    b"\x01\x0d\x00\x1b\x00\x00\x00\x04\xff\xff\xff\xff\x00\x01\x00\x08\x00\x00\x00\x08\xff\xfb\x00\x00abc";

const ECHO_REPLY: &[u8] = b"\x01\x03\x00\x0b\x00\x00\x00\x05abc";

const REMOVAL: &[u8] =
    b"\x01\x0e\x00\x48\x00\x00\x00\x06\x00\x38\x20\xff\x00\x00\x00\x00\x00\x00\x00\x00\x00\x00\x00\x00\x00\x00\x00\x00\x00\x00\x00\x00\x00\x00\x00\x00\x00\x00\x00\x00\x00\x00\x00\x00\x00\x00\x00\x00\x00\x00\x00\x00\x00\x00\x00\x00\x00\x04\x00\x00\x00\x06\x00\x00\xff\xff\xff\xff\x00\x02\x00\x01";

const REFUSAL_OF_DROP_ENTRY: &[u8] =
    b"\x01\x01\x00\x4c\x00\x00\x00\x02\x00\x03\x00\x00\x01\x0e\x00\x48\x00\x00\x00\x02\x00\x38\x20\xff\x00\x00\x00\x00\x00\x00\x00\x00\x00\x00\x00\x00\x00\x00\x00\x00\x00\x00\x00\x00\x00\x00\x00\x00\x00\x00\x00\x00\x00\x00\x00\x00\x00\x00\x00\x00\x00\x00\x00\x00\x00\x00\x00\x00\x00\x00\x00\x00\x00\x00\x00\x64";

#[test]
fn messages_of_ones_own(rt: HostRuntime) -> Result<(), Fail> {
    let alloc = rt.alloc();
    assert!(rt; stands_as(alloc, &hello(), HELLO)?);
    assert!(rt; stands_as(alloc, &drop_entry(alloc)?, DROP_ENTRY)?);
    assert!(rt; stands_as(alloc, &forward_entry(alloc)?, FORWARD_ENTRY)?);
    assert!(rt; stands_as(alloc, &flood(alloc)?, FLOOD)?);
    assert!(rt; stands_as(alloc, &echo_reply(alloc)?, ECHO_REPLY)?);
    assert!(rt; stands_as(alloc, &removal(alloc)?, REMOVAL)?);
    assert!(rt; stands_as(alloc, &refusal_of_drop_entry(alloc)?, REFUSAL_OF_DROP_ENTRY)?);
    Ok(())
}

#[test]
fn texts_of_messages(rt: HostRuntime) -> Result<(), Fail> {
    let alloc = rt.alloc();
    for (bytes, text) in [
        (HELLO, "OFPT_HELLO (xid=0x1)"),
        (OTHERS[1], "OFPT_ERROR (xid=0x2): type=1 code=6 data_len=3"),
        (ECHO_REPLY, "OFPT_ECHO_REPLY (xid=0x5): data_len=3"),
        (OTHERS[4], "OFPT_VENDOR (xid=0x5): 4 bytes"),
        (
            FEATURES_REPLY,
            "OFPT_FEATURES_REPLY (xid=0x7): dpid:0000000000000001 n_buffers:256 n_tables:2 capabilities:0xc7 actions:0xfff; port 1 addr:02:00:00:01:00:01 config:0x1 state:0x1",
        ),
        (
            OTHERS[8],
            "OFPT_SET_CONFIG (xid=0x9): flags=0x2 miss_send_len=65535",
        ),
        (
            PACKET_IN,
            "OFPT_PACKET_IN (xid=0x2): in_port=1 reason=no_match buffer=none total_len=36 data_len=36",
        ),
        (
            OTHERS[9],
            "OFPT_FLOW_REMOVED (xid=0xa): * priority=32768 reason=hard cookie:0x9 duration:5.000000006s idle:7 packets:8 bytes:512",
        ),
        (
            OTHERS[10],
            "OFPT_PORT_STATUS (xid=0xb): MODIFY port 2 addr:02:00:00:01:00:02 config:0x20 state:0x1",
        ),
        (
            OTHERS[11],
            "OFPT_PACKET_OUT (xid=0xc): in_port=NONE buffer=none data_len=2 actions=CONTROLLER:64,mod_vlan_vid:100,mod_vlan_pcp:5,strip_vlan,mod_dl_src:00:00:00:00:00:0a,mod_dl_dst:00:00:00:00:00:0b,mod_nw_src:10.0.0.1,mod_nw_dst:10.0.0.2,mod_nw_tos:44,mod_tp_src:80,mod_tp_dst:1000,type 11, 12 bytes,type 65535, 4 bytes",
        ),
        (
            FLOOD,
            "OFPT_PACKET_OUT (xid=0x4): in_port=1 buffer=none data_len=3 actions=FLOOD",
        ),
        (
            FORWARD_ENTRY,
            "OFPT_FLOW_MOD (xid=0x3): ADD * priority=100 cookie:0x0 idle:5 hard:0 flags:0x0 actions=output:2",
        ),
        (
            FLOW_MOD,
            "OFPT_FLOW_MOD (xid=0x4): ADD in_port=2,dl_vlan=65535,dl_vlan_pcp=0,dl_src=00:00:00:00:00:02,dl_dst=00:00:00:00:00:01,dl_type=0x0800,nw_src=0.0.0.20,nw_dst=0.0.0.10,nw_proto=6,nw_tos=0,tp_src=80,tp_dst=1000 priority=32768 cookie:0x1 idle:0 hard:0 flags:0x0 actions=output:1",
        ),
        (
            REMOVAL,
            "OFPT_FLOW_MOD (xid=0x6): DELETE_STRICT * priority=0 cookie:0x0 idle:0 hard:6 out_port:2 flags:0x1 actions=drop",
        ),
    ] {
        let message = read(alloc, bytes)?;
        assert_eq!(rt; format!(in alloc; "{message}")?.as_str(), text);
    }
    Ok(())
}
