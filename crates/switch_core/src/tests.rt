//! Switches with ample memory: what answers each message, each packet and each notice.
ghost use Rattle.std.specs.Prelude.{◌≡◌, IfOk};
ghost use Rattle.of10_messages.specs.Valid.{IsValidFlowMod};

use super::*;
use flow_table::{Entry, TABLE_CAPACITY};
use listed::{Listed, Plain};
use of10_match::{
    Header, Match, OFPP_ALL, OFPP_CONTROLLER, OFPP_FLOOD, OFPP_IN_PORT, OFPP_NORMAL, OFPP_TABLE,
    Packet,
};
use of10_messages::errors::*;
use of10_messages::{
    Action, Bytes, FlowMod, Message, Notice, OFP_NO_BUFFER, OFPAT_ENQUEUE, OFPAT_VENDOR,
    OFPFF_CHECK_OVERLAP, OFPFF_EMERG, OFPFF_SEND_FLOW_REM, OFPPR_MODIFY, OFPPS_LINK_DOWN,
    OFPR_ACTION, OFPR_NO_MATCH, OFPRR_DELETE, OFPRR_IDLE_TIMEOUT, OFPT_STATS_REQUEST, OFPT_VENDOR,
    PortDesc, encode, one_action,
};
use std::alloc::{AllocError, Global};
use std::test::Fail;

// A web request from the first host to the second one.
const PACKET: Packet = Packet {
    header: Header {
        dl_src: 1,
        dl_dst: 2,
        dl_vlan: 65535,
        dl_vlan_pcp: 0,
        dl_type: 2048,
        nw_tos: 0,
        nw_proto: 6,
        nw_src: 10,
        nw_dst: 20,
        tp_src: 1000,
        tp_dst: 80,
    },
    tag: 7,
};

// Its record.
const RECORD: [u8; 36] =
    *b"\x00\x00\x00\x00\x00\x01\x00\x00\x00\x00\x00\x02\xff\xff\x00\x08\x00\x00\x06\x00\x00\x00\x0a\x00\x00\x00\x14\x03\xe8\x00\x50\x00\x00\x00\x07\x00";

// What switch 0 of two ports says of itself to the request 7: its number and one, no buffers, one table, eleven types of
// actions, and ports p1 and p2.
const FEATURES: &[u8] =
    b"\x01\x06\x00\x80\x00\x00\x00\x07\x00\x00\x00\x00\x00\x00\x00\x01\x00\x00\x00\x00\x01\x00\x00\x00\x00\x00\x00\x00\x00\x00\x07\xff\x00\x01\x02\x00\x00\x01\x00\x01p1\x00\x00\x00\x00\x00\x00\x00\x00\x00\x00\x00\x00\x00\x00\x00\x00\x00\x00\x00\x00\x00\x00\x00\x00\x00\x00\x00\x00\x00\x00\x00\x00\x00\x00\x00\x00\x00\x00\x00\x02\x02\x00\x00\x01\x00\x02p2\x00\x00\x00\x00\x00\x00\x00\x00\x00\x00\x00\x00\x00\x00\x00\x00\x00\x00\x00\x00\x00\x00\x00\x00\x00\x00\x00\x00\x00\x00\x00\x00\x00\x00\x00\x00\x00\x00";

fn some_bytes(alloc: Global, bytes: &[u8]) -> Result<Bytes, AllocError>
    ensures { IfOk result (λ copy. copy ≡ bytes.now) }
{
    Ok(Listed::of(Vec::from_slice(alloc, bytes)?))
}

// An entry of priority 5 for every packet that a match takes, with one action.
fn adding(alloc: Global, matches: Match, action: Action) -> Result<FlowMod, Fail>
    ensures { IfOk result (λ mods. IsValidFlowMod mods) }
{
    if !matches.is_valid() {
        return Err("the match is valid".into());
    }
    if !action.is_valid() {
        return Err("the action is valid".into());
    }
    Ok(FlowMod::add(matches, 5, one_action(alloc, action)?))
}

fn flow_mod(xid: u32, mods: FlowMod) -> Message {
    Message::FlowMod { xid, mods }
}

fn packet_out(alloc: Global, xid: u32, port: u16, content: &[u8]) -> Result<Message, AllocError> {
    Ok(Message::PacketOut {
        xid,
        buffer_id: OFP_NO_BUFFER,
        in_port: 1,
        actions_len: 8,
        actions: one_action(alloc, Action::output(port))?,
        content: some_bytes(alloc, content)?,
    })
}

// Switch 0 of two ports. That nothing is said of it, nor of what it answers below, keeps the proofs of the tests small.
fn fresh(alloc: Global) -> Switch {
    Switch::fresh(alloc, 0, 2)
}

// Gives a switch a message.
fn give(switch: &mut Switch, message: &Message) -> Result<Outs, Fail> {
    if !message.is_valid() {
        return Err("the message is valid".into());
    }
    Ok(switch.handle(message)?)
}

// Gives a switch the packet by port 1.
fn take(switch: &mut Switch) -> Result<Outs, Fail> {
    if !PACKET.is_valid() {
        return Err("the packet is valid".into());
    }
    Ok(switch.packet(1, &PACKET)?)
}

// Gives a switch the packet by port 1 as a plan that is carried out.
fn take_by_plan(switch: &mut Switch) -> Result<Outs, Fail> {
    if !PACKET.is_valid() {
        return Err("the packet is valid".into());
    }
    let Planned { outs, counts } = switch.plan_packet(1, &PACKET)?;
    switch.carry_out(counts);
    Ok(outs)
}

// Gives a switch a PACKET_OUT as a plan that is carried out.
fn give_by_plan(switch: &mut Switch, message: &Message) -> Result<Outs, Fail> {
    if !message.is_valid() {
        return Err("the message is valid".into());
    }
    let Some(Planned { outs, counts }) = switch.plan_message(message)? else {
        return Err("a PACKET_OUT is planned".into());
    };
    switch.carry_out(counts);
    Ok(outs)
}

// Lets seconds pass at a switch.
fn tick(switch: &mut Switch, seconds: u32) -> Result<Outs, Fail> {
    if switch.now() > 1000 || seconds > 1000 {
        return Err("the clock has room".into());
    }
    Ok(switch.notice(&Notice::Tick(seconds))?)
}

// Tells a switch that it has come to its controller.
fn join(switch: &mut Switch, down: u64) -> Result<Outs, Fail> {
    Ok(switch.notice(&Notice::Join { down })?)
}

fn copy_of(switch: &Switch) -> Result<Switch, Fail> {
    Ok(switch.copy()?)
}

// A switch of two ports with an entry that sends every packet out of a port.
fn switch_to(alloc: Global, port: u16) -> Result<Switch, Fail> {
    let mut switch = fresh(alloc);
    let mods = adding(alloc, Match::any(), Action::output(port))?;
    let outs = give(&mut switch, &flow_mod(1, mods))?;
    if !outs.up.is_empty() {
        return Err("the entry is added".into());
    }
    Ok(switch)
}

// Whether one message is sent to the controller, and no packet out of a port.
fn is_message(outs: &Outs, want: &Message) -> bool {
    match outs.up.as_slice() {
        [message] => message.same(want) && outs.out.is_empty(),
        _ => false,
    }
}

// Whether one packet is sent out of a port, and no message to the controller.
fn is_packet(outs: &Outs, port: u16, packet: Packet) -> bool {
    outs.up.is_empty() && outs.out.as_slice() == [(port, packet)].as_slice()
}

fn is_silent(outs: &Outs) -> bool {
    outs.up.is_empty() && outs.out.is_empty()
}

fn are_same(one: &[Entry], two: &[Entry]) -> bool {
    one.len() == two.len() && one.iter().zip(two.iter()).all(|(a, b)| a.same(b))
}

// The ERROR that refuses a request, with its first 64 bytes.
fn error_for(alloc: Global, request: &Message, kind: u16, code: u16) -> Result<Message, Fail> {
    if !request.is_valid() {
        return Err("the request is valid".into());
    }
    let mut bytes = encode(alloc, request)?;
    bytes.truncate(64);
    Ok(Message::Error {
        xid: request.xid(),
        kind,
        code,
        content: Listed::of(bytes),
    })
}

#[test]
fn features(rt: HostRuntime) -> Result<(), Fail> {
    let alloc = rt.alloc();
    let mut switch = fresh(alloc);
    let outs = give(&mut switch, &Message::features_request(7))?;
    let [reply] = outs.up.as_slice() else {
        return Err("one message".into());
    };
    assert!(rt; reply.is_valid());
    assert_eq!(rt; encode(alloc, reply)?.as_slice(), FEATURES);
    Ok(())
}

// Fails where a switch answers a message by anything but one other.
fn answers(switch: &mut Switch, message: &Message, want: &Message) -> Result<(), Fail> {
    if !is_message(&give(switch, message)?, want) {
        return Err("one message is the answer".into());
    }
    Ok(())
}

// Fails where a switch sends anything at a message.
fn is_taken(switch: &mut Switch, message: &Message) -> Result<(), Fail> {
    if !is_silent(&give(switch, message)?) {
        return Err("nothing is sent".into());
    }
    Ok(())
}

#[test]
fn configuration_and_barrier(rt: HostRuntime) -> Result<(), Fail> {
    let mut switch = fresh(rt.alloc());
    let config = Message::get_config_request(7);
    answers(&mut switch, &config, &Message::get_config_reply(7, 0, 128))?;
    is_taken(&mut switch, &Message::set_config(6, 1, 64))?;
    answers(&mut switch, &config, &Message::get_config_reply(7, 1, 64))?;
    answers(
        &mut switch,
        &Message::barrier_request(8),
        &Message::barrier_reply(8),
    )
}

#[test]
fn echo_and_hello(rt: HostRuntime) -> Result<(), Fail> {
    let alloc = rt.alloc();
    let mut switch = fresh(alloc);
    let echo = Message::echo_request(5, some_bytes(alloc, b"abc")?);
    let reply = Message::echo_reply(5, some_bytes(alloc, b"abc")?);
    answers(&mut switch, &echo, &reply)?;
    is_taken(&mut switch, &reply)?;
    is_taken(&mut switch, &Message::hello(9))
}

// Requests that a switch with one entry for every packet refuses, each with the type and the code of the ERROR.
type Refused = Vec<(Message, u16, u16)>;

fn refused_flow_mods(alloc: Global) -> Result<Refused, Fail> {
    let add = adding(alloc, Match::any(), Action::output(1))?;
    let web = Match {
        tp_dst: Some(80),
        ..Match::any()
    };
    let mut all = Vec::new(alloc);
    for (matches, flags, command, code) in [
        (Match::any(), OFPFF_EMERG, 0, OFPFMFC_EPERM),
        (Match::any(), OFPFF_EMERG, 5, OFPFMFC_EPERM),
        (Match::any(), 0, 5, OFPFMFC_BAD_COMMAND),
        (web, OFPFF_CHECK_OVERLAP, 0, OFPFMFC_OVERLAP),
    ] {
        let mods = adding(alloc, matches, Action::output(1))?
            .with_flags(flags)
            .with_command(command);
        all.push((flow_mod(20, mods), OFPET_FLOW_MOD_FAILED, code))?;
    }
    all.push((
        flow_mod(21, add.with_command(9)),
        OFPET_FLOW_MOD_FAILED,
        OFPFMFC_BAD_COMMAND,
    ))?;
    Ok(all)
}

fn other_action(alloc: Global, kind: u16, len: usize) -> Result<Action, AllocError> {
    Ok(Action::Other {
        kind,
        body: Listed::of(vec![in alloc; 0u8; len]?),
    })
}

fn refused_actions(alloc: Global) -> Result<Refused, Fail> {
    let mut all = Vec::new(alloc);
    for (action, code) in vec![in alloc;
        (other_action(alloc, OFPAT_VENDOR, 4)?, OFPBAC_BAD_VENDOR),
        (other_action(alloc, OFPAT_ENQUEUE, 12)?, OFPBAC_BAD_TYPE),
        (Action::output(3), OFPBAC_BAD_OUT_PORT),
        (Action::output(0), OFPBAC_BAD_OUT_PORT),
        (Action::output(OFPP_NORMAL), OFPBAC_BAD_OUT_PORT),
        (Action::output(OFPP_TABLE), OFPBAC_BAD_OUT_PORT),
        (Action::SetVlanVid(4096), OFPBAC_BAD_ARGUMENT),
        (Action::SetVlanPcp(8), OFPBAC_BAD_ARGUMENT),
    ]? {
        let mods = adding(alloc, Match::any(), action)?;
        all.push((flow_mod(22, mods), OFPET_BAD_ACTION, code))?;
    }
    Ok(all)
}

fn other_message(alloc: Global, kind: u8) -> Result<Message, AllocError> {
    Ok(Message::Other {
        xid: 23,
        kind,
        body: some_bytes(alloc, b"\x00\x00\x23\x20")?,
    })
}

fn refused_requests(alloc: Global) -> Result<Refused, Fail> {
    let mut all = Vec::new(alloc);
    let short = packet_out(alloc, 24, 2, &RECORD[..35])?;
    all.push((short, OFPET_BAD_REQUEST, OFPBRC_BAD_LEN))?;
    // the actions come before the packet
    let nowhere = packet_out(alloc, 24, 3, &RECORD[..35])?;
    all.push((nowhere, OFPET_BAD_ACTION, OFPBAC_BAD_OUT_PORT))?;
    let vendor = other_message(alloc, OFPT_VENDOR)?;
    all.push((vendor, OFPET_BAD_REQUEST, OFPBRC_BAD_VENDOR))?;
    let stats = other_message(alloc, OFPT_STATS_REQUEST)?;
    all.push((stats, OFPET_BAD_REQUEST, OFPBRC_BAD_TYPE))?;
    let packet_in = Message::packet_in(25, 1, OFPR_NO_MATCH, some_bytes(alloc, &RECORD)?);
    all.push((packet_in, OFPET_BAD_REQUEST, OFPBRC_BAD_TYPE))?;
    Ok(all)
}

#[test]
fn refusals(rt: HostRuntime) -> Result<(), Fail> {
    let alloc = rt.alloc();
    let mut rows = refused_flow_mods(alloc)?;
    rows.append(&mut refused_actions(alloc)?)?;
    rows.append(&mut refused_requests(alloc)?)?;
    let mut switch = switch_to(alloc, 2)?;
    let before = switch.table().copy()?;
    for (request, kind, code) in rows {
        let outs = give(&mut switch, &request)?;
        let error = error_for(alloc, &request, kind, code)?;
        assert!(rt;
            is_message(&outs, &error),
            "{:?} for {request:?}",
            outs.up.first()
        );
        assert!(rt;
            are_same(switch.table().entries(), before.entries()),
            "after {request:?}"
        );
    }
    Ok(())
}

#[test]
fn a_full_table(rt: HostRuntime) -> Result<(), Fail> {
    let alloc = rt.alloc();
    let mut switch = fresh(alloc);
    for address in 0..TABLE_CAPACITY as u64 {
        let matches = Match {
            dl_dst: Some(address),
            ..Match::any()
        };
        let mods = adding(alloc, matches, Action::output(2))?;
        assert!(rt;
            is_silent(&give(&mut switch, &flow_mod(1, mods))?),
            "at {address}"
        );
    }
    let one_more = flow_mod(2, adding(alloc, Match::any(), Action::output(2))?);
    let outs = give(&mut switch, &one_more)?;
    let error = error_for(
        alloc,
        &one_more,
        OFPET_FLOW_MOD_FAILED,
        OFPFMFC_ALL_TABLES_FULL,
    )?;
    assert!(rt; is_message(&outs, &error));
    assert_eq!(rt; switch.table().entries().len(), TABLE_CAPACITY);
    Ok(())
}

// The PACKET_IN of the packet.
fn arrival(alloc: Global, xid: u32, reason: u8) -> Result<Message, AllocError> {
    Ok(Message::packet_in(xid, 1, reason, some_bytes(alloc, &RECORD)?))
}

#[test]
fn where_packets_go(rt: HostRuntime) -> Result<(), Fail> {
    let alloc = rt.alloc();
    let mut switch = fresh(alloc);
    for xid in [1, 2] {
        let missed = take(&mut switch)?;
        assert!(rt; is_message(&missed, &arrival(alloc, xid, OFPR_NO_MATCH)?));
    }
    for (port, out) in [
        (2, Some(2)),
        (1, None),
        (OFPP_IN_PORT, Some(1)),
        (OFPP_FLOOD, Some(2)),
        (OFPP_ALL, Some(2)),
    ] {
        let outs = take(&mut switch_to(alloc, port)?)?;
        let right = match out {
            Some(port) => is_packet(&outs, port, PACKET),
            None => is_silent(&outs),
        };
        assert!(rt; right, "{:?} for {port}", outs.out.first());
    }
    let mut switch = switch_to(alloc, OFPP_CONTROLLER)?;
    let told = take(&mut switch)?;
    assert!(rt; is_message(&told, &arrival(alloc, 1, OFPR_ACTION)?));
    let counts = switch
        .table()
        .entries()
        .first()
        .map(|entry| (entry.packets, entry.bytes));
    assert_eq!(rt; counts, Some((1, 64)));
    Ok(())
}

#[test]
fn packets_out(rt: HostRuntime) -> Result<(), Fail> {
    let alloc = rt.alloc();
    // the entry takes what goes to the table alone
    for (port, out, packets) in [(OFPP_TABLE, 2, 1), (2, 2, 0), (OFPP_IN_PORT, 1, 0)] {
        let mut switch = switch_to(alloc, 2)?;
        let outs = give(&mut switch, &packet_out(alloc, 9, port, &RECORD)?)?;
        assert!(rt;
            is_packet(&outs, out, PACKET),
            "{:?} for {port}",
            outs.out.first()
        );
        let count = switch.table().entries().first().map(|entry| entry.packets);
        assert_eq!(rt; count, Some(packets));
    }
    let mut switch = fresh(alloc);
    let missed = give(&mut switch, &packet_out(alloc, 9, OFPP_TABLE, &RECORD)?)?;
    assert!(rt; is_message(&missed, &arrival(alloc, 1, OFPR_NO_MATCH)?));
    plans_are_steps(alloc)
}

// Fails where two answers do not send the same.
fn send_same(one: &Outs, two: &Outs) -> Result<(), Fail> {
    if one.up.same(&two.up) && one.out.as_slice() == two.out.as_slice() {
        return Ok(());
    }
    Err("the same is sent".into())
}

// Fails where a plan that is carried out is not the step: here a packet and a PACKET_OUT to TABLE are told of, and counted.
fn plans_are_steps(alloc: Global) -> Result<(), Fail> {
    let mut switch = switch_to(alloc, OFPP_CONTROLLER)?;
    let mut copy = copy_of(&switch)?;
    let request = packet_out(alloc, 9, OFPP_TABLE, &RECORD)?;
    send_same(&take(&mut switch)?, &take_by_plan(&mut copy)?)?;
    send_same(
        &give(&mut switch, &request)?,
        &give_by_plan(&mut copy, &request)?,
    )?;
    if !are_same(switch.table().entries(), copy.table().entries()) {
        return Err("the same is counted".into());
    }
    Ok(())
}

// The FLOW_REMOVED of an entry for every packet that went after so many seconds.
fn removal(reason: u8, seconds: u32) -> Message {
    Message::FlowRemoved {
        xid: 1,
        matches: Match::any(),
        cookie: 9,
        priority: 5,
        reason,
        duration_sec: seconds,
        duration_nsec: 0,
        idle_timeout: 3,
        packet_count: 0,
        byte_count: 0,
    }
}

// A switch with an entry for every packet that goes after three idle seconds.
fn switch_with_idle(alloc: Global, flags: u16) -> Result<Switch, Fail> {
    let mods = adding(alloc, Match::any(), Action::output(2))?
        .with_cookie(9)
        .with_idle_timeout(3)
        .with_flags(flags);
    let mut switch = fresh(alloc);
    is_taken(&mut switch, &flow_mod(1, mods))?;
    Ok(switch)
}

#[test]
fn an_idle_entry_is_told_of(rt: HostRuntime) -> Result<(), Fail> {
    let mut switch = switch_with_idle(rt.alloc(), OFPFF_SEND_FLOW_REM)?;
    let mut untold = switch_with_idle(rt.alloc(), 0)?;
    assert!(rt; is_silent(&tick(&mut switch, 2)?));
    let idle = tick(&mut switch, 1)?;
    assert!(rt; is_message(&idle, &removal(OFPRR_IDLE_TIMEOUT, 3)));
    assert!(rt; switch.now() == 3 && switch.table().entries().is_empty());
    assert!(rt; is_silent(&tick(&mut untold, 3)?));
    Ok(())
}

#[test]
fn a_deleted_entry_is_told_of(rt: HostRuntime) -> Result<(), Fail> {
    let alloc = rt.alloc();
    let mut switch = switch_with_idle(alloc, OFPFF_SEND_FLOW_REM)?;
    let mut copy = copy_of(&switch)?;
    let delete = flow_mod(2, FlowMod::delete(alloc, Match::any()));
    answers(&mut switch, &delete, &removal(OFPRR_DELETE, 0))?;
    answers(&mut copy, &delete, &removal(OFPRR_DELETE, 0))?;
    assert!(rt; switch.table().entries().is_empty());
    is_taken(&mut switch_with_idle(alloc, 0)?, &delete)
}

fn told_of_port_12(alloc: Global, down: bool) -> Result<Outs, AllocError> {
    Switch::fresh(alloc, 0, 12).notice(&Notice::Port { port: 12, down })
}

#[test]
fn ports_and_joins_are_told(rt: HostRuntime) -> Result<(), Fail> {
    let alloc = rt.alloc();
    for (down, state) in [(true, OFPPS_LINK_DOWN), (false, 0)] {
        let outs = told_of_port_12(alloc, down)?;
        let port = PortDesc {
            port_no: 12,
            hw_addr: 0x0200_0001_000c,
            name: *b"p12\x00\x00\x00\x00\x00\x00\x00\x00\x00\x00\x00\x00\x00",
            config: 0,
            state,
            curr: 0,
            advertised: 0,
            supported: 0,
            peer: 0,
        };
        let want = Message::PortStatus {
            xid: 1,
            reason: OFPPR_MODIFY,
            port,
        };
        assert!(rt; is_message(&outs, &want), "{:?}", outs.up.first());
    }
    let mut switch = fresh(alloc);
    let greeting = join(&mut switch, 2)?;
    assert!(rt; is_message(&greeting, &Message::hello(1)));
    let outs = give(&mut switch, &Message::features_request(3))?;
    let Some(Message::FeaturesReply { features, .. }) = outs.up.first() else {
        return Err("a FEATURES_REPLY".into());
    };
    let states = [0, OFPPS_LINK_DOWN];
    assert!(rt; features.ports.iter().map(|port| port.state).eq(states));
    Ok(())
}
