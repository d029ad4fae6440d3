//! Whether two items have one mask, told without making either.
ghost use Rattle.std.specs.Prelude.{◌≡◌, ◌↔◌, IsTrue, None, Some};
ghost use Rattle.masked_equivalence.specs.Mask.{decoded_kind, masked, masked_message, masked_mods};

use listed::Plain;
use message_pools::Item;
use of10_messages::{FlowMod, Message};

/// Whether two items differ in nothing but what a mask hides.
pub fn alike(a: &Item, b: &Item) -> bool
    ensures { IsTrue result ↔ (masked a.now ≡ masked b.now) }
{
    match (a, b) {
        (Item::Message(one), Item::Message(two)) => messages_alike(one, two),
        (Item::Gone, Item::Gone) => true,
        (Item::Packet(one), Item::Packet(two)) => one.same(two),
        (Item::Notice(one), Item::Notice(two)) => one.same(two),
        (Item::Policy(one), Item::Policy(two)) => Plain::same(one, two),
        _ => false,
    }
}

/// Whether two messages are of one type and differ in nothing but what a mask hides.
fn messages_alike(one: &Message, two: &Message) -> bool
    ensures { IsTrue result ↔ (masked_message one.now ≡ masked_message two.now) }
{
    match (one, two) {
        (Message::Hello { .. }, Message::Hello { .. }) => true,
        (Message::FeaturesRequest { .. }, Message::FeaturesRequest { .. }) => true,
        (Message::GetConfigRequest { .. }, Message::GetConfigRequest { .. }) => true,
        (Message::BarrierRequest { .. }, Message::BarrierRequest { .. }) => true,
        (Message::BarrierReply { .. }, Message::BarrierReply { .. }) => true,
        (Message::Error { .. }, Message::Error { .. }) => errors_alike(one, two),
        (Message::EchoRequest { .. }, Message::EchoRequest { .. }) => echo_requests_alike(one, two),
        (Message::EchoReply { .. }, Message::EchoReply { .. }) => echo_replies_alike(one, two),
        (Message::FeaturesReply { .. }, Message::FeaturesReply { .. }) => features_replies_alike(
            one, two,
        ),
        (Message::GetConfigReply { .. }, Message::GetConfigReply { .. }) => config_replies_alike(
            one, two,
        ),
        (Message::SetConfig { .. }, Message::SetConfig { .. }) => config_settings_alike(one, two),
        (Message::PacketIn { .. }, Message::PacketIn { .. }) => packet_ins_alike(one, two),
        (Message::FlowRemoved { .. }, Message::FlowRemoved { .. }) => removals_alike(one, two),
        (Message::PortStatus { .. }, Message::PortStatus { .. }) => port_statuses_alike(one, two),
        (Message::PacketOut { .. }, Message::PacketOut { .. }) => packet_outs_alike(one, two),
        (Message::Other { .. }, Message::Other { .. }) => others_alike(one, two),
        (Message::FlowMod { mods, .. }, Message::FlowMod { mods: other, .. }) => {
            flow_mods_alike(mods, other)
        }
        _ => false,
    }
}

/// Whether two messages are ERRORs that differ in nothing but what a mask hides.
fn errors_alike(one: &Message, two: &Message) -> bool
    ensures { IsTrue result ↔ ((decoded_kind one.now ≡ Some 1) × (masked_message one.now ≡ masked_message two.now)) }
{
    let (
        Message::Error {
            kind,
            code,
            content,
            ..
        },
        Message::Error {
            kind: other_kind,
            code: other_code,
            content: other_content,
            ..
        },
    ) = (one, two)
    else {
        return false;
    };
    kind == other_kind && code == other_code && content.same(other_content)
}

/// Whether two messages are ECHO_REQUESTs that differ in nothing but what a mask hides.
fn echo_requests_alike(one: &Message, two: &Message) -> bool
    ensures { IsTrue result ↔ ((decoded_kind one.now ≡ Some 2) × (masked_message one.now ≡ masked_message two.now)) }
{
    let (Message::EchoRequest { content, .. }, Message::EchoRequest { content: other, .. }) = (
        one, two,
    ) else {
        return false;
    };
    content.same(other)
}

/// Whether two messages are ECHO_REPLYs that differ in nothing but what a mask hides.
fn echo_replies_alike(one: &Message, two: &Message) -> bool
    ensures { IsTrue result ↔ ((decoded_kind one.now ≡ Some 3) × (masked_message one.now ≡ masked_message two.now)) }
{
    let (Message::EchoReply { content, .. }, Message::EchoReply { content: other, .. }) = (one, two)
    else {
        return false;
    };
    content.same(other)
}

/// Whether two messages are FEATURES_REPLYs that differ in nothing but what a mask hides.
fn features_replies_alike(one: &Message, two: &Message) -> bool
    ensures { IsTrue result ↔ ((decoded_kind one.now ≡ Some 6) × (masked_message one.now ≡ masked_message two.now)) }
{
    let (
        Message::FeaturesReply { features, .. },
        Message::FeaturesReply {
            features: other,
            ..
        },
    ) = (one, two)
    else {
        return false;
    };
    features.same(other)
}

/// Whether two messages are GET_CONFIG_REPLYs that differ in nothing but what a mask hides.
fn config_replies_alike(one: &Message, two: &Message) -> bool
    ensures { IsTrue result ↔ ((decoded_kind one.now ≡ Some 8) × (masked_message one.now ≡ masked_message two.now)) }
{
    let (
        Message::GetConfigReply {
            flags,
            miss_send_len,
            ..
        },
        Message::GetConfigReply {
            flags: other_flags,
            miss_send_len: other_miss_send_len,
            ..
        },
    ) = (one, two)
    else {
        return false;
    };
    flags == other_flags && miss_send_len == other_miss_send_len
}

/// Whether two messages are SET_CONFIGs that differ in nothing but what a mask hides.
fn config_settings_alike(one: &Message, two: &Message) -> bool
    ensures { IsTrue result ↔ ((decoded_kind one.now ≡ Some 9) × (masked_message one.now ≡ masked_message two.now)) }
{
    let (
        Message::SetConfig {
            flags,
            miss_send_len,
            ..
        },
        Message::SetConfig {
            flags: other_flags,
            miss_send_len: other_miss_send_len,
            ..
        },
    ) = (one, two)
    else {
        return false;
    };
    flags == other_flags && miss_send_len == other_miss_send_len
}

/// Whether two messages are PACKET_INs that differ in nothing but what a mask hides.
fn packet_ins_alike(one: &Message, two: &Message) -> bool
    ensures { IsTrue result ↔ ((decoded_kind one.now ≡ Some 10) × (masked_message one.now ≡ masked_message two.now)) }
{
    let (
        Message::PacketIn {
            total_len,
            in_port,
            reason,
            content,
            ..
        },
        Message::PacketIn {
            total_len: other_total_len,
            in_port: other_in_port,
            reason: other_reason,
            content: other_content,
            ..
        },
    ) = (one, two)
    else {
        return false;
    };
    total_len == other_total_len
        && in_port == other_in_port
        && reason == other_reason
        && content.same(other_content)
}

/// Whether two messages are FLOW_REMOVEDs that differ in nothing but what a mask hides.
fn removals_alike(one: &Message, two: &Message) -> bool
    ensures { IsTrue result ↔ ((decoded_kind one.now ≡ Some 11) × (masked_message one.now ≡ masked_message two.now)) }
{
    let (
        Message::FlowRemoved {
            matches,
            priority,
            reason,
            idle_timeout,
            ..
        },
        Message::FlowRemoved {
            matches: other_matches,
            priority: other_priority,
            reason: other_reason,
            idle_timeout: other_idle_timeout,
            ..
        },
    ) = (one, two)
    else {
        return false;
    };
    Plain::same(matches, other_matches)
        && priority == other_priority
        && reason == other_reason
        && idle_timeout == other_idle_timeout
}

/// Whether two messages are PORT_STATUSes that differ in nothing but what a mask hides.
fn port_statuses_alike(one: &Message, two: &Message) -> bool
    ensures { IsTrue result ↔ ((decoded_kind one.now ≡ Some 12) × (masked_message one.now ≡ masked_message two.now)) }
{
    let (
        Message::PortStatus { reason, port, .. },
        Message::PortStatus {
            reason: other_reason,
            port: other_port,
            ..
        },
    ) = (one, two)
    else {
        return false;
    };
    reason == other_reason && port.same(other_port)
}

/// Whether two messages are PACKET_OUTs that differ in nothing but what a mask hides.
fn packet_outs_alike(one: &Message, two: &Message) -> bool
    ensures { IsTrue result ↔ ((decoded_kind one.now ≡ Some 13) × (masked_message one.now ≡ masked_message two.now)) }
{
    let (
        Message::PacketOut {
            in_port,
            actions_len,
            actions,
            content,
            ..
        },
        Message::PacketOut {
            in_port: other_in_port,
            actions_len: other_actions_len,
            actions: other_actions,
            content: other_content,
            ..
        },
    ) = (one, two)
    else {
        return false;
    };
    in_port == other_in_port
        && actions_len == other_actions_len
        && actions.same(other_actions)
        && content.same(other_content)
}

/// Whether two messages are messages whose body is not decoded that differ in nothing but what a mask hides.
fn others_alike(one: &Message, two: &Message) -> bool
    ensures { IsTrue result ↔ ((decoded_kind one.now ≡ None) × (masked_message one.now ≡ masked_message two.now)) }
{
    let (
        Message::Other { kind, body, .. },
        Message::Other {
            kind: other_kind,
            body: other_body,
            ..
        },
    ) = (one, two)
    else {
        return false;
    };
    kind == other_kind && body.same(other_body)
}

/// Whether two FLOW_MODs differ in nothing but the cookie and the buffer_id.
fn flow_mods_alike(one: &FlowMod, two: &FlowMod) -> bool
    ensures { IsTrue result ↔ (masked_mods one.now ≡ masked_mods two.now) }
{
    Plain::same(&one.matches, &two.matches)
        && one.command == two.command
        && one.idle_timeout == two.idle_timeout
        && one.hard_timeout == two.hard_timeout
        && one.priority == two.priority
        && one.out_port == two.out_port
        && one.flags == two.flags
        && one.actions.same(&two.actions)
}
