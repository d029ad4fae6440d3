//! How long messages are, by their type.

ghost use Rattle.std.specs.Prelude.{◌≡◌};
ghost use Rattle.of10_messages.specs.Refusal.{extent_of};

/// How long the messages of a type are.
#[derive(Clone, Copy)]
pub(crate) enum Extent {
    /// Just that long.
    Exactly(usize),
    /// That long up to their first part of any length.
    AtLeast(usize),
}

/// The types in order. Where the whole body is kept as it is, a message has at least its header. An index into a constant
/// would copy all of it first.
static EXTENTS: [Extent; 22] = [
    Extent::AtLeast(8), // HELLO
    Extent::AtLeast(12), // ERROR
    Extent::AtLeast(8), // ECHO_REQUEST
    Extent::AtLeast(8), // ECHO_REPLY
    Extent::AtLeast(8), // VENDOR
    Extent::Exactly(8), // FEATURES_REQUEST
    Extent::AtLeast(32), // FEATURES_REPLY
    Extent::Exactly(8), // GET_CONFIG_REQUEST
    Extent::Exactly(12), // GET_CONFIG_REPLY
    Extent::Exactly(12), // SET_CONFIG
    Extent::AtLeast(18), // PACKET_IN
    Extent::Exactly(88), // FLOW_REMOVED
    Extent::Exactly(64), // PORT_STATUS
    Extent::AtLeast(16), // PACKET_OUT
    Extent::AtLeast(72), // FLOW_MOD
    Extent::AtLeast(8), // PORT_MOD
    Extent::AtLeast(8), // STATS_REQUEST
    Extent::AtLeast(8), // STATS_REPLY
    Extent::Exactly(8), // BARRIER_REQUEST
    Extent::Exactly(8), // BARRIER_REPLY
    Extent::AtLeast(8), // QUEUE_GET_CONFIG_REQUEST
    Extent::AtLeast(8), // QUEUE_GET_CONFIG_REPLY
];

/// How long the messages of a type are; no message has a type above 21.
pub(crate) fn extent_of(kind: u8) -> Extent
    ensures { result ≡ extent_of kind }
{
    let kind = usize::from(kind);
    if kind < EXTENTS.len() {
        EXTENTS[kind]
    } else {
        Extent::AtLeast(8)
    }
}
