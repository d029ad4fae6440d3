//! What a flow entry does with a packet.

ghost use Rattle.listed.specs.Plain.{plain};

use listed::{Listed, Plain};

/// Bytes that are not looked into.
pub type Bytes = Listed<u8>;

/// An action, after OpenFlow 1.0.0 section 5.2.4 (`ofp_action_header` and the structs after it).
#[derive(Clone, Debug, Drop)]
pub enum Action {
    /// Send the packet out of a port; `max_len` is how much of it a controller gets.
    Output { port: u16, max_len: u16 },
    SetVlanVid(u16),
    SetVlanPcp(u8),
    StripVlan,
    /// An Ethernet address of 48 bits.
    SetDlSrc(u64),
    /// An Ethernet address of 48 bits.
    SetDlDst(u64),
    SetNwSrc(u32),
    SetNwDst(u32),
    SetNwTos(u8),
    SetTpSrc(u16),
    SetTpDst(u16),
    /// An action of any other type, Enqueue among them: what stands after its type and length.
    Other { kind: u16, body: Bytes },
}

/// Actions in the order in which they are applied.
pub type Actions10 = Listed<Action>;

impl Plain for Action {
    fn same(&self, other: &Self) -> bool {
        match (self, other) {
            (
                Action::Output { port, max_len },
                Action::Output {
                    port: other_port,
                    max_len: other_max_len,
                },
            ) => port == other_port && max_len == other_max_len,
            (Action::SetVlanVid(one), Action::SetVlanVid(two)) => one == two,
            (Action::SetVlanPcp(one), Action::SetVlanPcp(two)) => one == two,
            (Action::StripVlan, Action::StripVlan) => true,
            (Action::SetDlSrc(one), Action::SetDlSrc(two)) => one == two,
            (Action::SetDlDst(one), Action::SetDlDst(two)) => one == two,
            (Action::SetNwSrc(one), Action::SetNwSrc(two)) => one == two,
            (Action::SetNwDst(one), Action::SetNwDst(two)) => one == two,
            (Action::SetNwTos(one), Action::SetNwTos(two)) => one == two,
            (Action::SetTpSrc(one), Action::SetTpSrc(two)) => one == two,
            (Action::SetTpDst(one), Action::SetTpDst(two)) => one == two,
            (
                Action::Other { kind, body },
                Action::Other {
                    kind: other_kind,
                    body: other_body,
                },
            ) => kind == other_kind && body.same(other_body),
            _ => false,
        }
    }

    ghost clones = { Prim.search plain };
}
