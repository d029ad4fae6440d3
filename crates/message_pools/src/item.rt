//! What a pool holds.
ghost use Rattle.listed.specs.Plain.{plain};

use listed::Plain;
use of10_match::{Match, Packet};
use of10_messages::{Message, Notice};

/// One thing that waits for its actor.
#[derive(Clone, Debug, Drop)]
pub enum Item {
    /// A message between a switch and its controller.
    Message(Message),
    /// News for a controller: the channel to one of its switches is gone.
    Gone,
    /// A packet at a port of a switch, or on its way to a host.
    Packet(Packet),
    /// What a switch is told by its surroundings.
    Notice(Notice),
    /// What an operator tells a controller: packets that the match takes are to be denied.
    Policy(Match),
}

impl Plain for Item {
    fn same(&self, other: &Self) -> bool {
        match (self, other) {
            (Item::Message(one), Item::Message(two)) => one.same(two),
            (Item::Gone, Item::Gone) => true,
            (Item::Packet(one), Item::Packet(two)) => one.same(two),
            (Item::Notice(one), Item::Notice(two)) => one.same(two),
            (Item::Policy(one), Item::Policy(two)) => Plain::same(one, two),
            _ => false,
        }
    }

    ghost clones = { Prim.search plain };
}
