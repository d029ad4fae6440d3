//! What a controller hears.
ghost use Rattle.listed.specs.Plain.{plain};

use listed::Plain;
use of10_match::Match;
use of10_messages::Message;

/// One thing that a controller hears.
#[derive(Clone, Debug, Drop)]
pub enum UpItem {
    /// A message from a switch, with the number of the switch.
    FromSwitch(u16, Message),
    /// The channel to a switch is gone.
    Gone(u16),
    /// An operator wants packets denied that the match takes.
    Policy(Match),
}

impl Plain for UpItem {
    fn same(&self, other: &Self) -> bool {
        match (self, other) {
            (UpItem::FromSwitch(s, one), UpItem::FromSwitch(t, two)) => s == t && one.same(two),
            (UpItem::Gone(s), UpItem::Gone(t)) => s == t,
            (UpItem::Policy(one), UpItem::Policy(two)) => Plain::same(one, two),
            _ => false,
        }
    }

    ghost clones = { Prim.search plain };
}
