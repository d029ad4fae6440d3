//! The actions of a message in place.

ghost use Rattle.std.specs.Prelude.{◌≡◌, ◌<◌, ◌≤◌, ◌∷◌, ℕ, List, None, IfOk, drop, length, take};
ghost use Rattle.byteorder.specs.Endian.{big_from};
ghost use Rattle.of10_messages.specs.Reading.{action_of};
ghost use Rattle.of10_messages.specs.Refusal.{IsGoodAction, first_bad, told_length};
ghost use Rattle.of10_view.specs.Parts.{action_part, action_parts};

use of10_messages::laws::actions_stand_one_after_the_other;
use of10_messages::{Action, read_action};
use std::alloc::{AllocError, Global};
use std::marker::Model;
use wire_bytes::{front_of, rest_at, u16_at};

/// An action in place: OpenFlow 1.0.0 section 5.2.4 (`ofp_action_header`).
#[derive(Clone, Copy, Debug)]
pub struct ActionView<'a> {
    /// The type.
    pub kind: u16,
    /// All bytes of the action: its type, its length and its body.
    pub bytes: &'a [u8],
    ghost good: { IsGoodAction bytes.now },
    ghost typed: { kind ≡ big_from 0 2 bytes.now },
    ghost whole: { told_length bytes.now ≡ length bytes.now },
}

impl<'a> ActionView<'a> {
    /// The action as a value. Only one of a type above 10 takes memory.
    pub fn action(&self, alloc: Global) -> Result<Action, AllocError>
        ensures { IfOk result (λ a. a ≡ action_of self.now.bytes.now) }
    {
        read_action(alloc, self.bytes)
    }
}

/// The actions of a message, in order.
#[derive(Debug, Drop)]
pub struct Actions<'a> {
    left: &'a [u8],
}

impl<'a> Model for Actions<'a> {
    ghost Value = { List ℕ };

    ghost view = { λ a. a.left.now };

    ghost invariant = { λ a. first_bad a.left.now ≡ None };
}

impl<'a> Actions<'a> {
    /// The actions that stand one after the other in the bytes.
    pub(crate) fn of(bytes: &'a [u8]) -> Actions<'a>
        requires { first_bad bytes.now ≡ None }
        ensures { result ≡ bytes.now }
    {
        Actions { left: bytes }
    }
}

/// The length of the first of some actions.
fn first_len(bytes: &[u8]) -> usize
    requires some { 0 < length bytes.now }
    requires good { first_bad bytes.now ≡ None }
    ensures told { result ≡ told_length bytes.now }
    ensures least { 8 ≤ result }
    ensures room { result ≤ length bytes.now }
    ensures others { first_bad (drop result bytes.now) ≡ None }
    ensures good { IsGoodAction (take result bytes.now) }
    ensures kind { big_from 0 2 (take result bytes.now) ≡ big_from 0 2 bytes.now }
    ensures whole { told_length (take result bytes.now) ≡ result }
    ensures parts { action_parts bytes.now ≡ action_part bytes.now ∷ action_parts (drop result bytes.now) }
{
    // A law does nothing at run time: its clauses are facts for the proof.
    actions_stand_one_after_the_other();
    usize::from(u16_at(bytes, 2))
}

impl<'a> Iterator for Actions<'a> {
    ghost use Rattle.std.specs.Iterator.{item_count};
    ghost use Rattle.of10_view.specs.Lent.{actions_left, GivesAction};

    type Item = ActionView<'a>;

    ghost next_gives = { GivesAction };

    ghost remaining = { item_count actions_left };

    fn next(&mut self) -> Option<ActionView<'a>> {
        if self.left.is_empty() {
            return None;
        }
        let len = first_len(self.left);
        let action = ActionView {
            kind: u16_at(self.left, 0),
            bytes: front_of(self.left, len),
        };
        self.left = rest_at(self.left, len);
        Some(action)
    }
}
