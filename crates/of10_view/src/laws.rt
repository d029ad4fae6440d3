//! Laws of the definitions, each the contract of a function that does nothing but name the laws that it stands on.

ghost use Rattle.std.specs.Prelude.{◌≡◌, ◌++◌, ◌<◌, ℕ, List, [], None, length, map, option_map};
ghost use Rattle.of10_match.specs.Wire.{match_of};
ghost use Rattle.of10_messages.specs.Reading.{Reads, action_of};
ghost use Rattle.of10_messages.specs.Refusal.{refusal_of};
ghost use Rattle.of10_messages.specs.Wire.{action_kind, message_kind, message_xid};
ghost use Rattle.of10_messages.specs.declared.bad.BadMessage.{BadMessage};
ghost use Rattle.of10_messages.specs.declared.message.Message.{Message};
ghost use Rattle.of10_view.specs.Parts.{action_parts, actions_part, data_part, header_of, match_part, message_actions, message_data, message_match};
ghost use Rattle.of10_view.specs.Stream.{Broken, Call, IsCut, IsDrained, Whole, fed, held_after, left_of, next_of, taken};

use of10_messages::laws::{actions_stand_one_after_the_other, what_is_not_refused};

/// What a message has is what the parts of its bytes are read as.
pub fn fields_are_readings_of_parts()
    ensures header { (bytes : List ℕ) (m : Message) → Reads bytes m → header_of bytes ≡ (message_kind m, length bytes, message_xid m) }
    ensures matches { (bytes : List ℕ) (m : Message) → Reads bytes m → message_match m ≡ option_map match_of (match_part bytes) }
    ensures actions { (bytes : List ℕ) (m : Message) → Reads bytes m
        → message_actions m ≡ map (λ part. action_of part.1) (action_parts (actions_part bytes)) }
    ensures kinds { (bytes : List ℕ) (m : Message) → Reads bytes m
        → map action_kind (message_actions m) ≡ map (λ part. part.0) (action_parts (actions_part bytes)) }
    ensures data { (bytes : List ℕ) (m : Message) → Reads bytes m → message_data m ≡ data_part bytes }
{
    what_is_not_refused();
    actions_stand_one_after_the_other();
}

/// A message is given exactly where it is readable and begins what is held; then less is held.
pub fn a_message_that_begins_is_given()
    ensures given { (m more : List ℕ) → refusal_of m ≡ None → next_of (m ++ more) ≡ Whole m }
    ensures begins { (held m : List ℕ) → next_of held ≡ Whole m → (refusal_of m ≡ None) × (held ≡ m ++ left_of held) }
    ensures shorter { (held m : List ℕ) → next_of held ≡ Whole m → length (left_of held) < length held }
    ensures drained { (held : List ℕ) → ((m : List ℕ) → next_of held ≡ Whole m → ⊥) → IsDrained held }
{
    of10_messages::laws::what_is_not_refused();
}

/// Once a message or a broken stream is the answer, whatever is fed afterwards changes neither.
pub fn answers_stay()
    ensures whole { (held more m : List ℕ) → next_of held ≡ Whole m → next_of (held ++ more) ≡ Whole m }
    ensures broken { (held more : List ℕ) (bad : BadMessage) → next_of held ≡ Broken bad → next_of (held ++ more) ≡ Broken bad }
{}

/// What was fed is the messages that were taken out, in order, and then what is held: for each list of calls of a new
/// cutter.
pub fn what_was_fed_is_kept()
    ensures { (calls : List Call) → IsCut (fed calls) (taken [] calls) (held_after [] calls) }
{}

/// However a stream was cut into pieces, the same messages are taken from it: what was taken so far begins what is taken
/// later or by another cutter that was fed as much or more, once that one has no further message to give.
pub fn pieces_do_not_matter()
    ensures begins { (stream more : List ℕ) (messages others : List (List ℕ)) (held kept : List ℕ) → IsCut stream messages held
        → IsCut (stream ++ more) others kept → IsDrained kept → (rest : List (List ℕ)) × (others ≡ messages ++ rest) }
    ensures same { (stream : List ℕ) (messages others : List (List ℕ)) (held kept : List ℕ) → IsCut stream messages held → IsCut stream others kept
        → IsDrained held → IsDrained kept → (messages ≡ others) × (held ≡ kept) }
{
    of10_messages::laws::what_is_not_refused();
}
