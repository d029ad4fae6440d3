//! Laws of the definitions: contracts of functions that do nothing. A call in a body names a law that the proof stands on.

ghost use Rattle.std.specs.Prelude.{◌≡◌, ◌≢◌, ◌∷◌, ◌+◌, ◌<◌, ◌≤◌, ◌++◌, ℕ, List, [], None, Some, false, true, drop, length, slice_index};
ghost use Rattle.byteorder.specs.Endian.{big_from};
ghost use Rattle.of10_messages.specs.Lengths.{actions_len, message_len};
ghost use Rattle.of10_messages.specs.Reading.{Reads};
ghost use Rattle.of10_messages.specs.Refusal.{IsAccepted, IsGoodAction, action_starts, first_bad, is_bad_action, least_length, out_actions, refusal_of, told_length};
ghost use Rattle.of10_messages.specs.Valid.{HasValidBody, IsValidMessage};
ghost use Rattle.of10_messages.specs.Wire.{actions_bytes, canon_bytes};
ghost use Rattle.of10_messages.specs.declared.action.Action.{Action};
ghost use Rattle.of10_messages.specs.declared.bad.BadMessage.TheVariants.{OutOfMemory};
ghost use Rattle.of10_messages.specs.declared.message.Message.{Message};

/// The one encoding of a valid message is read as that message.
pub fn message_reads_back()
    ensures { (m : Message) → IsValidMessage m → Reads (canon_bytes m) m }
{
    of10_match::laws::match_reads_back();
}

/// What any bytes are read as is a valid message.
pub fn bytes_hold_valid_messages()
    ensures { (bytes : List ℕ) (m : Message) → ((i : ℕ) → slice_index bytes i < 256) → Reads bytes m → IsValidMessage m }
{
    of10_match::laws::bytes_hold_valid_matches();
}

/// No message is a proper beginning of another.
pub fn no_message_begins_another()
    ensures { (bytes more : List ℕ) → refusal_of bytes ≡ None → refusal_of (bytes ++ more) ≡ None → more ≡ [] }
{}

/// Bytes are not refused exactly where their header, their length and their actions are as they should be; and what
/// follows for their length and their actions by their type.
pub fn what_is_not_refused()
    ensures parts { (bytes : List ℕ) → refusal_of bytes ≡ None → IsAccepted bytes }
    ensures only { (bytes : List ℕ) → IsAccepted bytes → refusal_of bytes ≡ None }
    ensures least { (bytes : List ℕ) → IsAccepted bytes → least_length (slice_index bytes 1) ≤ length bytes }
    ensures room { (bytes : List ℕ) → IsAccepted bytes → slice_index bytes 1 ≡ 13 → 16 + big_from 14 2 bytes ≤ length bytes }
    ensures packet_out { (bytes : List ℕ) → IsAccepted bytes → slice_index bytes 1 ≡ 13 → first_bad (out_actions bytes) ≡ None }
    ensures flow_mod { (bytes : List ℕ) → IsAccepted bytes → slice_index bytes 1 ≡ 14 → first_bad (drop 72 bytes) ≡ None }
{}

/// A refusal is never `OutOfMemory`.
pub fn no_refusal_is_want_of_memory()
    ensures { (bytes : List ℕ) → refusal_of bytes ≢ Some OutOfMemory }
{}

/// Actions start one after the other, each where the one before it ends by its own length. The first bad one is the first
/// where that is bad, and else the first bad one after it.
pub fn the_first_bad_action()
    ensures good { (bytes : List ℕ) → is_bad_action bytes ≡ false → IsGoodAction bytes }
    ensures bad { (bytes : List ℕ) → IsGoodAction bytes → is_bad_action bytes ≡ false }
    ensures starts { (bytes : List ℕ) → 0 < length bytes → 0 < told_length bytes
        → action_starts 0 bytes ≡ bytes ∷ action_starts 0 (drop (told_length bytes) bytes) }
    ensures none { first_bad [] ≡ None }
    ensures here { (bytes : List ℕ) → 0 < length bytes → is_bad_action bytes ≡ true → first_bad bytes ≡ Some bytes }
    ensures later { (bytes : List ℕ) → 0 < length bytes → is_bad_action bytes ≡ false
        → first_bad bytes ≡ first_bad (drop (told_length bytes) bytes) }
{}

/// Actions of which none is bad: the first is as long as it says, and the others stand after it.
pub fn actions_stand_one_after_the_other()
    ensures first { (bytes : List ℕ) → 0 < length bytes → first_bad bytes ≡ None → IsGoodAction bytes }
    ensures starts { (bytes : List ℕ) → 0 < length bytes → first_bad bytes ≡ None
        → action_starts 0 bytes ≡ bytes ∷ action_starts 0 (drop (told_length bytes) bytes) }
    ensures others { (bytes : List ℕ) → 0 < length bytes → first_bad bytes ≡ None → first_bad (drop (told_length bytes) bytes) ≡ None }
{}

/// Actions have as many bytes as the sum of the lengths of their kinds.
pub fn lengths_of_actions()
    ensures { (actions : List Action) → length (actions_bytes actions) ≡ actions_len actions }
{}

/// A message whose fields are valid has as many bytes as its type says.
pub fn lengths_of_messages()
    ensures { (m : Message) → HasValidBody m → length (canon_bytes m) ≡ message_len m }
{}
