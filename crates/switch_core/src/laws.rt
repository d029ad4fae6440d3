//! Laws of the definitions: contracts of functions that do nothing. A call in a body names a law that the proof stands on.

ghost use Rattle.std.specs.Prelude.{◌≡◌, ◌<◌, ◌≤◌, ◌^◌, ℕ, [], false, length, max};
ghost use Rattle.of10_match.specs.declared.packet.Packet.{Packet};
ghost use Rattle.of10_messages.specs.Valid.{IsValidMessage};
ghost use Rattle.of10_messages.specs.declared.message.Message.{Message};
ghost use Rattle.of10_messages.specs.declared.notice.Notice.{Notice};
ghost use Rattle.switch_core.specs.Plan.{is_packet_out};
ghost use Rattle.switch_core.specs.State.{IsAt, IsState};
ghost use Rattle.switch_core.specs.Step.{handled, noticed, received, sent_count, time_after};
ghost use Rattle.switch_core.specs.declared.state.State.{State};

/// A step sends fewer than 2^32 messages and packets.
pub fn a_step_sends_few()
    ensures message { (s : State) (m : Message) → IsState s → IsValidMessage m → sent_count (handled s m) < 2 ^ 32 }
    ensures packet { (s : State) (in_port : ℕ) (packet : Packet) → IsState s → sent_count (received s in_port packet) < 2 ^ 32 }
    ensures notice { (s : State) (notice : Notice) → IsState s → sent_count (noticed s notice) < 2 ^ 32 }
{
    of10_messages::laws::lengths_of_messages();
}

/// A message that is no PACKET_OUT, and a notice, send no packet, and at most one message, or as many as the table has entries.
pub fn a_step_tells_few()
    ensures message { (s : State) (m : Message) → is_packet_out m ≡ false → (length (handled s m).up ≤ max 1 (length s.table)) × ((handled s m).out ≡ []) }
    ensures notice { (s : State) (notice : Notice) → (length (noticed s notice).up ≤ max 1 (length s.table)) × ((noticed s notice).out ≡ []) }
{}

/// A step keeps the number and the ports of a switch, and its clock goes on at a tick alone, by so many seconds.
pub fn a_step_keeps_the_switch()
    ensures message { (s : State) (m : Message) → IsAt s.clock s (handled s m).state }
    ensures packet { (s : State) (in_port : ℕ) (packet : Packet) → IsAt s.clock s (received s in_port packet).state }
    ensures notice { (s : State) (notice : Notice) → IsAt (time_after s notice) s (noticed s notice).state }
{}
