//! Laws of the definitions, each the contract of a function that does nothing.

ghost use Rattle.std.specs.Prelude.{◌≡◌, ◌<◌, ◌↔◌, ℕ, List, IsTrue, false, length, slice_index};
ghost use Rattle.std.specs.Cmp.{IsTotalOrder};
ghost use Rattle.std.specs.declared.cmp.Ordering.TheVariants.{Equal};
ghost use Rattle.of10_match.specs.Header.{IsValidHeader, header_cmp};
ghost use Rattle.of10_match.specs.Match.{Covers, IsValidMatch, Overlaps, Takes, any_match, covers, has_wildcard, overlaps, same, takes};
ghost use Rattle.of10_match.specs.Packet.{IsValidPacket, packet_of, record_of};
ghost use Rattle.of10_match.specs.Wire.{match_bytes, match_of};
ghost use Rattle.of10_match.specs.declared.header.Header.{Header};
ghost use Rattle.of10_match.specs.declared.matches.Match.{Match};
ghost use Rattle.of10_match.specs.declared.packet.Packet.{Packet};

use crate::header::Header;

/// Headers are ordered field by field. The order is total, and headers that compare equal are one.
pub fn headers_in_field_order()
    ensures fields { (a b : Header) → ⟦<Header as Ord>⟧.cmp a b ≡ header_cmp a b }
    ensures total { IsTotalOrder header_cmp }
    ensures one { (a b : Header) → header_cmp a b ≡ Equal → a ≡ b }
{}

/// What any record of bytes is read as is a valid packet.
#[tactic(auto, unfolding(crate::specs::Packet::packet_of))]
pub fn records_hold_valid_packets()
    ensures { (bytes : List ℕ) → ((i : ℕ) → slice_index bytes i < 256) → IsValidPacket (packet_of bytes) }
{}

/// The record of a packet has 36 bytes, and that of a valid packet is read as that packet.
#[tactic(auto, unfolding(crate::specs::Packet::packet_of, crate::specs::Packet::record_of))]
pub fn record_reads_back()
    ensures length { (p : Packet) → length (record_of p) ≡ 36 }
    ensures back { (p : Packet) → IsValidPacket p → packet_of (record_of p) ≡ p }
{}

/// What any forty bytes are read as is a valid match.
pub fn bytes_hold_valid_matches()
    ensures { (bytes : List ℕ) → ((i : ℕ) → slice_index bytes i < 256) → IsValidMatch (match_of bytes) }
{}

/// The bytes of a match are forty, and those of a valid match are read as that match.
#[tactic(auto, unfolding(crate::specs::Wire::match_bytes))]
pub fn match_reads_back()
    ensures length { (m : Match) → length (match_bytes m) ≡ 40 }
    ensures back { (m : Match) → IsValidMatch m → match_of (match_bytes m) ≡ m }
{}

/// The tests of matches, field by field, say what matches take.
pub fn tests_mean_what_matches_take()
    ensures takes { (m : Match) (port : ℕ) (h : Header) → IsTrue (takes m port h) ↔ Takes m port h }
    ensures covers { (m n : Match) → IsValidMatch m → IsValidMatch n → IsTrue (covers m n) ↔ Covers m n }
    ensures overlaps { (m n : Match) → IsValidMatch m → IsValidMatch n → IsTrue (overlaps m n) ↔ Overlaps m n }
{}

/// Two matches are one exactly where each field is.
pub fn same_matches_are_one()
    ensures { (m n : Match) → IsTrue (same m n) ↔ (m ≡ n) }
{}

/// A valid match takes all that it takes, and something.
pub fn a_match_covers_itself()
    ensures covers { (m : Match) → IsValidMatch m → IsTrue (covers m m) }
    ensures overlaps { (m : Match) → IsValidMatch m → IsTrue (overlaps m m) }
{}

/// The match with every field wildcarded takes everything.
pub fn any_match_takes_all()
    ensures { (port : ℕ) (h : Header) → Takes any_match port h }
{}

/// A match without a wildcard takes no two packets that differ in port or header.
pub fn exact_matches_take_one()
    ensures { (m : Match) (port other : ℕ) (h g : Header) → IsValidMatch m → has_wildcard m ≡ false
        → Takes m port h → Takes m other g → (port ≡ other) × (h ≡ g) }
{}
