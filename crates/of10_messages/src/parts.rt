//! Parts of a message as values.

ghost use Rattle.std.specs.Prelude.{◌≡◌, ◌+◌, ◌≤◌, IfOk, drop, length, take};
ghost use Rattle.of10_match.specs.Wire.{match_of};
ghost use Rattle.of10_messages.specs.Valid.{AreBytes};

use listed::Listed;
use of10_match::Match;
use std::alloc::{AllocError, Global};
use wire_bytes::rest_at;

/// A copy of the bytes from a place on.
pub(crate) fn copy_at(alloc: Global, bytes: &[u8], place: usize) -> Result<Listed<u8>, AllocError>
    requires { place ≤ length bytes.now }
    ensures { IfOk result (λ copy. copy ≡ drop place bytes.now) }
{
    Ok(Listed::of(Vec::from_slice(alloc, rest_at(bytes, place))?))
}

/// The match of forty bytes at a place.
pub(crate) fn match_at(bytes: &[u8], place: usize) -> Match
    requires { place + 40 ≤ length bytes.now }
    ensures { result ≡ match_of (take 40 (drop place bytes.now)) }
{
    match rest_at(bytes, place).first_chunk::<40>() {
        Some(wire) => Match::from_wire(wire),
        None => unreachable!(),
    }
}

/// Bytes are bytes. A function that does nothing: where a message is built of them, its clause is a fact for the proof.
pub(crate) fn bytes_are_bytes(bytes: &[u8])
    ensures { AreBytes bytes.now }
{}
