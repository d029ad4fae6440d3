//! Numbers and parts at a place of some bytes, as the layouts of network protocols have them: big-endian.
#![tactic(auto)]

ghost use Rattle.std.specs.Prelude.{◌≡◌, ◌+◌, ◌<◌, ◌≤◌, ◌^◌, drop, length, take};
ghost use Rattle.byteorder.specs.Endian.{big_from};

use byteorder::{BigEndian, ByteOrder};

/// The number of two bytes at a place.
pub fn u16_at(bytes: &[u8], place: usize) -> u16
    requires { place + 2 ≤ length bytes.now }
    ensures { result ≡ big_from place 2 bytes.now }
{
    BigEndian::read_u16(&bytes[place..])
}

/// The number of four bytes at a place.
pub fn u32_at(bytes: &[u8], place: usize) -> u32
    requires { place + 4 ≤ length bytes.now }
    ensures { result ≡ big_from place 4 bytes.now }
{
    BigEndian::read_u32(&bytes[place..])
}

/// The number of six bytes at a place, as an Ethernet address has.
pub fn u48_at(bytes: &[u8], place: usize) -> u64
    requires { place + 6 ≤ length bytes.now }
    ensures number { result ≡ big_from place 6 bytes.now }
    ensures fits { result < 2 ^ 48 }
{
    BigEndian::read_u48(&bytes[place..])
}

/// The number of eight bytes at a place.
pub fn u64_at(bytes: &[u8], place: usize) -> u64
    requires { place + 8 ≤ length bytes.now }
    ensures { result ≡ big_from place 8 bytes.now }
{
    BigEndian::read_u64(&bytes[place..])
}

/// The bytes from a place on.
pub fn rest_at(bytes: &[u8], place: usize) -> &[u8]
    requires { place ≤ length bytes.now }
    ensures rest { result.now ≡ drop place bytes.now }
    ensures len { length result.now + place ≡ length bytes.now }
{
    let (_, rest) = bytes.split_at(place);
    rest
}

/// The first bytes, so many of them.
pub fn front_of(bytes: &[u8], len: usize) -> &[u8]
    requires { len ≤ length bytes.now }
    ensures front { result.now ≡ take len bytes.now }
    ensures len { length result.now ≡ len }
{
    let (front, _) = bytes.split_at(len);
    front
}

#[cfg(test)]
mod tests;
