//! Numbers of each width, and both parts, of bytes that all differ.
use super::*;
use std::test::Fail;

const BYTES: &[u8] = b"\x01\x02\x03\x04\x05\x06\x07\x08\x09";

#[test]
fn numbers_at_a_place(rt: HostRuntime) -> Result<(), Fail> {
    assert_eq!(rt; u16_at(BYTES, 7), 0x0809);
    assert_eq!(rt; u32_at(BYTES, 1), 0x0203_0405);
    assert_eq!(rt; u48_at(BYTES, 3), 0x0405_0607_0809);
    assert_eq!(rt; u64_at(BYTES, 0), 0x0102_0304_0506_0708);
    Ok(())
}

#[test]
fn parts_at_a_place(rt: HostRuntime) -> Result<(), Fail> {
    assert_eq!(rt; rest_at(BYTES, 6), b"\x07\x08\x09".as_slice());
    assert_eq!(rt; rest_at(BYTES, 9), b"".as_slice());
    assert_eq!(rt; front_of(BYTES, 2), b"\x01\x02".as_slice());
    Ok(())
}
