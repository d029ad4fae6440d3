//! Fields of a match, one by one: what a field takes, and how two fields relate. A field that is
//! absent takes every value.

ghost use Rattle.std.specs.Prelude.{◌≡◌, ◌≤◌, ◌↔◌, IsTrue};
ghost use Rattle.of10_match.specs.Field.{IsPrefix, IsValidAddress, IsValidNumber, covers_address, covers_by, leading_bits, overlaps_address, overlaps_by, takes_address, takes_by};

/// An IPv4 address and the number of its leading bits that are compared, 1 to 32. The bits that are
/// not compared are zero.
pub type Prefix = (u32, u8);

/// A field of 16 bits lies within its width: a fact for the proof.
pub(crate) fn fits_16_bits(field: Option<u16>)
    ensures { IsValidNumber 16 field }
{
    if let Some(_number) = field {}
}

/// A field of eight bits lies within its width: a fact for the proof.
pub(crate) fn fits_8_bits(field: Option<u8>)
    ensures { IsValidNumber 8 field }
{
    if let Some(_number) = field {}
}

/// Whether an Ethernet address lies within its 48 bits, where the field is there.
pub(crate) fn fits_48_bits(field: Option<u64>) -> bool
    ensures { IsTrue result ↔ IsValidNumber 48 field }
{
    match field {
        None => true,
        Some(number) => number < 1 << 48,
    }
}

/// Whether an address field that is there holds a valid prefix.
pub(crate) fn is_valid_address(field: Option<Prefix>) -> bool
    ensures { IsTrue result ↔ IsValidAddress field }
{
    match field {
        None => true,
        Some((address, bits)) => is_prefix(address, bits),
    }
}

/// Whether so many leading bits are compared, 1 to 32, and the others are zero.
fn is_prefix(address: u32, bits: u8) -> bool
    ensures { IsTrue result ↔ IsPrefix (address, bits) }
{
    if bits < 1 || bits > 32 {
        return false;
    }
    address % (1 << (32 - bits)) == 0
}

/// The leading bits of an address, as a number.
fn leading_bits(address: u32, bits: u8) -> u32
    requires low { 1 ≤ bits }
    requires high { bits ≤ 32 }
    ensures { result ≡ leading_bits bits address }
{
    address >> (32 - bits)
}

/// Whether a field takes a value.
pub(crate) fn takes<T: PartialEq + Copy>(field: Option<T>, value: T) -> bool
    ensures { result ≡ takes_by T.eq field value }
{
    field.is_none_or(|wanted| wanted == value)
}

/// Whether a field takes all that another field takes.
pub(crate) fn covers<T: PartialEq + Copy>(field: Option<T>, other: Option<T>) -> bool
    ensures { result ≡ covers_by T.eq field other }
{
    match (field, other) {
        (None, _) => true,
        (Some(_), None) => false,
        (Some(wanted), Some(value)) => wanted == value,
    }
}

/// Whether some value is taken by both fields.
pub(crate) fn overlaps<T: PartialEq + Copy>(field: Option<T>, other: Option<T>) -> bool
    ensures { result ≡ overlaps_by T.eq field other }
{
    match (field, other) {
        (Some(wanted), Some(value)) => wanted == value,
        _ => true,
    }
}

/// Whether an address field takes an address.
pub(crate) fn takes_address(field: Option<Prefix>, address: u32) -> bool
    requires { IsValidAddress field }
    ensures { result ≡ takes_address field address }
{
    match field {
        None => true,
        Some((wanted, bits)) => leading_bits(address, bits) == leading_bits(wanted, bits),
    }
}

/// Whether an address field takes all that another one takes.
pub(crate) fn covers_address(field: Option<Prefix>, other: Option<Prefix>) -> bool
    requires { IsValidAddress field }
    ensures { result ≡ covers_address field other }
{
    match (field, other) {
        (None, _) => true,
        (Some(_), None) => false,
        (Some((_, bits)), Some((address, more))) => bits <= more && takes_address(field, address),
    }
}

/// Whether some address is taken by both address fields.
pub(crate) fn overlaps_address(field: Option<Prefix>, other: Option<Prefix>) -> bool
    requires field { IsValidAddress field }
    requires other { IsValidAddress other }
    ensures { result ≡ overlaps_address field other }
{
    match (field, other) {
        (Some((one, some)), Some((another, more))) => {
            let bits = some.min(more);
            leading_bits(one, bits) == leading_bits(another, bits)
        }
        _ => true,
    }
}
