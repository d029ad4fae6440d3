//! Closed intervals of numbers, and those that the fields of a match take.

ghost use Rattle.std.specs.Prelude.{◌≡◌, ◌≤◌, ◌<◌, ◌-◌, ◌^◌, ◌&&◌, ℕ, IfSome, IsTrue, false, nat_eq, nat_lt, unwrap_or};
ghost use Rattle.std.specs.Option.{option_map_or};
ghost use Rattle.of10_match.specs.Field.{IsValidAddress, IsValidNumber, takes_address, takes_by};

use of10_match::Prefix;

/// The numbers from one to another, both among them.
#[derive(Clone, Copy, Debug, PartialEq, Eq)]
pub struct Interval {
    pub low: u64,
    pub high: u64,
}

impl Interval {
    ghost use Rattle.header_classes.specs.Interval.{IsInner, IsInterval, within, within_some};
    ghost use Rattle.header_classes.specs.Size.{breadth};

    /// The numbers of so many bits that a field of a match takes.
    pub(crate) fn of_number(bits: u32, field: Option<u64>) -> Interval
        requires width { bits ≤ 48 }
        requires number { IsValidNumber bits field }
        ensures valid { IsInterval bits result }
        ensures taken { (x : ℕ) → x < 2 ^ bits → within result x ≡ takes_by nat_eq field x }
    {
        match field {
            None => Interval {
                low: 0,
                high: (1 << bits) - 1,
            },
            Some(number) => Interval {
                low: number,
                high: number,
            },
        }
    }

    /// The numbers of eight bits that a field of a match takes.
    pub(crate) fn of_u8(field: Option<u8>) -> Interval
        ensures valid { IsInterval 8 result }
        ensures taken { (x : ℕ) → x < 2 ^ 8 → within result x ≡ takes_by nat_eq field x }
    {
        Interval::of_number(8, wide_u8(field))
    }

    /// The numbers of sixteen bits that a field of a match takes.
    pub(crate) fn of_u16(field: Option<u16>) -> Interval
        ensures valid { IsInterval 16 result }
        ensures taken { (x : ℕ) → x < 2 ^ 16 → within result x ≡ takes_by nat_eq field x }
    {
        Interval::of_number(16, wide_u16(field))
    }

    /// The addresses that a field of a match takes: those with the same leading bits are neighbours.
    pub(crate) fn of_address(field: Option<Prefix>) -> Interval
        requires { IsValidAddress field }
        ensures valid { IsInterval 32 result }
        ensures taken { (x : ℕ) → x < 2 ^ 32 → within result x ≡ takes_address field x }
    {
        match field {
            None => Interval {
                low: 0,
                high: (1 << 32) - 1,
            },
            Some((address, bits)) => {
                let low = u64::from(address);
                Interval {
                    low,
                    high: low + ((1 << (32 - bits)) - 1),
                }
            }
        }
    }

    /// Whether a number is within the interval.
    pub(crate) fn has(&self, number: u64) -> bool
        ensures { result ≡ within self.now number }
    {
        self.low <= number && number <= self.high
    }

    /// The numbers that are within both intervals.
    pub(crate) fn meet(&self, other: &Interval) -> Option<Interval>
        ensures both { (x : ℕ) → within_some result x ≡ (within self.now x && within other.now x) }
        ensures inner { IfSome result (λ both. IsInner self.now both) }
    {
        let low = self.low.max(other.low);
        let high = self.high.min(other.high);
        (low <= high).then_some(Interval { low, high })
    }

    /// Whether no number is within both intervals.
    pub(crate) fn is_apart(&self, other: &Interval) -> bool
        ensures { IsTrue result → (x : ℕ) → (within self.now x && within other.now x) ≡ false }
    {
        self.high < other.low || other.high < self.low
    }

    /// The numbers of the interval below a number.
    pub(crate) fn below(&self, limit: u64) -> Option<Interval>
        requires { self.now.low ≤ self.now.high }
        ensures below { (x : ℕ) → within_some result x ≡ (within self.now x && nat_lt x limit) }
        ensures inner { IfSome result (λ part. IsInner self.now part) }
        ensures breadth { limit ≤ self.now.high → option_map_or breadth result 0 ≡ limit - self.now.low }
    {
        if limit <= self.low {
            return None;
        }
        Some(Interval {
            low: self.low,
            high: self.high.min(limit - 1),
        })
    }

    /// The numbers of the interval above a number.
    pub(crate) fn above(&self, limit: u64) -> Option<Interval>
        requires { self.now.low ≤ self.now.high }
        ensures above { (x : ℕ) → within_some result x ≡ (within self.now x && nat_lt limit x) }
        ensures inner { IfSome result (λ part. IsInner self.now part) }
        ensures breadth { self.now.low ≤ limit → option_map_or breadth result 0 ≡ self.now.high - limit }
    {
        if self.high <= limit {
            return None;
        }
        Some(Interval {
            low: self.low.max(limit + 1),
            high: self.high,
        })
    }

    /// The numbers of the interval on that side of another one on which a number of it lies.
    pub(crate) fn beside(&self, other: &Interval, number: u64) -> Interval
        requires here { IsTrue (within self.now number) }
        requires outside { within other.now number ≡ false }
        requires ordered { other.now.low ≤ other.now.high }
        ensures here { IsTrue (within result number) }
        ensures inner { IsInner self.now result }
        ensures apart { (x : ℕ) → IsTrue (within result x) → within other.now x ≡ false }
    {
        if number < other.low {
            Interval {
                low: self.low,
                high: self.high.min(other.low - 1),
            }
        } else {
            Interval {
                low: self.low.max(other.high + 1),
                high: self.high,
            }
        }
    }

    /// The numbers of so many bits that are within the interval once a number was put in their place, where it is given.
    pub(crate) fn before(&self, bits: u32, number: Option<u64>) -> Option<Interval>
        requires width { bits ≤ 48 }
        requires valid { IsInterval bits self.now }
        ensures valid { IfSome result (λ part. IsInterval bits part) }
        ensures before { (x : ℕ) → x < 2 ^ bits → within_some result x ≡ within self.now (unwrap_or number x) }
    {
        match number {
            None => Some(*self),
            Some(number) => self.has(number).then_some(Interval::of_number(bits, None)),
        }
    }

    /// The numbers of the interval, after a number was put in the place of each, where it is given.
    pub(crate) fn after(&self, bits: u32, number: Option<u64>) -> Interval
        requires width { bits ≤ 48 }
        requires valid { IsInterval bits self.now }
        requires number { IsValidNumber bits number }
        ensures valid { IsInterval bits result }
        ensures after { (x : ℕ) → IsTrue (within self.now x) → IsTrue (within result (unwrap_or number x)) }
    {
        match number {
            None => *self,
            Some(number) => Interval {
                low: number,
                high: number,
            },
        }
    }

    /// The numbers of so many bits that become the same one once either of two is put in their place, where it is given.
    pub(crate) fn same(bits: u32, one: Option<u64>, two: Option<u64>) -> Option<Interval>
        requires width { bits ≤ 48 }
        requires one { IsValidNumber bits one }
        requires two { IsValidNumber bits two }
        ensures valid { IfSome result (λ part. IsInterval bits part) }
        ensures same { (x : ℕ) → x < 2 ^ bits → within_some result x ≡ nat_eq (unwrap_or one x) (unwrap_or two x) }
    {
        match (one, two) {
            (Some(one), Some(two)) => (one == two).then_some(Interval::of_number(bits, None)),
            (Some(number), None) | (None, Some(number)) => Some(Interval::of_number(
                bits,
                Some(number),
            )),
            (None, None) => Some(Interval::of_number(bits, None)),
        }
    }
}

pub(crate) fn wide_u8(field: Option<u8>) -> Option<u64>
    ensures same { result ≡ field }
    ensures fits { IsValidNumber 8 field }
{
    match field {
        None => None,
        Some(number) => Some(u64::from(number)),
    }
}

pub(crate) fn wide_u16(field: Option<u16>) -> Option<u64>
    ensures same { result ≡ field }
    ensures fits { IsValidNumber 16 field }
{
    match field {
        None => None,
        Some(number) => Some(u64::from(number)),
    }
}

pub(crate) fn wide_u32(field: Option<u32>) -> Option<u64>
    ensures same { result ≡ field }
    ensures fits { IsValidNumber 32 field }
{
    match field {
        None => None,
        Some(number) => Some(u64::from(number)),
    }
}
