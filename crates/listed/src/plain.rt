//! Values that are plain data.
ghost use Rattle.std.specs.Prelude.{◌≡◌, ◌↔◌, IsTrue, IfOk};
ghost use Rattle.listed.specs.Plain.{plain};

use std::alloc::AllocError;

/// A value that is all data: a copy of it equals it, and two of them can be compared whole.
pub trait Plain: Clone {
    /// Whether the two are one value.
    fn same(&self, other: &Self) -> bool
        ensures { IsTrue result ↔ (self.now ≡ other.now) };

    ghost clones: { (x y : Self) → Self.is_clone x y → y ≡ x };

    /// A second value that equals this one. The only error is want of memory.
    final fn copy(&self) -> Result<Self, AllocError>
        ensures { IfOk result (λ c. c ≡ self.now) }
    {
        self.clone()
    }
}

impl Plain for bool {
    fn same(&self, other: &Self) -> bool {
        *self == *other
    }

    ghost clones = { Prim.search plain };
}

impl Plain for u8 {
    fn same(&self, other: &Self) -> bool {
        *self == *other
    }

    ghost clones = { Prim.search plain };
}

impl Plain for u16 {
    fn same(&self, other: &Self) -> bool {
        *self == *other
    }

    ghost clones = { Prim.search plain };
}

impl Plain for u32 {
    fn same(&self, other: &Self) -> bool {
        *self == *other
    }

    ghost clones = { Prim.search plain };
}

impl Plain for u64 {
    fn same(&self, other: &Self) -> bool {
        *self == *other
    }

    ghost clones = { Prim.search plain };
}

impl<T: Plain> Plain for Option<T> {
    fn same(&self, other: &Self) -> bool {
        match (self, other) {
            (None, None) => true,
            (Some(one), Some(two)) => one.same(two),
            (None, Some(_)) | (Some(_), None) => false,
        }
    }

    ghost clones = { Prim.search plain };
}

impl<A: Plain, B: Plain> Plain for (A, B) {
    fn same(&self, other: &Self) -> bool {
        self.0.same(&other.0) && self.1.same(&other.1)
    }

    ghost clones = { Prim.search plain };
}
