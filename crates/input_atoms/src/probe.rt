//! The test that a reduction asks.
ghost use Rattle.std.specs.Prelude.{ℕ, List, Bool, IfOk, ⊤};
ghost use Rattle.input_atoms.specs.Cutting.{AreAlike};

use std::alloc::AllocError;

/// Something that can be asked which sets of positions fail.
///
/// A contract sees one meaning of it: `fails_at`, which tells of a list of positions that it fails, by true, or that it does
/// not, by false. It is a relation, since there may be no function that tells of each list.
pub trait Probe {
    ghost fails_at: { Self → List ℕ → Bool → Type 0 };

    /// Whether it may be asked.
    ghost can_ask: { Self → Type 0 } = { λ _. ⊤ };

    /// Whether the positions in `keep` fail. The probe may keep what it finds out, but what fails stays as it was, also after
    /// want of memory.
    fn fails(&mut self, keep: &[u32]) -> Result<bool, AllocError>
        requires { can_ask self.old }
        ensures answer { IfOk result (λ failed. fails_at self.old keep.now failed) }
        ensures same { AreAlike (fails_at self.new) (fails_at self.old) }
        ensures again { can_ask self.new };
}
