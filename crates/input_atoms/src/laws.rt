//! Laws of the definitions, each the contract of a function that does nothing. Those of reductions hold of every test.
ghost use Rattle.std.specs.Prelude.{◌≡◌, ℕ, ◌<◌, ◌≤◌, ◌^◌, ◌⊎◌, List, [], length, slice_get, slice_index, Bool, true, false, Some, All, AllPairs, Contains, ⊤};
ghost use Rattle.std.specs.List.{range_with_len, remove};
ghost use Rattle.machine_setup.specs.declared.script.Line.{Line};
ghost use Rattle.input_atoms.specs.Atoms.{atoms_of};
ghost use Rattle.input_atoms.specs.Cutting.{NoneFails};
ghost use Rattle.input_atoms.specs.Ddmin.{IsOneMinimal, IsReduced};

use std::marker::Brand;

/// A test, which tells of a list whether it fails. A law that is called at `Brand` is that of a test which its caller picks.
pub trait Test {
    ghost test: { List ℕ → Bool → Type 0 };
}

impl Test for Brand {
    ghost test = { λ _ _. ⊤ };
}

/// Where the whole list fails and the empty one does not, what is left of it fails, and no longer without any one of its
/// elements. That none can be left out, the empty list gives alone.
pub fn what_is_left_is_minimal<T: Test>()
    ensures minimal { (list left : List ℕ) → T.test list true → T.test [] false → IsReduced T.test list 2 left → IsOneMinimal T.test left }
    ensures needed { (list left : List ℕ) → T.test [] false → IsReduced T.test list 2 left → NoneFails T.test (remove left) (length left) }
{}

/// Some list is left, where the test tells of each list whether it fails; and no other one, where it tells of none both.
pub fn what_is_left_is_determined<T: Test>()
    ensures some { (list : List ℕ) → length list < 2 ^ 32 → ((list : List ℕ) → T.test list true ⊎ T.test list false)
        → (left : List ℕ) × IsReduced T.test list 2 left }
    ensures one { (list one other : List ℕ) (parts : ℕ) → ((list : List ℕ) → T.test list true → T.test list false → ⊥)
        → IsReduced T.test list parts one → IsReduced T.test list parts other → one ≡ other }
{}

/// What is left of the first numbers ascends, and is among them.
pub fn what_is_left_ascends<T: Test>()
    ensures ascends { (n : ℕ) (left : List ℕ) → IsReduced T.test (range_with_len 0 n) 2 left
        → AllPairs (λ one other. one < other) left }
    ensures among { (n : ℕ) (left : List ℕ) → IsReduced T.test (range_with_len 0 n) 2 left → All (λ k. k < n) left }
{}

/// Every line of a script stands in exactly one atom, and an atom has no place but those of lines.
pub fn every_line_is_in_one_atom()
    ensures lines { (script : List Line) → All (λ atom. All (λ at. at < length script) atom) (atoms_of script) }
    ensures some { (script : List Line) (at : ℕ) → at < length script
        → (k : ℕ) × (atom : List ℕ) × (slice_get (atoms_of script) k ≡ Some atom) × Contains atom at }
    ensures one { (script : List Line)
        → AllPairs (λ one other. (at : ℕ) → Contains one at → Contains other at → ⊥) (atoms_of script) }
{}

/// An atom has one or two places, which ascend; and the first places of atoms ascend.
pub fn atoms_are_in_order()
    ensures sizes { (script : List Line) → All (λ atom. (1 ≤ length atom) × (length atom ≤ 2)) (atoms_of script) }
    ensures places { (script : List Line) → All (λ atom. AllPairs (λ one other. one < other) atom) (atoms_of script) }
    ensures firsts { (script : List Line)
        → AllPairs (λ one other. slice_index one 0 < slice_index other 0) (atoms_of script) }
{}
