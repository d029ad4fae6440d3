//! Delta debugging: a failing set is made smaller by leaving out parts of it, as long as what is left fails.
ghost use Rattle.std.specs.Prelude.{◌≡◌, ℕ, ◌<◌, ◌≤◌, List, [], length, MatchOption, IfOk, true, false};
ghost use Rattle.std.specs.List.{range_with_len};
ghost use Rattle.input_atoms.specs.Cutting.{AreAlike};
ghost use Rattle.input_atoms.specs.Ddmin.{IsOneMinimal, IsReduced};
ghost use Rattle.input_atoms.specs.Steps.{GoesOn, IsInParts, work};

use crate::parts::{failing_complement, failing_part};
use crate::probe::Probe;
use listed::{Listed, Plain};
use std::alloc::{AllocError, Global};

/// Positions.
pub type Indices = Listed<u32>;

/// Atoms: each the places of its lines.
pub type Atoms = Listed<Indices>;

/// What delta debugging leaves of the first `n` positions: where all of them fail and none does not, they fail, and no longer without
/// any one. After want of memory the probe may have been asked.
pub fn ddmin<P: Probe>(alloc: Global, probe: &mut P, n: u32) -> Result<Indices, AllocError>
    requires { P.can_ask probe.old }
    ensures reduced { IfOk result (IsReduced (P.fails_at probe.old) (range_with_len 0 n) 2) }
    ensures minimal { IfOk result (λ left. P.fails_at probe.old (range_with_len 0 n) true → P.fails_at probe.old [] false → IsOneMinimal (P.fails_at probe.old) left) }
    ensures same { AreAlike (P.fails_at probe.new) (P.fails_at probe.old) }
    ensures again { P.can_ask probe.new }
{
    let mut cut = Cut {
        list: numbers(alloc, n)?,
        parts: 2,
    };
    while let Some(next) = cut.next(alloc, probe)? {
        cut = next;
    }
    Ok(cut.list)
}

// The first numbers.
fn numbers(alloc: Global, n: u32) -> Result<Indices, AllocError>
    ensures { IfOk result (λ numbers. numbers ≡ range_with_len 0 n) }
{
    let numbers = (0..n).collect(alloc)?;
    Ok(Listed::of(numbers))
}

// A list, and into how many parts it is cut.
#[derive(Drop)]
struct Cut {
    list: Indices,
    parts: usize,
}

impl Cut {
    // What is left after a step, and into how many parts that is cut; nothing where the list stays as it is.
    #[tactic(auto, using(crate::proofs::Stepping::found_steps))]
    fn next<P: Probe>(&self, alloc: Global, probe: &mut P) -> Result<Option<Cut>, AllocError>
        requires cut { IsInParts self.now.list self.now.parts }
        requires asked { P.can_ask probe.old }
        ensures next { IfOk result (λ next. MatchOption next
            (IsReduced (P.fails_at probe.old) self.now.list self.now.parts self.now.list)
            (λ next. GoesOn (P.fails_at probe.old) self.now.list self.now.parts next.list next.parts)) }
        ensures same { AreAlike (P.fails_at probe.new) (P.fails_at probe.old) }
        ensures again { P.can_ask probe.new }
    {
        let size = self.list.len();
        if size <= 1 {
            return Ok(None);
        }
        if let Some(list) = failing_part(alloc, probe, self.list.as_slice(), self.parts)? {
            return Ok(Some(Cut { list, parts: 2 }));
        }
        if let Some(list) = failing_complement(alloc, probe, self.list.as_slice(), self.parts)? {
            return Ok(Some(Cut {
                list,
                parts: (self.parts - 1).max(2),
            }));
        }
        if self.parts == size {
            return Ok(None);
        }
        let list = self.list.copy()?;
        Ok(Some(Cut {
            list,
            parts: size.min(2 * self.parts),
        }))
    }
}
