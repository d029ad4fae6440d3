//! The worked cases.
use super::pairing::atoms;
use super::{Probe, ddmin};
use machine_setup::{Input, Line};
use std::alloc::AllocError;
use std::test::Fail;

// A test that fails where 2 and 5 are kept, and counts how often it is asked.
#[derive(Drop)]
struct TwoAndFive {
    asked: u32,
}

impl Probe for TwoAndFive {
    ghost use Rattle.std.specs.Prelude.{◌≡◌, ◌&&◌, ◌==◌};
    ghost use Rattle.std.specs.List.{list_any};

    ghost fails_at = { λ _ keep failed. failed ≡ (list_any (λ k. k == 2) keep && list_any (λ k. k == 5) keep) };

    fn fails(&mut self, keep: &[u32]) -> Result<bool, AllocError> {
        self.asked = self.asked.saturating_add(1);
        Ok(keep.contains(&2) && keep.contains(&5))
    }
}

#[test]
fn two_of_seven_are_left(rt: HostRuntime) -> Result<(), Fail> {
    let mut probe = TwoAndFive { asked: 0 };
    let left = ddmin(rt.alloc(), &mut probe, 7)?;
    assert_eq!(rt; left.as_slice(), [2, 5].as_slice());
    assert_eq!(rt; probe.asked, 28);
    Ok(())
}

#[test]
fn a_recovery_goes_with_the_nearest_failure(rt: HostRuntime) -> Result<(), Fail> {
    let script = [
        line(Input::LinkDown(0)),
        line(Input::LinkDown(0)),
        line(Input::LinkUp(0)),
    ];
    let atoms = atoms(rt.alloc(), &script)?;
    assert_eq!(rt; atoms.len(), 2);
    assert_eq!(rt; atoms[0].as_slice(), [0].as_slice());
    assert_eq!(rt; atoms[1].as_slice(), [1, 2].as_slice());
    Ok(())
}

fn line(input: Input) -> Line {
    Line {
        after_quiet: false,
        input,
    }
}
