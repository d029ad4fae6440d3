//! That the calls succeed with ample memory, at numbers on both sides of a word's edge.
use super::{CAPACITY, NumberSet};
use std::test::Fail;

#[test]
fn members_are_found_in_order(rt: HostRuntime) -> Result<(), Fail> {
    let mut set = NumberSet::new(rt.alloc(), CAPACITY)?;
    assert!(rt; set.is_empty());
    set.insert(5);
    set.insert(63);
    set.insert(64);
    set.insert(4095);
    assert_eq!(rt; set.first_from(0), Some(5));
    assert_eq!(rt; set.first_from(5), Some(5));
    assert_eq!(rt; set.first_from(6), Some(63));
    assert_eq!(rt; set.first_from(64), Some(64));
    assert_eq!(rt; set.first_from(65), Some(4095));
    assert_eq!(rt; set.first_from(4096), None);
    assert!(rt; set.contains(63) && !set.contains(62) && !set.contains(5000));
    Ok(())
}

#[test]
fn a_copy_stays_as_it_was(rt: HostRuntime) -> Result<(), Fail> {
    let mut set = NumberSet::new(rt.alloc(), 70)?;
    set.insert(69);
    set.insert(68);
    let copy = set.copy()?;
    set.remove(68);
    assert_eq!(rt; set.first_from(0), Some(69));
    set.remove(69);
    assert!(rt; set.is_empty());
    assert_eq!(rt; set.first_from(0), None);
    assert_eq!(rt; copy.first_from(0), Some(68));
    Ok(())
}
