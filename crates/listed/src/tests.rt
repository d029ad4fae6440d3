//! That the calls succeed with ample memory, and each generic call at a concrete type.
use super::{Listed, Plain};
use std::test::Fail;

fn three(rt: &impl AllocGlobal) -> Result<Listed<u16>, Fail> {
    Ok(Listed::of([4, 5, 6].to_vec(rt.alloc())?))
}

#[test]
fn lists_grow_and_shrink(rt: HostRuntime) -> Result<(), Fail> {
    let mut list = Listed::new(rt.alloc());
    assert!(rt; list.is_empty());
    list.push(4u16)?;
    list.push(9)?;
    assert!(rt; !list.is_empty());
    list.append(three(&rt)?)?;
    assert_eq!(rt; list.as_slice(), [4, 9, 4, 5, 6].as_slice());
    assert!(rt; list.len() == 5);
    list.replace(1, 7);
    *list.item_mut(2) = 8;
    let gone = list.remove(0);
    assert_eq!(rt; gone, 4);
    list.truncate(3);
    assert_eq!(rt; list.into_vec().as_slice(), [7, 8, 5].as_slice());
    Ok(())
}

#[test]
fn copies_are_the_same(rt: HostRuntime) -> Result<(), Fail> {
    let list = three(&rt)?;
    let mut copy = list.copy()?;
    assert!(rt; copy.same(&list));
    assert_eq!(rt; copy.iter().copied().max(), Some(6));
    copy.truncate(2);
    assert!(rt; !copy.same(&list));
    copy.push(7)?;
    assert!(rt; !copy.same(&list));
    let nested = Listed::of(vec![in rt.alloc(); Some(true), None]?);
    assert!(rt; nested.copy()?.same(&nested));
    assert!(rt; 7u8.same(&7) && !7u32.same(&8) && 1u64.same(&1));
    Ok(())
}
