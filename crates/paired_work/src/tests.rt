//! Two add their numbers to their partners, at once.
use super::work_all;
use std::test::Fail;

#[test]
fn each_with_its_own(rt: HostRuntime) -> Result<(), Fail> {
    let mut numbers = [3u8, 4];
    let mut partners = [10u8, 255];
    work_all(
        &rt,
        &|number: &mut u8, partner: &mut u8| {
            *partner = partner.wrapping_add(*number);
            *number = 0;
        },
        &mut numbers,
        &mut partners,
    );
    assert_eq!(rt; (numbers, partners), ([0, 0], [13, 3]));
    Ok(())
}
