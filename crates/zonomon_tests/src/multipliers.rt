use farkas_check::Multipliers;
use std::test::Fail;

#[test]
fn takes_one_to_six_multipliers_in_range(rt: HostRuntime) -> Result<(), Fail> {
    let list = Multipliers::of(&[1, -2_147_483_647]).ok_or("in range")?;
    assert_eq!(rt; list.len(), 2);
    assert_eq!(rt; list.at(1), -2_147_483_647);
    let refused: [&[i32]; 3] = [&[], &[i32::MIN, 1], &[1, 1, 1, 1, 1, 1, 1]];
    for values in refused {
        assert!(rt; Multipliers::of(values).is_none());
    }
    Ok(())
}
