use farkas_check::{first_candidate, passes};
use fixed_mat::{Coefs, Rows};
use std::test::Fail;

/// Coefficients 3 and -4 reach 7, so a right side of 8 is out of reach.
#[test]
fn a_row_alone_is_refuted_out_of_reach(rt: HostRuntime) -> Result<(), Fail> {
    let one: [i32; 1] = [1];
    let none: [i32; 1] = [0];
    for (right, by_one) in [(7_i128, false), (-7, false), (8, true), (-8, true)] {
        let mut a = Coefs::new();
        a.push(3)?;
        a.push(-4)?;
        assert!(rt; a.len() == 2);
        assert!(rt; right.unsigned_abs() <= 8);
        let mut rows = Rows::new(2);
        rows.push(&a, right);
        assert_eq!(rt; passes(&rows, &one), by_one);
        assert!(rt; !passes(&rows, &none));
        assert!(rt; !passes(&rows, &[]));
        assert_eq!(rt; first_candidate(&rows).is_some(), by_one);
    }
    Ok(())
}

/// Two sensors of one sum of two states: each has noise within 0.1 units, in a column of its own. Where they read 0.5
/// units and -0.5 units, no state explains both; where both read 0.5 units, one does; where the first reads 2.2
/// units, none explains it alone.
#[test]
fn two_sensors_that_disagree_are_refuted(rt: HostRuntime) -> Result<(), Fail> {
    for (first, second, by) in [
        (
            500_000_000_i128,
            -500_000_000,
            Some((1_000_000_000, -1_000_000_000)),
        ),
        (500_000_000, 500_000_000, None),
        (2_200_000_000, 500_000_000, Some((1, 0))),
    ] {
        let mut rows = Rows::new(4);
        for (right, noise, other) in [(first, 100_000_000, 0), (second, 0, 100_000_000)] {
            let mut a = Coefs::new();
            for v in [1_000_000_000, 1_000_000_000, noise, other] {
                assert!(rt; a.len() < 128);
                a.push(v)?;
            }
            assert!(rt; rows.count() < 6);
            assert!(rt; a.len() == rows.width());
            assert!(rt; right.unsigned_abs() <= 2_200_000_000);
            rows.push(&a, right);
        }
        match (first_candidate(&rows), by) {
            (Some(found), Some((x, y))) => {
                assert_eq!(rt; found.len(), 2);
                assert_eq!(rt; found.at(0), x);
                assert_eq!(rt; found.at(1), y);
            }
            (found, by) => {
                assert!(rt; found.is_none() && by.is_none());
            }
        }
    }
    Ok(())
}

/// Coefficients of 2 ^ 32 are halved twice; the second row tells nothing.
#[test]
fn large_coefficients_are_halved(rt: HostRuntime) -> Result<(), Fail> {
    let mut rows = Rows::new(3);
    for (right, coefficients) in [
        (2_147_483_648_i128, [4_294_967_296, 1, 0]),
        (0, [0, 0, 0]),
        (-2_147_483_648, [4_294_967_296, 0, 1]),
    ] {
        let mut a = Coefs::new();
        for v in coefficients {
            assert!(rt; a.len() < 128);
            a.push(v)?;
        }
        assert!(rt; rows.count() < 6);
        assert!(rt; a.len() == rows.width());
        assert!(rt; right.unsigned_abs() <= 2_147_483_648);
        rows.push(&a, right);
    }
    let found = first_candidate(&rows).ok_or("refuted")?;
    assert_eq!(rt; found.len(), 3);
    assert_eq!(rt; found.at(0), 1_073_741_824);
    assert_eq!(rt; found.at(1), 0);
    assert_eq!(rt; found.at(2), -1_073_741_824);
    Ok(())
}
