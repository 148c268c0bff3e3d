use crate::columns::{columns_of, expect_columns, row_of};
use fixed_mat::{Coef, Mat, Range, Raws};
use std::test::Fail;
use zono_set::{PastRange, Used, Zono};

/// A plant of one state: half of it stays, and it is read with noise within 0.1 units.
const HALF: i128 = 500_000_000;

const ONE: i128 = 1_000_000_000;

const NOISE: i128 = 100_000_000;

/// The set of one state that reaches so far to either side of its centre.
fn interval(centre: i128, radius: i128) -> Result<Zono<1>, Fail> {
    let mut middle: Mat<1, 1, Range> = Mat::zero();
    middle.set(0, 0, centre)?;
    let mut reach: Mat<1, 1, Range> = Mat::zero();
    reach.set(0, 0, radius)?;
    if reach.at(0, 0) < 0 {
        return Err("a radius".into());
    }
    Ok(Zono::of_box(&middle, &reach)?)
}

/// A matrix of one entry.
fn factor(v: i128) -> Result<Mat<1, 1, Coef>, Fail> {
    let mut mat: Mat<1, 1, Coef> = Mat::zero();
    mat.set(0, 0, v)?;
    Ok(mat)
}

#[test]
fn a_box_predicts_and_reads(rt: HostRuntime) -> Result<(), Fail> {
    let mut z = interval(0, ONE)?;
    let c = factor(ONE)?;
    assert!(rt; z.cols().len() == 1);
    let output = z.out_interval(&c, 0, NOISE);
    assert_eq!(rt;
        (z.hull(0), output),
        ((-ONE, ONE), (-1_100_000_000, 1_100_000_000))
    );
    let row = z.strip_row(&c, 0, HALF, NOISE);
    assert_eq!(rt; row.a.len(), 2);
    assert_eq!(rt; (row.a.at(0), row.a.at(1), row.b), (ONE, NOISE, HALF));
    z.reduce(48);
    assert_eq!(rt; z.cols().len(), 1);
    Ok(())
}

/// The set after one reading, and where it moves. Each of its five numbers leaves half a nano-unit, so two make up for the rounding.
#[test]
fn halves_are_made_up_for(rt: HostRuntime) -> Result<(), Fail> {
    let mut z = interval(495_049_505, 0)?;
    let cols = columns_of(&[9_900_991, -99_009_901, 1])?;
    assert!(rt; z.centre(0) == 495_049_505);
    assert!(rt; cols.mag(0) == 108_910_893);
    z.set_cols(cols);
    let a = factor(HALF)?;
    assert!(rt; z.cols().len() == 3);
    assert!(rt; z.image(&a, &Raws::zero(), &Mat::zero(), 0).is_ok());
    assert_eq!(rt; z.centre(0), 247_524_753);
    expect_columns(&rt, z.cols(), &[4_950_496, -49_504_950, 1, 2]);
    Ok(())
}

#[test]
fn an_image_past_the_range_is_refused(rt: HostRuntime) -> Result<(), Fail> {
    let mut z = interval(0, 1_000_001_000_000_000)?;
    let a = factor(1_000_000_000_000)?;
    assert!(rt; z.cols().len() == 1);
    let Err(PastRange { i, mag }) = z.image(&a, &Raws::zero(), &Mat::zero(), 0) else {
        return Err("an image".into());
    };
    assert_eq!(rt; (i, mag), (0, 1_000_001_000_000_000_000));
    assert_eq!(rt; z.hull(0), (-1_000_001_000_000_000, 1_000_001_000_000_000));
    Ok(())
}

/// The reading 0.5 of a state within 1 unit leaves 500000000 of the centre and 100000000 of a column, so one makes up for the rounding.
#[test]
fn a_reading_is_used(rt: HostRuntime) -> Result<(), Fail> {
    let mut z = interval(0, ONE)?;
    let a = row_of(&[ONE, NOISE])?;
    let gain = factor(990_099_009)?;
    assert!(rt; z.cols().len() == 1 && a.len() == 2);
    assert_eq!(rt; z.substitute(&a, HALF, &gain), Used::Yes);
    assert_eq!(rt; z.centre(0), 495_049_505);
    expect_columns(&rt, z.cols(), &[9_900_991, -99_009_901, 1]);
    Ok(())
}

/// The sum of the radii would grow from 54455449 to 63492070.
#[test]
fn a_reading_that_spreads_is_not_used(rt: HostRuntime) -> Result<(), Fail> {
    let mut z = interval(247_524_753, 0)?;
    let cols = columns_of(&[4_950_496, -49_504_950, 1, 2])?;
    assert!(rt; z.centre(0) == 247_524_753);
    assert!(rt; cols.mag(0) == 54_455_449);
    z.set_cols(cols);
    let a = row_of(&[4_950_496, -49_504_950, 1, 2, NOISE])?;
    let gain = factor(198_412_695)?;
    assert!(rt; z.cols().len() == 4 && a.len() == 5);
    let used = z.substitute(&a, -47_524_753, &gain);
    assert_eq!(rt; (used, z.centre(0)), (Used::No, 247_524_753));
    assert_eq!(rt; (z.cols().len(), z.cols().mag(0)), (4, 54_455_449));
    Ok(())
}

/// A gain of the wrong sign spreads the set, whether the unrounded shares fit 64 bits or not.
#[test]
fn a_gain_of_the_wrong_sign_is_not_used(rt: HostRuntime) -> Result<(), Fail> {
    for reach in [1_000_000_000, 20_000_000_000] {
        let mut z = interval(0, reach)?;
        let a = row_of(&[ONE, NOISE])?;
        let gain = factor(-990_099_009)?;
        assert!(rt; z.cols().len() == 1 && a.len() == 2);
        assert_eq!(rt; z.substitute(&a, HALF, &gain), Used::No);
        assert_eq!(rt; (z.cols().len(), z.cols().mag(0)), (1, reach));
    }
    Ok(())
}

#[test]
fn a_new_symbol_moves_no_state(rt: HostRuntime) -> Result<(), Fail> {
    let mut z = interval(0, ONE)?;
    assert!(rt; z.cols().len() == 1);
    z.add_symbol();
    assert!(rt; z.cols().len() == 2);
    assert_eq!(rt; (z.cols().at(0, 1), z.hull(0)), (0, (-ONE, ONE)));
    Ok(())
}
