//! Sets with rows on their symbols, with numbers by hand.

use czono_set::Czono;
use farkas_check::first_candidate;
use fixed_mat::{Coef, Coefs, Cols, Mat, Range, Raws, Rows};
use girard_reduce::reduce_lifted;
use std::test::Fail;
use zono_set::Used;

const ONE: i128 = 1_000_000_000;

const HALF: i128 = 500_000_000;

const NOISE: i128 = 100_000_000;

/// Of four columns with a row at most three: the keys are 0, 1, 2 and 1, so the third stays. With coefficients whose keys
/// do not fit 64 bits it is the same.
#[test]
fn a_row_counts_as_one_more_state(rt: HostRuntime) -> Result<(), Fail> {
    for (columns, left) in [
        ([(4, 0), (1, 3), (2, 2), (1, 5)], [(2, 2), (6, 0), (0, 8)]),
        (
            [
                (4, 0),
                (1, 3_000_000_000_000_000_000_000),
                (2, 2_000_000_000_000_000_000_000),
                (1, 5_000_000_000_000_000_000_000),
            ],
            [
                (2, 2_000_000_000_000_000_000_000),
                (6, 0),
                (0, 8_000_000_000_000_000_000_000),
            ],
        ),
    ] {
        let mut cols: Cols<1> = Cols::new();
        let mut a = Coefs::new();
        for (entry, coefficient) in columns {
            assert!(rt; cols.len() < 128 && a.len() < 128);
            assert!(rt; (0..=4).contains(&entry));
            cols.push_diagonal(0, entry);
            a.push(coefficient)?;
        }
        assert!(rt; cols.len() == 4 && a.len() == 4);
        assert!(rt; cols.mag(0) <= 8);
        let mut rows = Rows::new(4);
        rows.push(&a, 7);
        reduce_lifted(&mut cols, &mut rows, 3);
        assert!(rt; cols.len() == 3 && rows.count() == 1);
        let mut t = 0;
        for (entry, coefficient) in left {
            assert!(rt; t < 3 && rows.width() == 3);
            assert_eq!(rt; cols.at(0, t), entry);
            assert_eq!(rt; rows.coef(0, t), coefficient);
            t += 1;
        }
        assert_eq!(rt; rows.rhs(0), 7);
    }
    Ok(())
}

/// Of three columns with a row at most two: none stays.
#[test]
fn a_box_stands_for_all_columns(rt: HostRuntime) -> Result<(), Fail> {
    let mut cols: Cols<1> = Cols::new();
    let mut a = Coefs::new();
    for (entry, coefficient) in [(4, 0), (1, 3), (2, 2)] {
        assert!(rt; cols.len() < 128 && a.len() < 128);
        assert!(rt; (0..=4).contains(&entry));
        cols.push_diagonal(0, entry);
        a.push(coefficient)?;
    }
    assert!(rt; cols.len() == 3 && a.len() == 3);
    assert!(rt; cols.mag(0) <= 7);
    let mut rows = Rows::new(3);
    rows.push(&a, 7);
    reduce_lifted(&mut cols, &mut rows, 2);
    assert!(rt; cols.len() == 2 && rows.count() == 1);
    assert_eq!(rt; (cols.at(0, 0), cols.at(0, 1)), (7, 0));
    assert_eq!(rt; (rows.coef(0, 0), rows.coef(0, 1)), (0, 5));
    Ok(())
}

/// Two sensors of the sum of two states, which read 0.5 units and -0.5 units: neither misses what is predicted, and both
/// rows together are refuted.
#[test]
fn rows_of_one_sample_are_refuted_together(rt: HostRuntime) -> Result<(), Fail> {
    let centre: Mat<2, 1, Range> = Mat::zero();
    let mut radius: Mat<2, 1, Range> = Mat::zero();
    radius.replace([1_000_000_000, 1_000_000_000].as_slice());
    assert!(rt; radius.at(0, 0) >= 0 && radius.at(1, 0) >= 0);
    let Ok(mut set) = Czono::of_box(&centre, &radius) else {
        return Err("refused".into());
    };
    let mut sum: Mat<1, 2, Coef> = Mat::zero();
    sum.set(0, 0, ONE)?;
    sum.set(0, 1, ONE)?;
    for reading in [HALF, -HALF] {
        assert!(rt; (-HALF..=HALF).contains(&reading));
        assert!(rt; set.rows().count() < 6 && set.base().cols().len() < 128);
        assert_eq!(rt;
            set.base().out_interval(&sum, 0, NOISE),
            (-2_100_000_000, 2_100_000_000)
        );
        let row = set.base().strip_row(&sum, 0, reading, NOISE);
        assert!(rt; row.a.len() == set.base().cols().len() + 1);
        assert_eq!(rt; row.b, reading);
        set.cut(&row);
    }
    let rows = set.rows();
    assert!(rt; rows.count() == 2 && rows.width() == 4);
    for (r, coefficients) in [(0, [ONE, ONE, NOISE, 0]), (1, [ONE, ONE, 0, NOISE])] {
        let mut t = 0;
        for coefficient in coefficients {
            assert!(rt; r < 2 && t < 4);
            assert_eq!(rt; rows.coef(r, t), coefficient);
            t += 1;
        }
    }
    let found = first_candidate(rows).ok_or("refuted")?;
    assert!(rt; found.len() == 2);
    assert_eq!(rt; (found.at(0), found.at(1)), (1_000_000_000, -1_000_000_000));
    Ok(())
}

/// A state within 1 unit of 0, of which a reading of 0.5 units within 0.1 units is kept: an image gives the row a zero,
/// and once the row is taken out the state has its share of it.
#[test]
fn the_oldest_row_is_used_up(rt: HostRuntime) -> Result<(), Fail> {
    let centre: Mat<1, 1, Range> = Mat::zero();
    let mut radius: Mat<1, 1, Range> = Mat::zero();
    radius.set(0, 0, ONE)?;
    assert!(rt; radius.at(0, 0) >= 0);
    let Ok(mut set) = Czono::of_box(&centre, &radius) else {
        return Err("refused".into());
    };
    let mut one: Mat<1, 1, Coef> = Mat::zero();
    one.set(0, 0, ONE)?;
    assert!(rt; set.rows().count() < 6 && set.base().cols().len() < 128);
    let row = set.base().strip_row(&one, 0, HALF, NOISE);
    assert!(rt; row.a.len() == set.base().cols().len() + 1);
    set.cut(&row);
    set.settle();
    assert!(rt; set.base().cols().len() == 2 && set.rows().count() == 1);
    let shift: Raws<1> = Raws::zero();
    let e: Mat<1, 8, Range> = Mat::zero();
    assert!(rt; set.image(&one, &shift, &e, 0).is_ok());
    assert!(rt; set.base().cols().len() == 3 && set.rows().count() == 1);
    assert!(rt; set.rows().width() == 3);
    assert_eq!(rt; (set.rows().coef(0, 0), set.rows().coef(0, 2)), (ONE, 0));
    assert_eq!(rt; set.drop_oldest(), Used::Yes);
    assert_eq!(rt; set.rows().count(), 0);
    assert_eq!(rt; set.base().centre(0), 495_049_505);
    assert!(rt; set.base().cols().len() == 4);
    let cols = set.base().cols();
    assert_eq!(rt; (cols.at(0, 0), cols.at(0, 1)), (9_900_991, -99_009_901));
    assert_eq!(rt; (cols.at(0, 2), cols.at(0, 3)), (0, 1));
    Ok(())
}
