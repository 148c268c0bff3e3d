use crate::columns::{columns_of, expect_columns};
use fixed_mat::{Cols, Mat, Range};
use girard_reduce::{kept, rank, reduce, reduce_in_place};
use std::test::Fail;

#[test]
fn equal_keys_go_by_place(rt: HostRuntime) {
    let keys = [0, 5, 0, 7].as_slice();
    assert_eq!(rt; (rank(keys, 1), rank(keys, 2)), (1, 3));
    let marks = kept(keys, 3);
    assert!(rt; marks.has(0) && !marks.has(2));
}

/// The columns 3, -5, 1 and 2 of one row, at most three: all keys are 0.
#[test]
fn least_columns_of_one_row_become_one(rt: HostRuntime) -> Result<(), Fail> {
    let cols = columns_of(&[3, -5, 1, 2])?;
    assert!(rt; cols.mag(0) <= 11);
    expect_columns(&rt, &reduce(&cols, 3), &[3, -5, 3]);
    Ok(())
}

/// The columns (4, 1), (3, 3), (0, 5) and (2, 2), at most three: their keys are 1, 3, 0 and 2.
#[test]
fn greatest_key_stays(rt: HostRuntime) -> Result<(), Fail> {
    let mut cols: Cols<2> = Cols::new();
    let mut col: Mat<2, 1, Range> = Mat::zero();
    for (upper, lower) in [(4, 1), (3, 3), (0, 5), (2, 2)] {
        col.set(0, 0, upper)?;
        col.set(1, 0, lower)?;
        assert!(rt; cols.len() < 128);
        cols.push(&col);
    }
    assert!(rt; cols.mag(0) <= 9 && cols.mag(1) <= 11);
    reduce_in_place(&mut cols, 3);
    assert_eq!(rt; cols.len(), 3);
    let columns = [cols.column(0), cols.column(1), cols.column(2)];
    assert_eq!(rt; columns, [[3, 3].as_slice(), &[6, 0], &[0, 8]]);
    Ok(())
}
