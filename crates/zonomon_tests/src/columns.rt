//! Columns of one state and rows of coefficients that tests are made of.
use fixed_mat::{Coefs, Cols};
use std::process::Abort;
use std::test::Fail;

/// The columns of these entries.
pub fn columns_of(entries: &[i64]) -> Result<Cols<1>, Fail> {
    let mut cols: Cols<1> = Cols::new();
    for v in entries {
        if cols.len() == 128 || v.unsigned_abs() > 1_000_000_000_000_000_000 {
            return Err("no room".into());
        }
        cols.push_diagonal(0, *v);
    }
    Ok(cols)
}

/// The row of these coefficients.
pub fn row_of(coefficients: &[i128]) -> Result<Coefs, Fail> {
    let mut row = Coefs::new();
    for v in coefficients {
        if row.len() == 128 {
            return Err("no room".into());
        }
        row.push(*v)?;
    }
    Ok(row)
}

/// Asserts that the columns have these entries.
pub fn expect_columns(rt: &impl Abort, cols: &Cols<1>, entries: &[i64]) {
    assert_eq!(rt; cols.len(), entries.len());
    for (t, entry) in entries.iter().enumerate() {
        assert_eq!(rt; cols.at(0, t), *entry);
    }
}
