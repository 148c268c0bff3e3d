use crate::columns::{columns_of, row_of};
use fixed_mat::Cols;
use row_drop::{gain, gain_within};
use std::test::Fail;

/// Gains, each with the columns and the row that it is of:
///
/// - a state within 1 unit that is read with noise within 0.1 units, of which a reading is taken almost whole;
/// - a prediction, which takes less;
/// - no row, which tells nothing where every coefficient is zero;
/// - a wide state and a narrow row, which would make the gain 10 ^ 18;
/// - a state and a row too wide for products in 64 bits, and a wider one that has to be shrunk.
const GAINS: [(&[i64], &[i128], i64); 6] = [
    (&[1_000_000_000], &[1_000_000_000, 100_000_000], 990_099_009),
    (
        &[4_950_496, -49_504_950, 1, 2],
        &[4_950_496, -49_504_950, 1, 2, 100_000_000],
        198_412_695,
    ),
    (&[1_000_000_000], &[0], 0),
    (
        &[-1_000_000_000_000_000_000],
        &[1_000_000_000],
        -1_000_000_000_000,
    ),
    (
        &[300_000_000_000, -200_000_000_000],
        &[300_000_000_000, -200_000_000_000, 7_000_000_000],
        999_623_218,
    ),
    (
        &[2_000_000_000_000, -200_000_000_000],
        &[2_000_000_000_000, -200_000_000_000, 7_000_000_000],
        999_987_871,
    ),
];

#[test]
fn each_row_has_its_gain(rt: HostRuntime) -> Result<(), Fail> {
    for (entries, coefficients, taken) in GAINS {
        let cols = columns_of(entries)?;
        let row = row_of(coefficients)?;
        assert!(rt; row.len() == cols.len() || row.len() == cols.len() + 1);
        assert_eq!(rt; gain(&cols, &row).at(0, 0), taken);
    }
    Ok(())
}

/// Whether a bound leaves room, leaves it open or is far off, the gain is 3/5: three times two of nine and one.
#[test]
fn every_bound_gives_the_same_gain(rt: HostRuntime) -> Result<(), Fail> {
    let mut cols: Cols<1> = Cols::new();
    cols.push_diagonal(0, 2_000_000_000);
    let row = row_of(&[3_000_000_000, -1_000_000_000])?;
    assert!(rt; cols.len() == 1 && row.len() == 2);
    for bound in [2_000_000_000, 3_000_000_000, 2_000_000_000_000] {
        assert_eq!(rt; gain_within(&cols, &row, bound).at(0, 0), 600_000_000);
    }
    Ok(())
}
