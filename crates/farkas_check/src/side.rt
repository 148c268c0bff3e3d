//! One of two rows.

ghost use Rattle.std.specs.Prelude.{◌≤◌, unsigned_abs};
ghost use Rattle.set_rules.specs.Limits.{row_limit};

/// What is known of one row beside another, in nano-units: its right side, the sum of the magnitudes of its
/// coefficients, and the greatest of these in the columns in which the other row has 0.
#[derive(Clone, Copy, Debug)]
pub(crate) struct Side {
    pub(crate) right: i128,
    pub(crate) sum: u128,
    pub(crate) own: u128,
    ghost right_small: { unsigned_abs right ≤ row_limit },
    ghost sum_small: { sum ≤ row_limit },
    ghost within: { own ≤ sum },
}
