//! Rows brought to one size.

ghost use Rattle.std.specs.Prelude.{◌≡◌, ◌≤◌, ◌<◌, length, unsigned_abs};
ghost use Rattle.set_rules.specs.Limits.{row_limit, most_columns};

use crate::fixed::Fixed;
use crate::part::Part;
use crate::vector::Vector;
use fixed_mat::Rows;

/// How often the numbers of a row are halved, so that its right side and the sum of its magnitudes are below 1.
#[derive(Clone, Copy, Debug)]
pub(crate) struct Scale {
    halvings: u32,
    ghost few: { halvings ≤ 80 },
}

impl Scale {
    /// Of row `r`. No number of a row takes more than 74 bits.
    fn of(rows: &Rows, r: usize) -> Scale
        requires { r < length rows.now.rows }
    {
        let size = rows.sum(r).max(rows.rhs(r).unsigned_abs());
        Scale {
            halvings: (128 - size.leading_zeros()).min(80),
        }
    }

    /// A number of the row.
    fn scaled(self, number: i128) -> Fixed
        requires { unsigned_abs number ≤ row_limit }
    {
        Fixed::of((number * 1_099_511_627_776) >> self.halvings)
    }

    /// The number from -1 to 1 that a coefficient of the row becomes.
    fn part(self, number: i128) -> Part
        requires { unsigned_abs number ≤ row_limit }
    {
        Part::of((number * 1_099_511_627_776) >> self.halvings)
    }

    /// A number of the row times `2^13`, for right sides that are small beside the row's sum.
    fn finely_scaled(self, number: i128) -> Fixed
        requires { unsigned_abs number ≤ row_limit }
    {
        Fixed::of((number * 9_007_199_254_740_992) >> self.halvings)
    }
}

/// The scale of each row.
#[derive(Clone, Copy, Debug)]
pub(crate) struct Scales {
    rows: [Scale; 6],
    least: u32,
}

impl Scales {
    pub(crate) fn of(rows: &Rows) -> Scales {
        let mut scales = [Scale { halvings: 0 }; 6];
        let mut least = 128;
        for (r, scale) in scales.iter_mut().enumerate() {
            if r < rows.count() {
                *scale = Scale::of(rows, r);
                least = scale.halvings.min(least);
            }
        }
        Scales {
            rows: scales,
            least,
        }
    }

    /// A coefficient of row `r`.
    pub(crate) fn part(&self, r: usize, number: i128) -> Part
        requires row { r < 6 }
        requires small { unsigned_abs number ≤ row_limit }
    {
        self.rows[r].part(number)
    }

    /// A number of row `r`.
    pub(crate) fn scaled(&self, r: usize, number: i128) -> Fixed
        requires row { r < 6 }
        requires small { unsigned_abs number ≤ row_limit }
    {
        self.rows[r].scaled(number)
    }

    /// The coefficients of a symbol.
    pub(crate) fn column(&self, rows: &Rows, t: usize) -> Vector
        requires { t < rows.now.width }
    {
        let mut column = Vector::zero();
        for (r, entry) in column.entries.iter_mut().enumerate() {
            if r < rows.count() {
                *entry = self.rows[r].scaled(rows.coef(r, t));
            }
        }
        column
    }

    /// The right sides, all enlarged alike, so that the greatest magnitude is 1; all 0 where none shows.
    pub(crate) fn right_sides(&self, rows: &Rows) -> Vector {
        let right = self.fine_right_sides(rows);
        right.over(Fixed::of(i128::from(right.most())))
    }

    /// The right sides times `2^13`.
    pub(crate) fn fine_right_sides(&self, rows: &Rows) -> Vector {
        let mut right = Vector::zero();
        for (r, entry) in right.entries.iter_mut().enumerate() {
            if r < rows.count() {
                *entry = self.rows[r].finely_scaled(rows.rhs(r));
            }
        }
        right
    }

    /// Multipliers of the scaled rows, brought to the rows themselves and enlarged or shrunk alike.
    pub(crate) fn unscaled(&self, ray: &Vector) -> Vector {
        let mut wide = [0_i128; 6];
        let mut most = 0;
        for r in 0..6 {
            let further = self.rows[r].halvings.saturating_sub(self.least);
            wide[r] = (i128::from(ray.entries[r].units) * 18_446_744_073_709_551_616) >> further;
            most = wide[r].unsigned_abs().max(most);
        }
        let halvings = (128 - most.leading_zeros()).saturating_sub(62);
        let mut unscaled = Vector::zero();
        for (entry, units) in unscaled.entries.iter_mut().zip(wide.iter()) {
            *entry = Fixed::of(*units >> halvings);
        }
        unscaled
    }
}
