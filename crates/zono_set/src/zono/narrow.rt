//! Where the products of a row with the columns of a set fit 64 bits.

ghost use Rattle.std.specs.Prelude.{IsTrue, ℕ, ◌<◌};
ghost use Rattle.set_rules.specs.Limits.{narrow_limit};
ghost use Rattle.fixed_mat.specs.Fits.{FitsRow};

use crate::zono::Zono;
use fixed_mat::{Coef, Mat, times};

impl<const N: usize> Zono<N> {
    /// Whether the products of row `r` of `a` with each column, and their sums, fit 64
    /// bits: the magnitudes of the row times the radii bound them.
    pub(crate) fn has_narrow_row<const R: usize>(&self, a: &Mat<R, N, Coef>, r: usize) -> bool
        requires { r < R }
        ensures { IsTrue result → FitsRow narrow_limit N a.now r self.now.columns }
    {
        let _ = self.cols.len();
        let mut sum = 0;
        for l in 0..N {
            sum += times(a.at(r, l).abs(), self.radius(l));
        }
        sum <= 9_000_000_000_000_000_000
    }

    /// Whether the products of each row of `a` do.
    pub(crate) fn has_narrow_rows(&self, a: &Mat<N, N, Coef>) -> bool
        ensures { IsTrue result → (i : ℕ) → i < N → FitsRow narrow_limit N a.now i self.now.columns }
    {
        for i in 0..N {
            if !self.has_narrow_row(a, i) {
                return false;
            }
        }
        true
    }
}
