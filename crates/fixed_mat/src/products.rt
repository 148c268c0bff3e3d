//! Unrounded products of a row with a vector or a column.

ghost use Rattle.std.specs.Prelude.{◌≡◌, ℕ, ◌+◌, ◌*◌, ◌<◌, ◌≤◌, ◌^◌, length, unsigned_abs, ◌*ℤ◌};
ghost use Rattle.set_rules.specs.Sum.{total};
ghost use Rattle.set_rules.specs.Columns.{at, entry, column_entry};
ghost use Rattle.set_rules.specs.Zono.{range};
ghost use Rattle.set_rules.specs.Limits.{coef, most_columns, most_states};
ghost use Rattle.set_rules.specs.Products.{product};
ghost use Rattle.fixed_mat.specs.Fits.{FitsColumn, FitsRow, widest_product};

use crate::cols::Cols;
use crate::mat::{Coef, Mat, Range};
use crate::whole::Whole;

/// Row `r` of `a` times the vector `x`, in nano-units times nano-units.
pub fn row_times_vector<const R: usize, const N: usize>(
    a: &Mat<R, N, Coef>,
    r: usize,
    x: &Mat<N, 1, Range>,
) -> i128
    requires row { r < R }
    requires small { N ≤ most_states }
    ensures value { result ≡ total N (λ l. entry N a.now r l *ℤ at x.now l) }
    ensures within { unsigned_abs result ≤ widest_product N }
{
    let mut sum = 0;
    for l in 0..N {
        sum += times(a.at(r, l), x.at(l, 0));
    }
    sum
}

/// Row `r` of `a` times column `t`, in nano-units times nano-units, in the width of `W`, in which the products fit.
pub fn column_product<W: Whole, const R: usize, const N: usize>(
    a: &Mat<R, N, Coef>,
    r: usize,
    cols: &Cols<N>,
    t: usize,
) -> W
    requires row { r < R }
    requires column { t < length cols.now }
    requires fits { FitsColumn W.limit N a.now r cols.now t }
    ensures value { W.value result ≡ product N a.now r cols.now t }
    ensures within { unsigned_abs (W.value result) ≤ W.limit }
{
    let column = cols.column(t);
    let mut sum = W::zero();
    for l in 0..N {
        sum = sum.plus_product(a.at(r, l), column[l]);
    }
    sum
}

/// The sum of the products of `row` with column `t`, in nano-units times nano-units.
pub fn dot<const N: usize>(row: &Mat<1, N, Coef>, cols: &Cols<N>, t: usize) -> i128
    requires { t < length cols.now }
    ensures value { result ≡ total N (λ l. at row.now l *ℤ column_entry cols.now l t) }
    ensures within { unsigned_abs result ≤ widest_product N }
{
    tell_products(row, cols);
    column_product::<i128, 1, N>(row, 0, cols, t)
}

/// `x` times `y`: a product of two numbers of 64 bits is one instruction.
pub fn times(x: i64, y: i64) -> i128
    requires left { unsigned_abs x ≤ coef }
    requires right { unsigned_abs y ≤ range }
    ensures value { result ≡ x *ℤ y }
    ensures within { unsigned_abs result ≤ 10 ^ 30 }
{
    i128::from(x) * i128::from(y)
}

/// Tells that the products of each row with each column are far within 128 bits, from what the types keep.
pub fn tell_products<const R: usize, const N: usize>(a: &Mat<R, N, Coef>, cols: &Cols<N>)
    ensures rows { (r : ℕ) → r < R → FitsRow (widest_product N) N a.now r cols.now }
    ensures few { length cols.now ≤ most_columns }
    ensures height { N ≤ most_states }
{
    let _ = a.entries();
    let _ = cols.len();
    cols.tell();
}
