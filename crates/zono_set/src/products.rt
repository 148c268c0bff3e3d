//! A row times a set, rounded, and what a gain's shares of a row leave of a state. Each pass over the columns is generic over its width.

ghost use Rattle.std.specs.Prelude.{IsTrue, ◌≡◌, ℕ, ◌<◌, ◌≤◌, ◌^◌, length, pos, ◌≤ℤ◌, ◌+ℤ◌, ◌*ℤ◌, ◌*◌, unsigned_abs};
ghost use Rattle.std.specs.List.{sum_by};
ghost use Rattle.set_rules.specs.Sum.{total};
ghost use Rattle.set_rules.specs.Columns.{at, entry, row_magnitude};
ghost use Rattle.set_rules.specs.Round.{rnd as rnd_of, residue as residue_of, ceil_s as ceil_of};
ghost use Rattle.set_rules.specs.Zono.{range};
ghost use Rattle.set_rules.specs.Limits.{coef, row_limit, raw_limit, narrow_limit, most_states};
ghost use Rattle.set_rules.specs.Products.{rounded_size, row_residue, rest_of, rest_size, share_residue};
ghost use Rattle.fixed_mat.specs.Fits.{FitsRow};

use fixed_mat::{
    Coef, Coefs, Cols, Mat, Range, Rounding, Whole, column_product, rounded, row_times_vector,
    tell_products,
};

/// Row `r` of `a` times the centre, and `shift` more, rounded.
pub fn rounded_centre<const R: usize, const N: usize>(
    a: &Mat<R, N, Coef>,
    r: usize,
    centre: &Mat<N, 1, Range>,
    shift: i128,
) -> Rounding
    requires row { r < R }
    requires small { N ≤ most_states }
    requires shift { unsigned_abs shift ≤ raw_limit }
    ensures nearest { result.nearest ≡ rnd_of (total N (λ l. entry N a.now r l *ℤ at centre.now l) +ℤ shift) }
    ensures residue { result.residue ≡ residue_of (total N (λ l. entry N a.now r l *ℤ at centre.now l) +ℤ shift) }
    ensures within { unsigned_abs result.nearest ≤ 8_100_000_000_000_000_000_000 }
    ensures low { pos 0 ≤ℤ result.residue }
    ensures half { result.residue ≤ℤ pos 500_000_000 }
{
    rounded(row_times_vector(a, r, centre) + shift)
}

/// Over a row of numbers: the sum of the magnitudes, and of what the rounding leaves.
#[derive(Drop)]
pub struct RowSums {
    pub size: i128,
    pub left: i128,
}

/// The sums for row `r` of `a` times all columns, in 64 bits where the products are `narrow`.
pub fn row_sums<const R: usize, const N: usize>(
    a: &Mat<R, N, Coef>,
    r: usize,
    cols: &Cols<N>,
    narrow: bool,
) -> RowSums
    requires row { r < R }
    requires narrow { IsTrue narrow → FitsRow narrow_limit N a.now r cols.now }
    ensures size { result.size ≡ rounded_size N a.now r cols.now }
    ensures left { result.left ≡ row_residue N a.now r cols.now }
    ensures size_low { pos 0 ≤ℤ result.size }
    ensures size_high { result.size ≤ℤ pos (10 ^ 25) }
    ensures left_low { pos 0 ≤ℤ result.left }
    ensures left_high { result.left ≤ℤ pos (10 ^ 12) }
{
    tell_products(a, cols);
    if narrow {
        sums_in::<i64, R, N>(a, r, cols)
    } else {
        sums_in::<i128, R, N>(a, r, cols)
    }
}

/// The same in the width of `W`, in which the products and the sum of their rounded magnitudes fit.
fn sums_in<W: Whole, const R: usize, const N: usize>(
    a: &Mat<R, N, Coef>,
    r: usize,
    cols: &Cols<N>,
) -> RowSums
    requires row { r < R }
    requires fits { FitsRow W.limit N a.now r cols.now }
    requires sizes { rounded_size N a.now r cols.now ≤ℤ pos W.limit }
    ensures size { result.size ≡ rounded_size N a.now r cols.now }
    ensures left { result.left ≡ row_residue N a.now r cols.now }
    ensures left_low { pos 0 ≤ℤ result.left }
    ensures left_high { result.left ≤ℤ pos (10 ^ 12) }
{
    let mut size = W::zero();
    let mut left: u64 = 0;
    for t in 0..cols.len() {
        let sum: W = column_product(a, r, cols, t);
        let product = sum.rounded();
        size = size.plus(product.nearest.size());
        left += product.residue;
    }
    RowSums {
        size: size.wide(),
        left: i128::from(left),
    }
}

/// `ceil_s` of what the rounding leaves of some numbers, in 64 bits.
pub fn narrow_ceil(left: u64) -> i64
    requires { left ≤ 2 * 10 ^ 12 }
    ensures value { result ≡ ceil_of (pos left) }
    ensures within { unsigned_abs result ≤ 10 ^ 12 }
{
    ((left + 999_999_999) / 1_000_000_000) as i64
}

/// A gain times the right side of a row, rounded.
pub fn rounded_share(gain: i64, v: i128) -> Rounding
    requires gain { unsigned_abs gain ≤ coef }
    requires number { unsigned_abs v ≤ row_limit }
    ensures nearest { result.nearest ≡ rnd_of (gain *ℤ v) }
    ensures residue { result.residue ≡ residue_of (gain *ℤ v) }
    ensures within { unsigned_abs result.nearest ≤ 2 * 10 ^ 25 }
    ensures low { pos 0 ≤ℤ result.residue }
    ensures half { result.residue ≤ℤ pos 500_000_000 }
{
    rounded(i128::from(gain) * v)
}

/// Writes to `rest` what is left of row `i` of the columns once a gain takes its share of the
/// row; gives the sum of the magnitudes, and of what the rounding leaves.
/// Where that sum is past `RANGE`, `rest` may hold anything.
pub fn take_shares<const N: usize>(
    cols: &Cols<N>,
    i: usize,
    gain: i64,
    a: &Coefs,
    rest: &mut [i64; 128],
) -> RowSums
    requires row { i < N }
    requires gain { unsigned_abs gain ≤ coef }
    requires len { length cols.now ≡ length a.now }
    requires radius { row_magnitude cols.now i ≤ℤ pos range }
    ensures size { result.size ≡ rest_size cols.now i gain a.now }
    ensures left { result.left ≡ share_residue gain a.now }
    ensures size_low { pos 0 ≤ℤ result.size }
    ensures size_high { result.size ≤ℤ pos (10 ^ 28) }
    ensures left_low { pos 0 ≤ℤ result.left }
    ensures left_high { result.left ≤ℤ pos (10 ^ 12) }
    ensures rest { result.size ≤ℤ pos range → (t : ℕ) → t < length a.now → at rest.new t ≡ rest_of cols.now i gain a.now t }
{
    let _ = a.len();
    if has_narrow_shares(gain, a) {
        shares_in::<i64, N>(cols, i, gain, a, rest)
    } else {
        shares_in::<i128, N>(cols, i, gain, a, rest)
    }
}

/// Whether each product of a gain with a number of the row fits 64 bits.
fn has_narrow_shares(gain: i64, a: &Coefs) -> bool
    requires { unsigned_abs gain ≤ coef }
    ensures numbers { IsTrue result → sum_by unsigned_abs a.now ≤ narrow_limit }
    ensures products { IsTrue result → unsigned_abs gain * sum_by unsigned_abs a.now ≤ narrow_limit }
{
    a.sum() <= 9_000_000_000_000_000_000
        && u128::from(gain.unsigned_abs()) * a.sum() <= 9_000_000_000_000_000_000
}

/// The same in the width of `W`, in which the shares and the sum of what is left fit.
fn shares_in<W: Whole, const N: usize>(
    cols: &Cols<N>,
    i: usize,
    gain: i64,
    a: &Coefs,
    rest: &mut [i64; 128],
) -> RowSums
    requires row { i < N }
    requires len { length cols.now ≡ length a.now }
    requires numbers { sum_by unsigned_abs a.now ≤ W.limit }
    requires products { unsigned_abs gain * sum_by unsigned_abs a.now ≤ W.limit }
    requires sizes { rest_size cols.now i gain a.now ≤ℤ pos W.limit }
    ensures size { result.size ≡ rest_size cols.now i gain a.now }
    ensures left { result.left ≡ share_residue gain a.now }
    ensures left_low { pos 0 ≤ℤ result.left }
    ensures left_high { result.left ≤ℤ pos (10 ^ 12) }
    ensures rest { result.size ≤ℤ pos range → (t : ℕ) → t < length a.now → at rest.new t ≡ rest_of cols.now i gain a.now t }
{
    let mut size = W::zero();
    let mut left: u64 = 0;
    for t in 0..a.len() {
        let number = W::of_wide(a.at(t));
        let product = number.times(gain);
        let share = product.rounded();
        let old = W::of(cols.at(i, t));
        let entry = old.minus(share.nearest);
        rest[t] = entry.low();
        size = size.plus(entry.size());
        left += share.residue;
    }
    RowSums {
        size: size.wide(),
        left: i128::from(left),
    }
}
