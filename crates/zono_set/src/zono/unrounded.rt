//! A row that surely spreads a set, told before any share of it is rounded.

ghost use Rattle.std.specs.Prelude.{IsTrue, ◌≡◌, ℕ, ◌+◌, ◌*◌, ◌<◌, ◌≤◌, ◌^◌, ◌⊎◌, length, ℤ, pos, ◌+ℤ◌, ◌-ℤ◌, ◌*ℤ◌, ◌≤ℤ◌, ◌<ℤ◌};
ghost use Rattle.std.specs.Prelude.{unsigned_abs};
ghost use Rattle.std.specs.List.{sum_by};
ghost use Rattle.set_rules.specs.Sum.{total, magnitude};
ghost use Rattle.set_rules.specs.Columns.{at, column_entry, row_magnitude};
ghost use Rattle.set_rules.specs.Zono.{range};
ghost use Rattle.set_rules.specs.Gain.{substitution, spread};
ghost use Rattle.set_rules.specs.Limits.{coef, row_limit, narrow_limit, most_states};
ghost use Rattle.set_rules.specs.Products.{raw_rest, raw_bound, row_with};

use crate::zono::Zono;
use fixed_mat::{Coef, Coefs, Cols, Mat};

impl<const N: usize> Zono<N> {
    /// Whether `gain[i]` times the row `a`, taken from each state `i`, surely makes the
    /// sum of the radii greater than `before`, which it is now.
    /// What makes up for the rounding adds no less than the rounding takes away, so the
    /// unrounded shares decide. Those that do not fit 64 bits decide nothing.
    pub(crate) fn surely_spreads(&self, before: i128, a: &Coefs, gain: &Mat<N, 1, Coef>) -> bool
        requires row { (length a.now ≡ length self.now.columns) ⊎ (length a.now ≡ length self.now.columns + 1) }
        requires before { before ≡ spread N self.now }
        requires low { pos 0 ≤ℤ before }
        requires high { before ≤ℤ pos (10 ^ 20) }
        ensures { IsTrue result → (b : ℤ) → spread N self.now <ℤ spread N (substitution N gain.now (row_with a.now b) self.now) }
    {
        if !self.has_narrow_shares(a, gain) {
            return false;
        }
        let of_symbol = new_coefficient(a, self.cols.len());
        let sizes = unrounded_sizes(&self.cols, a, gain);
        let mut sum = 0;
        for i in 0..N {
            sum += widened_size(sizes[i], gain.at(i, 0), of_symbol);
        }
        sum > 1_000_000_000 * before
    }

    /// Whether in each state the magnitudes of the entries and of the shares of the row,
    /// both unrounded, add up to a number that fits 64 bits.
    fn has_narrow_shares(&self, a: &Coefs, gain: &Mat<N, 1, Coef>) -> bool
        ensures numbers { IsTrue result → sum_by unsigned_abs a.now ≤ narrow_limit }
        ensures sizes { IsTrue result → (i : ℕ) → i < N → raw_bound self.now.columns i (at gain.now i) a.now ≤ℤ pos narrow_limit }
    {
        if a.sum() > 9_000_000_000_000_000_000 {
            return false;
        }
        for i in 0..N {
            if !has_narrow_size(self.radius(i), gain.at(i, 0), a) {
                return false;
            }
        }
        true
    }
}

/// Whether a radius and a gain's share of the row, both unrounded, add up to a number that fits 64 bits.
fn has_narrow_size(radius: i64, gain: i64, a: &Coefs) -> bool
    requires radius { unsigned_abs radius ≤ range }
    requires gain { unsigned_abs gain ≤ coef }
    ensures { IsTrue result → 1_000_000_000 * unsigned_abs radius + unsigned_abs gain * sum_by unsigned_abs a.now ≤ narrow_limit }
{
    1_000_000_000 * u128::from(radius.unsigned_abs()) + u128::from(gain.unsigned_abs()) * a.sum()
        <= 9_000_000_000_000_000_000
}

/// The magnitude of the coefficient past `count` columns, 0 where there is none.
fn new_coefficient(a: &Coefs, count: usize) -> i128
    requires { count ≤ length a.now }
    ensures value { result ≡ magnitude (at a.now count) }
    ensures within { unsigned_abs result ≤ row_limit }
{
    if count < a.len() {
        a.at(count).abs()
    } else {
        0
    }
}

/// The size of a state with the share of a new symbol, in 128 bits.
fn widened_size(size: i64, gain: i64, of_symbol: i128) -> i128
    requires gain { unsigned_abs gain ≤ coef }
    requires symbol { unsigned_abs of_symbol ≤ row_limit }
    ensures value { result ≡ size +ℤ magnitude gain *ℤ of_symbol }
    ensures within { unsigned_abs result ≤ 2 * 10 ^ 34 }
{
    i128::from(size) + i128::from(gain.abs()) * of_symbol
}

/// The sum of the magnitudes in each state of the columns once the gains take their
/// shares of the row, unrounded, in nano-units times nano-units.
fn unrounded_sizes<const N: usize>(cols: &Cols<N>, a: &Coefs, gain: &Mat<N, 1, Coef>) -> [i64; 8]
    requires len { length cols.now ≤ length a.now }
    requires numbers { sum_by unsigned_abs a.now ≤ narrow_limit }
    requires sizes { (i : ℕ) → i < N → raw_bound cols.now i (at gain.now i) a.now ≤ℤ pos narrow_limit }
    ensures { (i : ℕ) → i < N → at result i ≡ total (length cols.now) (λ t. magnitude (raw_rest (column_entry cols.now i t) (at gain.now i) (at a.now t))) }
{
    let mut sizes = [0; 8];
    for t in 0..cols.len() {
        add_column(&mut sizes, cols.column(t), gain, a.at(t) as i64);
    }
    sizes
}

/// Adds the magnitude of what is left of each entry of a column, once its gain takes its share of `number`, to the size of its state.
fn add_column<const N: usize>(
    sizes: &mut [i64; 8],
    column: &[i64],
    gain: &Mat<N, 1, Coef>,
    number: i64,
)
    requires height { length column.now ≡ N }
    requires small { N ≤ most_states }
    requires scaled { (k : ℕ) → k < N → unsigned_abs (pos 1_000_000_000 *ℤ at column.now k) ≤ narrow_limit }
    requires shares { (k : ℕ) → k < N → unsigned_abs (at gain.now k *ℤ number) ≤ narrow_limit }
    requires differences { (k : ℕ) → k < N → unsigned_abs (raw_rest (at column.now k) (at gain.now k) number) ≤ narrow_limit }
    requires sums { (k : ℕ) → k < N →
        unsigned_abs (at sizes.old k +ℤ magnitude (raw_rest (at column.now k) (at gain.now k) number)) ≤ narrow_limit }
    ensures { (k : ℕ) → k < N → at sizes.new k ≡ at sizes.old k +ℤ magnitude (raw_rest (at column.now k) (at gain.now k) number) }
{
    for i in 0..column.len() {
        let entry = 1_000_000_000 * column[i];
        let share = gain.at(i, 0) * number;
        sizes[i] += (entry - share).abs();
    }
}
