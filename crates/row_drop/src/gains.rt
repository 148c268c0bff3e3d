//! The gain of each state.

ghost use Rattle.std.specs.Prelude.{◌≡◌, ℕ, ◌+◌, ◌<◌, ◌≤◌, ◌^◌, ◌/◌, ◌⊎◌, length, pos, ◌*ℤ◌, int_div, unsigned_abs};
ghost use Rattle.std.specs.List.{All, sum_by};
ghost use Rattle.set_rules.specs.Columns.{column_entry};
ghost use Rattle.set_rules.specs.Gain.{gain as gain_list, greatest_entry, gain_of, clipped_gain};
ghost use Rattle.set_rules.specs.Limits.{coef, most_columns, most_states};
ghost use Rattle.set_rules.specs.Round.{unit};
ghost use Rattle.row_drop.specs.Room.{plain_limit, product_limit, AreClipped};
ghost use Rattle.row_drop.specs.Rows.{Covers, row_square, shrunk_state_product, gains_from, FitsState};

use crate::products::{plain_square, product_in, product_of, square_of};
use crate::shrink::{all_within, greatest_in_cols, has_room, room_for, shift_of, shrunk_row};
use arrayvec::ArrayVec;
use fixed_mat::{Coef, Coefs, Cols, Mat, Whole};

/// How much of the row `a` each state takes: the least squares, shrunk and clipped to `COEF`, in nano-units.
/// A coefficient past the last column belongs to a zero column.
pub fn gain<const N: usize>(cols: &Cols<N>, a: &Coefs) -> Mat<N, 1, Coef>
    requires { (length a.now ≡ length cols.now) ⊎ (length a.now ≡ length cols.now + 1) }
    ensures { result ≡ gain_list N cols.now a.now }
{
    gain_within(cols, a, greatest_in_cols(cols))
}

/// The same, where no magnitude in the columns is above `bound`: a small one saves going over the columns first.
pub fn gain_within<const N: usize>(cols: &Cols<N>, a: &Coefs, bound: u64) -> Mat<N, 1, Coef>
    requires long { (length a.now ≡ length cols.now) ⊎ (length a.now ≡ length cols.now + 1) }
    requires entries { (i t : ℕ) → i < N → unsigned_abs (column_entry cols.now i t) ≤ bound }
    ensures { result ≡ gain_list N cols.now a.now }
{
    let gains = gains_of(cols, a, bound);
    let mut gain = Mat::zero();
    gain.replace(&gains);
    gain
}

/// The gains one after another; where bounds show that no number is `2 ^ 40` or above, nothing is shrunk.
fn gains_of<const N: usize>(cols: &Cols<N>, a: &Coefs, bound: u64) -> ArrayVec<i64, 8>
    requires long { Covers a.now cols.now }
    requires entries { (i t : ℕ) → i < N → unsigned_abs (column_entry cols.now i t) ≤ bound }
    ensures value { result.items ≡ gain_list N cols.now a.now }
    ensures within { AreClipped result.items }
    ensures low { 1 ≤ N }
    ensures high { N ≤ most_states }
{
    cols.tell_heights();
    if a.sum() < 1_099_511_627_776 {
        if has_room(cols, bound, room_for(a.sum() as u64)) {
            return ratios_in::<i64, N>(cols, a);
        }
        if all_within(cols, 549_755_813_888) {
            return ratios_in::<i128, N>(cols, a);
        }
    }
    shrunk_ratios(cols, a)
}

/// The gain of each state where nothing has to be shrunk, by products in the width of `W`, in which they fit.
fn ratios_in<W: Whole, const N: usize>(cols: &Cols<N>, a: &Coefs) -> ArrayVec<i64, 8>
    requires long { Covers a.now cols.now }
    requires entries { greatest_entry cols.now < plain_limit }
    requires row { sum_by unsigned_abs a.now < plain_limit }
    requires products { (i : ℕ) → i < N → FitsState W.limit cols.now a.now i }
    ensures value { result.items ≡ gain_list N cols.now a.now }
    ensures within { AreClipped result.items }
    ensures low { 1 ≤ N }
    ensures high { N ≤ most_states }
{
    let _ = cols.len();
    let square = plain_square(a);
    let mut gains: ArrayVec<i64, 8> = ArrayVec::new();
    for i in 0..N {
        let product: W = product_in(cols, i, a);
        gains.push(ratio(product.wide(), square));
    }
    gains
}

/// The gain of each state of shrunk columns and a shrunk row.
fn shrunk_ratios<const N: usize>(cols: &Cols<N>, a: &Coefs) -> ArrayVec<i64, 8>
    requires { Covers a.now cols.now }
    ensures value { result.items ≡ gain_list N cols.now a.now }
    ensures within { AreClipped result.items }
    ensures low { 1 ≤ N }
    ensures high { N ≤ most_states }
{
    let halvings = shift_of(cols, a);
    let row = shrunk_row(a, halvings);
    ratios(cols, &row, halvings)
}

/// The gain of each state at this shift.
fn ratios<const N: usize>(cols: &Cols<N>, row: &[i64], halvings: u32) -> ArrayVec<i64, 8>
    requires shift { halvings ≤ 88 }
    requires below { greatest_entry cols.now / 2 ^ halvings < plain_limit }
    requires reaches { length cols.now ≤ length row.now }
    requires short { length row.now ≤ most_columns }
    requires small { All (λ x. unsigned_abs x < plain_limit) row.now }
    ensures value { result.items ≡ gains_from N (shrunk_state_product halvings cols.now row.now) (row_square row.now) }
    ensures within { AreClipped result.items }
    ensures low { 1 ≤ N }
    ensures high { N ≤ most_states }
{
    let _ = cols.len();
    let square = square_of(row);
    let mut gains: ArrayVec<i64, 8> = ArrayVec::new();
    for i in 0..N {
        gains.push(ratio(product_of(cols, i, row, halvings), square));
    }
    gains
}

/// A unit times `product / square`, rounded towards zero and clipped to `COEF`; 0 where the square is 0.
fn ratio(product: i128, square: i128) -> i64
    requires { unsigned_abs product ≤ product_limit }
    ensures value { result ≡ gain_of product square }
    ensures within { unsigned_abs result ≤ coef }
{
    if square == 0 {
        return 0;
    }
    clipped(quotient(product, square))
}

/// A unit times `product / square`, rounded towards zero.
fn quotient(product: i128, square: i128) -> i128
    requires small { unsigned_abs product ≤ product_limit }
    requires nonzero { 0 < unsigned_abs square }
    ensures value { result ≡ int_div (pos unit *ℤ product) square }
    ensures within { unsigned_abs result ≤ 10 ^ 36 }
{
    1_000_000_000 * product / square
}

/// `v`, or the nearer end of the range of a gain.
fn clipped(v: i128) -> i64
    ensures value { result ≡ clipped_gain v }
    ensures within { unsigned_abs result ≤ coef }
{
    v.clamp(-1_000_000_000_000, 1_000_000_000_000) as i64
}
