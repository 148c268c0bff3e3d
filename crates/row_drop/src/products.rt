//! A row times itself and times the states of columns.

ghost use Rattle.std.specs.Prelude.{◌≡◌, ◌<◌, ◌≤◌, ◌^◌, ◌/◌, length, ◌*ℤ◌, unsigned_abs};
ghost use Rattle.std.specs.List.{All, sum_by};
ghost use Rattle.set_rules.specs.Columns.{at};
ghost use Rattle.set_rules.specs.Gain.{greatest_entry};
ghost use Rattle.set_rules.specs.Limits.{most_columns};
ghost use Rattle.row_drop.specs.Room.{plain_limit, product_limit};
ghost use Rattle.row_drop.specs.Rows.{state_product, row_square, shrunk_state_product, FitsState, FitsSquare};

use crate::shrink::shrunk;
use fixed_mat::{Coefs, Cols, Whole};

/// The row times itself; in 64 bits where the square of its sum fits these.
pub fn plain_square(a: &Coefs) -> i128
    requires { sum_by unsigned_abs a.now < plain_limit }
    ensures { result ≡ row_square a.now }
{
    if a.sum() <= 3_000_000_000 {
        square_in::<i64>(a).wide()
    } else {
        square_in::<i128>(a)
    }
}

/// The row times itself, in the width of `W`, in which the products fit.
fn square_in<W: Whole>(a: &Coefs) -> W
    requires numbers { sum_by unsigned_abs a.now < plain_limit }
    requires products { FitsSquare W.limit a.now }
    ensures { W.value result ≡ row_square a.now }
{
    let mut sum = W::zero();
    for t in 0..a.len() {
        let number = number_at(a, t);
        sum = sum.plus_product(number, number);
    }
    sum
}

/// The row times state `i` of the columns, in the width of `W`, in which the products fit.
pub fn product_in<W: Whole, const N: usize>(cols: &Cols<N>, i: usize, a: &Coefs) -> W
    requires state { i < N }
    requires reaches { length cols.now ≤ length a.now }
    requires numbers { sum_by unsigned_abs a.now < plain_limit }
    requires products { FitsState W.limit cols.now a.now i }
    ensures { W.value result ≡ state_product cols.now a.now i }
{
    let mut sum = W::zero();
    for t in 0..cols.len() {
        sum = sum.plus_product(cols.at(i, t), number_at(a, t));
    }
    sum
}

/// Coefficient `t` of a row whose sum fits 64 bits.
fn number_at(a: &Coefs, t: usize) -> i64
    requires within { t < length a.now }
    requires small { sum_by unsigned_abs a.now < plain_limit }
    ensures { result ≡ at a.now t }
{
    a.at(t) as i64
}

/// The shrunk row times itself.
pub fn square_of(row: &[i64]) -> i128
    requires short { length row.now ≤ most_columns }
    requires small { All (λ x. unsigned_abs x < plain_limit) row.now }
    ensures value { result ≡ row_square row.now }
    ensures within { unsigned_abs result ≤ product_limit }
{
    let mut sum = 0;
    for t in 0..row.len() {
        sum += times(row[t], row[t]);
    }
    sum
}

/// The shrunk row times state `i` of the columns.
pub fn product_of<const N: usize>(cols: &Cols<N>, i: usize, row: &[i64], halvings: u32) -> i128
    requires state { i < N }
    requires shift { halvings ≤ 88 }
    requires below { greatest_entry cols.now / 2 ^ halvings < plain_limit }
    requires reaches { length cols.now ≤ length row.now }
    requires short { length row.now ≤ most_columns }
    requires small { All (λ x. unsigned_abs x < plain_limit) row.now }
    ensures value { result ≡ shrunk_state_product halvings cols.now row.now i }
    ensures within { unsigned_abs result ≤ product_limit }
{
    let mut sum = 0;
    for t in 0..cols.len() {
        let entry = i128::from(cols.at(i, t));
        sum += times(shrunk(entry, halvings), row[t]);
    }
    sum
}

/// `x` times `y`.
fn times(x: i64, y: i64) -> i128
    requires left { unsigned_abs x < plain_limit }
    requires right { unsigned_abs y < plain_limit }
    ensures value { result ≡ x *ℤ y }
    ensures within { unsigned_abs result ≤ 2 ^ 80 }
{
    i128::from(x) * i128::from(y)
}
