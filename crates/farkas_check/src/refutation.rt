//! Whether multipliers refute kept rows.

ghost use Rattle.std.specs.Prelude.{IsTrue, ◌≡◌, ◌*◌, ◌<◌, ◌≤◌, ◌*ℤ◌, length, pos, unsigned_abs};
ghost use Rattle.set_rules.specs.Sum.{total, magnitude};
ghost use Rattle.set_rules.specs.Limits.{row_limit};
ghost use Rattle.set_rules.specs.Farkas.{combined_coefficient, combined_right, passes as passes_of};
ghost use Rattle.farkas_check.specs.Refutes.{Refuted};
ghost use Rattle.farkas_check.specs.Multipliers.{multiplied_limit};

use fixed_mat::Rows;

/// Whether these multipliers, one for each row, refute the rows, whose numbers are nano-units: the rows times the
/// multipliers, added, have a right side out of reach of the coefficients. By Farkas' lemma (Farkas 1902), for
/// constrained zonotopes (Scott, Raimondo, Marseglia and Braatz 2016), no choice of symbols then satisfies every row.
pub fn passes(rows: &Rows, list: &[i32]) -> bool
    ensures value { result ≡ passes_of rows.now.width rows.now.rows list.now }
    ensures refutes { IsTrue result → Refuted rows.now.width rows.now.rows }
{
    list.len() == rows.count()
        && combined_size(rows, list) < combined_right(rows, list).unsigned_abs()
}

/// The sum of the magnitudes of the coefficients of the rows multiplied and added.
fn combined_size(rows: &Rows, list: &[i32]) -> u128
    requires { length list.now ≡ length rows.now.rows }
    ensures { pos result ≡ total rows.now.width (λ t. magnitude (combined_coefficient rows.now.rows list.now t)) }
{
    let mut size = 0;
    for t in 0..rows.width() {
        size += combined_coefficient(rows, list, t).unsigned_abs();
    }
    size
}

/// Coefficient `t` of the rows multiplied and added.
fn combined_coefficient(rows: &Rows, list: &[i32], t: usize) -> i128
    requires multipliers { length list.now ≡ length rows.now.rows }
    requires column { t < rows.now.width }
    ensures value { result ≡ combined_coefficient rows.now.rows list.now t }
    ensures within { unsigned_abs result ≤ 6 * multiplied_limit }
{
    let mut sum = 0;
    for r in 0..rows.count() {
        sum += multiplied(list[r], rows.coef(r, t));
    }
    sum
}

/// The right side of the rows multiplied and added.
fn combined_right(rows: &Rows, list: &[i32]) -> i128
    requires { length list.now ≡ length rows.now.rows }
    ensures value { result ≡ combined_right rows.now.rows list.now }
{
    let mut sum = 0;
    for r in 0..rows.count() {
        sum += multiplied(list[r], rows.rhs(r));
    }
    sum
}

/// A number of a row, times a multiplier.
pub(crate) fn multiplied(multiplier: i32, number: i128) -> i128
    requires { unsigned_abs number ≤ row_limit }
    ensures value { result ≡ multiplier *ℤ number }
    ensures within { unsigned_abs result ≤ multiplied_limit }
{
    i128::from(multiplier) * number
}
