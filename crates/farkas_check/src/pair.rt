//! Two rows with multipliers, added: whether they pass.

ghost use Rattle.std.specs.Prelude.{IsTrue, ◌≡◌, ◌*◌, ◌≤◌, ◌<◌, ◌+ℤ◌, ◌*ℤ◌, length, pos, unsigned_abs};
ghost use Rattle.std.specs.Prelude.{int_lt, max, nat_eq, if◌then◌else◌};
ghost use Rattle.set_rules.specs.Columns.{at};
ghost use Rattle.set_rules.specs.Limits.{row_limit};
ghost use Rattle.farkas_check.specs.Multipliers.{multiplied_limit};
ghost use Rattle.farkas_check.specs.Two.{own_of, pair_passes};
ghost use Rattle.farkas_check.specs.Sides.{IsPair, right_by, least_by, left_by, AllWithin, OpposedAt, OpposedWithin};

use crate::factors::Factors;
use crate::refutation::multiplied;
use crate::side::Side;
use fixed_mat::{Coefs, Rows};

/// Two rows, and what is known of them before a column is tried.
#[derive(Clone, Copy, Debug)]
pub(crate) struct Pair {
    pub(crate) r: usize,
    pub(crate) s: usize,
    first: Side,
    second: Side,
}

impl Pair {
    /// Of rows `r` and `s`.
    pub(crate) fn of(rows: &Rows, r: usize, s: usize) -> Pair
        requires order { r < s }
        requires within { s < length rows.now.rows }
        ensures pair { IsPair rows.now result }
        ensures first { result.r ≡ r }
        ensures second { result.s ≡ s }
    {
        let a = rows.row(r);
        let b = rows.row(s);
        let own = Own::of(a, b);
        Pair {
            r,
            s,
            first: Side {
                right: rows.rhs(r),
                sum: a.sum(),
                own: own.first,
            },
            second: Side {
                right: rows.rhs(s),
                sum: b.sum(),
                own: own.second,
            },
        }
    }

    /// Whether no multipliers of the two pass: the one row gains nothing, and the other less than the one loses.
    pub(crate) fn is_hopeless(&self) -> bool
        ensures { IsTrue result → AllWithin self.now }
    {
        self.first.is_outweighed_by(&self.second) || self.second.is_outweighed_by(&self.first)
    }

    /// Whether none pass under which the right sides take from each other.
    pub(crate) fn is_hopeless_opposed(&self) -> bool
        ensures { IsTrue result → OpposedWithin self.now }
    {
        self.first.is_outweighed(self.second.reach(), &self.second)
            && self.second.is_outweighed(self.first.reach(), &self.first)
    }

    /// The right sides, multiplied and added.
    fn right(&self, by: Factors) -> i128
        ensures { result ≡ right_by self.now by.first by.second }
    {
        combined(by, self.first.right, self.second.right)
    }

    /// Whether the right sides take from each other under the multipliers under which these two coefficients cancel.
    pub(crate) fn are_opposed_at(&self, a: i128, b: i128) -> bool
        ensures { IsTrue result → OpposedAt self.now a b }
    {
        ((a < 0) == (b < 0)) == ((self.first.right < 0) == (self.second.right < 0))
    }

    /// What the rows' sums show to be left in the columns at the least.
    fn least_left(&self, by: Factors) -> u128
        ensures { pos result ≡ least_by self.now by.first by.second }
    {
        let x = u128::from(by.first.unsigned_abs());
        let y = u128::from(by.second.unsigned_abs());
        let shared = x * (self.first.sum - self.first.own);
        x * self.first.own
            + y * self.second.own
            + shared.abs_diff(y * (self.second.sum - self.second.own))
    }

    /// Whether these multipliers of the two pass. They are summed over the columns only where the rows' sums leave it
    /// open.
    pub(crate) fn passes(&self, rows: &Rows, by: Factors) -> bool
        requires { IsPair rows.now self.now }
        ensures { result ≡ pair_passes rows.now.width rows.now.rows self.now.r self.now.s by.first by.second }
    {
        let right = self.right(by).unsigned_abs();
        self.least_left(by) < right && leaves_less(rows.row(self.r), rows.row(self.s), by, right)
    }
}

/// In how many of the newest columns it is looked for what a row has to itself: there lies the symbol of its noise, which
/// is mostly the greatest. Only time rests on it.
const NEWEST: usize = 16;

/// The greatest magnitude of each of two rows in those of the newest columns in which the other has 0.
#[derive(Clone, Copy, Debug)]
struct Own {
    first: u128,
    second: u128,
}

impl Own {
    /// Of two rows with these coefficients.
    fn of(a: &Coefs, b: &Coefs) -> Own
        requires { length a.now ≡ length b.now }
        ensures first { result.first ≤ own_of (length a.now) (at a.now) (at b.now) }
        ensures second { result.second ≤ own_of (length a.now) (at b.now) (at a.now) }
    {
        let mut first = 0;
        let mut second = 0;
        let width = a.len();
        for t in width.saturating_sub(NEWEST)..width {
            first = with_own(first, a.at(t), b.at(t));
            second = with_own(second, b.at(t), a.at(t));
        }
        Own { first, second }
    }
}

/// The greater of `most` and a coefficient's magnitude, where the other row has 0 there.
fn with_own(most: u128, coefficient: i128, other: i128) -> u128
    requires { unsigned_abs coefficient ≤ row_limit }
    ensures { result ≡ max most (if nat_eq (unsigned_abs other) 0 then unsigned_abs coefficient else 0) }
{
    if other == 0 {
        most.max(coefficient.unsigned_abs())
    } else {
        most
    }
}

/// Whether less than `right` is left in the columns of two rows, multiplied and added. The sum ends where it gets there.
fn leaves_less(a: &Coefs, b: &Coefs, by: Factors, right: u128) -> bool
    requires { length a.now ≡ length b.now }
    ensures { result ≡ int_lt (left_by a.now b.now by.first by.second) (pos right) }
{
    let mut left = 0;
    for t in 0..a.len() {
        left += combined(by, a.at(t), b.at(t)).unsigned_abs();
        if right <= left {
            return false;
        }
    }
    left < right
}

/// Two numbers, multiplied and added.
fn combined(by: Factors, a: i128, b: i128) -> i128
    requires first { unsigned_abs a ≤ row_limit }
    requires second { unsigned_abs b ≤ row_limit }
    ensures value { result ≡ by.first *ℤ a +ℤ by.second *ℤ b }
    ensures within { unsigned_abs result ≤ 2 * multiplied_limit }
{
    multiplied(by.first, a) + multiplied(by.second, b)
}
