//! The candidates in their order, until one passes.

ghost use Rattle.std.specs.Prelude.{IsTrue, IfSome, ◌≡◌, ◌<◌, length, option_map};
ghost use Rattle.set_rules.specs.Farkas.{passes as passes_of, first_candidate as first_candidate_of};
ghost use Rattle.farkas_check.specs.Certificate.{list_of};
ghost use Rattle.farkas_check.specs.Search.{first_unit as first_unit_of, first_pair as first_pair_of};
ghost use Rattle.farkas_check.specs.Search.{first_from as first_from_of, first_at as first_at_of, first_in_column};
ghost use Rattle.farkas_check.specs.Sides.{IsPair, OpposedWithin};

use crate::certificate::Multipliers;
use crate::factors::Factors;
use crate::pair::Pair;
use fixed_mat::Rows;

/// The first candidate that refutes the rows, whose numbers are nano-units: each row alone, and then each two rows,
/// column by column, with the multipliers under which the column cancels. The refutation is Farkas' lemma (Farkas
/// 1902), for constrained zonotopes (Scott, Raimondo, Marseglia and Braatz 2016).
pub fn first_candidate(rows: &Rows) -> Option<Multipliers>
    ensures value { option_map list_of result ≡ first_candidate_of rows.now.width rows.now.rows }
    ensures passes { IfSome result (λ m. IsTrue (passes_of rows.now.width rows.now.rows (list_of m))) }
{
    match first_unit(rows) {
        Some(unit) => Some(unit),
        None => first_pair(rows),
    }
}

/// The first row that refutes the rows alone.
fn first_unit(rows: &Rows) -> Option<Multipliers>
    ensures { option_map list_of result ≡ first_unit_of rows.now.width rows.now.rows }
{
    for r in 0..rows.count() {
        if rows.row(r).sum() < rows.rhs(r).unsigned_abs() {
            return Some(Multipliers::unit(rows.count(), r));
        }
    }
    None
}

/// The first candidate of two rows that passes, by the older row and then the newer.
fn first_pair(rows: &Rows) -> Option<Multipliers>
    ensures { option_map list_of result ≡ first_pair_of rows.now.width rows.now.rows }
{
    for r in 0..rows.count() {
        if let Some(found) = first_from(rows, r) {
            return Some(found);
        }
    }
    None
}

/// The first of row `r` and a later one.
fn first_from(rows: &Rows, r: usize) -> Option<Multipliers>
    requires { r < length rows.now.rows }
    ensures { option_map list_of result ≡ first_from_of rows.now.width rows.now.rows r }
{
    let count = rows.count();
    for s in r + 1..count {
        if let Some(found) = first_at(rows, r, s) {
            return Some(found);
        }
    }
    None
}

/// The first of rows `r` and `s`.
fn first_at(rows: &Rows, r: usize, s: usize) -> Option<Multipliers>
    requires order { r < s }
    requires rows { s < length rows.now.rows }
    ensures { option_map list_of result ≡ first_at_of rows.now.width rows.now.rows r s }
{
    let pair = Pair::of(rows, r, s);
    if pair.is_hopeless() {
        return None;
    }
    let opposed_fail = pair.is_hopeless_opposed();
    for t in 0..rows.width() {
        if let Some(found) = candidate_at(rows, &pair, t, opposed_fail) {
            return Some(found);
        }
    }
    None
}

/// The candidate of two rows at column `t`, if both have a coefficient there and it passes. Where it is known that none
/// does whose right sides take from each other, such a one is not looked at further.
fn candidate_at(rows: &Rows, pair: &Pair, t: usize, opposed_fail: bool) -> Option<Multipliers>
    requires column { t < rows.now.width }
    requires pair { IsPair rows.now pair.now }
    requires opposed { IsTrue opposed_fail → OpposedWithin pair.now }
    ensures { option_map list_of result ≡ first_in_column rows.now.width rows.now.rows pair.now.r pair.now.s t }
{
    let a = rows.coef(pair.r, t);
    let b = rows.coef(pair.s, t);
    if a == 0 || b == 0 {
        return None;
    }
    if opposed_fail && pair.are_opposed_at(a, b) {
        return None;
    }
    let by = Factors::cancelling(a, b);
    if pair.passes(rows, by) {
        Some(Multipliers::pair(rows.count(), pair.r, pair.s, by))
    } else {
        None
    }
}
