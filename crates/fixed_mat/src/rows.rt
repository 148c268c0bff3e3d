//! Rows that a set keeps: linear equations on its symbols.

ghost use Rattle.std.specs.Prelude.{◌≡◌, ℕ, ◌+◌, ◌<◌, ◌≤◌, ◌↔◌, [], ◌∷◌, ◌++◌, length, map, drop, unsigned_abs, replicate, pos};
ghost use Rattle.std.specs.List.{sum_by};
ghost use Rattle.set_rules.specs.Limits.{row_limit, most_columns, most_rows};
ghost use Rattle.set_rules.specs.Reduce.{places};
ghost use Rattle.set_rules.specs.Rows.{row_at, widened_by};
ghost use Rattle.set_rules.specs.Farkas.{coefficient};
ghost use Rattle.set_rules.specs.Products.{row_with};
ghost use Rattle.fixed_mat.specs.Rows.{marked, condensed_rows};

use crate::coefs::Coefs;
use crate::ring::RowRing;
use std::marker::Model;

/// At most six rows of one width, which is at most 128, oldest first.
/// In each the magnitudes of the coefficients add up to at most `ROW`, and the right side is within it.
#[derive(Drop)]
pub struct Rows {
    rows: RowRing,
    width: usize,
}

impl Model for Rows {
    ghost use Rattle.fixed_mat.specs.Rows.{Table, IsTable};

    ghost Value = { Table };

    ghost view = { λ t. record { width = t.width; rows = t.rows } };

    ghost invariant = { λ t. IsTable (record { width = t.width; rows = t.rows }) };
}

impl Rows {
    /// No rows, of this width.
    pub fn new(width: usize) -> Self
        requires { width ≤ most_columns }
        ensures rows { result.rows ≡ [] }
        ensures width { result.width ≡ width }
    {
        Rows {
            rows: RowRing::new(),
            width,
        }
    }

    /// How many rows there are.
    pub fn count(&self) -> usize
        ensures value { result ≡ length self.now.rows }
        ensures few { result ≤ most_rows }
    {
        self.rows.len()
    }

    /// How many coefficients each row has.
    pub fn width(&self) -> usize
        ensures value { result ≡ self.now.width }
        ensures narrow { result ≤ most_columns }
    {
        self.width
    }

    /// Tells that each row has a coefficient for each column, as the type keeps it.
    pub fn tell_widths(&self)
        ensures { (r : ℕ) → r < length self.now.rows → length (row_at self.now.rows r).coefficients ≡ self.now.width }
    {
        let _ = &self.rows;
    }

    /// The coefficients of row `r`.
    pub fn row(&self, r: usize) -> &Coefs
        requires { r < length self.now.rows }
        ensures value { result.now ≡ (row_at self.now.rows r).coefficients }
        ensures wide { length result.now ≡ self.now.width }
    {
        self.rows.coefficients(r)
    }

    /// Coefficient `t` of row `r`.
    pub fn coef(&self, r: usize, t: usize) -> i128
        requires row { r < length self.now.rows }
        requires column { t < self.now.width }
        ensures value { result ≡ coefficient self.now.rows r t }
        ensures within { unsigned_abs result ≤ row_limit }
    {
        self.row(r).at(t)
    }

    /// The sum of the magnitudes of the coefficients of row `r`.
    pub fn sum(&self, r: usize) -> u128
        requires { r < length self.now.rows }
        ensures value { result ≡ sum_by unsigned_abs (row_at self.now.rows r).coefficients }
        ensures within { result ≤ row_limit }
    {
        self.row(r).sum()
    }

    /// The right side of row `r`.
    pub fn rhs(&self, r: usize) -> i128
        requires { r < length self.now.rows }
        ensures value { result ≡ (row_at self.now.rows r).right }
        ensures within { unsigned_abs result ≤ row_limit }
    {
        self.rows.right(r)
    }

    /// Keeps a row as the newest.
    pub fn push(&mut self, a: &Coefs, b: i128)
        requires room { length self.old.rows < most_rows }
        requires width { length a.now ≡ self.old.width }
        requires right { unsigned_abs b ≤ row_limit }
        ensures rows { self.new.rows ≡ self.old.rows ++ row_with a.now b ∷ [] }
        ensures width { self.new.width ≡ self.old.width }
    {
        self.rows.push(a, b);
    }

    /// Adds zero coefficients to each row.
    pub fn widen(&mut self, by: usize)
        requires { self.old.width + by ≤ most_columns }
        ensures rows { self.new.rows ≡ map (widened_by by) self.old.rows }
        ensures width { self.new.width ≡ self.old.width + by }
    {
        for r in 0..self.rows.len() {
            self.rows.widen(r, by);
        }
        self.width += by;
    }

    /// Drops the oldest row.
    pub fn drop_first(&mut self)
        requires { 0 < length self.old.rows }
        ensures rows { self.new.rows ≡ drop 1 self.old.rows }
        ensures width { self.new.width ≡ self.old.width }
    {
        self.rows.drop_first();
    }

    /// Keeps in each row the coefficients at the `count` marked places, in their order. Then come zeros for so many states, and one
    /// coefficient for each row, oldest first, of which its own is the sum of the magnitudes that it lost.
    pub fn condense(&mut self, keep: &[bool], count: usize, states: usize)
        requires marks { self.old.width ≤ length keep.now }
        requires count { count ≡ length (places (marked keep.now) self.old.width) }
        requires room { count + states + length self.old.rows ≤ most_columns }
        ensures rows { self.new.rows ≡ condensed_rows (marked keep.now) states self.old.rows }
        ensures width { self.new.width ≡ count + states + length self.old.rows }
    {
        let rows = self.rows.len();
        for r in 0..rows {
            self.rows.condense(r, keep, states + rows, states + r);
        }
        self.width = count + states + rows;
    }
}
