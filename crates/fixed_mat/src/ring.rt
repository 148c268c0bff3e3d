//! Rows that lie in a ring of slots, so that none moves where the oldest goes.

ghost use Rattle.std.specs.Prelude.{◌≡◌, ℕ, ◌+◌, ◌<◌, ◌≤◌, [], ◌∷◌, ◌++◌, length, drop, slice_set};
ghost use Rattle.set_rules.specs.Limits.{most_columns, most_rows};
ghost use Rattle.set_rules.specs.Products.{row_with};
ghost use Rattle.set_rules.specs.Reduce.{places};
ghost use Rattle.set_rules.specs.Rows.{row_at, widened_by};
ghost use Rattle.fixed_mat.specs.Rows.{marked, condensed_row};

use crate::coefs::Coefs;
use std::marker::Model;

/// A row: its coefficients, and its right side, in nano-units.
#[derive(Drop)]
struct KeptRow {
    a: Coefs,
    b: i128,
}

impl Model for KeptRow {
    ghost use Rattle.set_rules.specs.Rows.{Row};

    ghost Value = { Row };

    ghost view = { λ r. record { coefficients = r.a; right = r.b } };
}

impl Default for KeptRow {
    fn default() -> Self {
        KeptRow {
            a: Coefs::new(),
            b: 0,
        }
    }
}

impl KeptRow {
    /// Puts another row in its place.
    fn set_to(&mut self, a: &Coefs, b: i128)
        ensures { self.new ≡ row_with a.now b }
    {
        self.a.set_to(a);
        self.b = b;
    }

    /// Adds zero coefficients.
    fn widen(&mut self, by: usize)
        requires { length self.old.coefficients + by ≤ most_columns }
        ensures { self.new ≡ widened_by by self.old }
    {
        self.a.widen(by);
    }

    /// Keeps the coefficients at the marked places, and appends `more` of which the one at `place` is the sum of the magnitudes of the others.
    fn condense(&mut self, keep: &[bool], more: usize, place: usize)
        requires marks { length self.old.coefficients ≤ length keep.now }
        requires place { place < more }
        requires room { length (places (marked keep.now) (length self.old.coefficients)) + more ≤ most_columns }
        ensures { self.new ≡ condensed_row (marked keep.now) more place self.old }
    {
        let lost = self.a.retain(keep);
        self.a.widen(place);
        self.a.push(lost as i128).unwrap();
        self.a.widen(more - place - 1);
    }
}

/// At most six rows, oldest first: they lie in neighbouring slots, and the first slot comes after the last.
/// Only the rows that are kept say anything; what another slot holds is written over.
#[derive(Drop)]
pub(crate) struct RowRing {
    slots: [KeptRow; 6],
    first: usize,
    count: usize,
}

impl Model for RowRing {
    ghost use Rattle.std.specs.Prelude.{List};
    ghost use Rattle.set_rules.specs.Rows.{Row};
    ghost use Rattle.fixed_mat.specs.Ring.{around, IsRing};

    ghost Value = { List Row };

    ghost view = { λ q. around q.first q.count q.slots };

    ghost invariant = { λ q. IsRing q.first q.count };
}

impl RowRing {
    /// No rows.
    pub(crate) fn new() -> Self
        ensures { result ≡ [] }
    {
        RowRing {
            slots: Default::default(),
            first: 0,
            count: 0,
        }
    }

    /// How many rows there are.
    pub(crate) fn len(&self) -> usize
        ensures value { result ≡ length self.now }
        ensures few { result ≤ most_rows }
    {
        self.count
    }

    /// The coefficients of row `r`.
    pub(crate) fn coefficients(&self, r: usize) -> &Coefs
        requires { r < length self.now }
        ensures { result.now ≡ (row_at self.now r).coefficients }
    {
        let row = &self.slots[(self.first + r) % 6];
        &row.a
    }

    /// The right side of row `r`.
    pub(crate) fn right(&self, r: usize) -> i128
        requires { r < length self.now }
        ensures { result ≡ (row_at self.now r).right }
    {
        let row = &self.slots[(self.first + r) % 6];
        row.b
    }

    /// Keeps a row as the newest: its coefficients are written into the slot behind the others.
    pub(crate) fn push(&mut self, a: &Coefs, b: i128)
        requires { length self.old < most_rows }
        ensures { self.new ≡ self.old ++ row_with a.now b ∷ [] }
    {
        self.slots[(self.first + self.count) % 6].set_to(a, b);
        self.count += 1;
    }

    /// Drops the oldest row.
    pub(crate) fn drop_first(&mut self)
        requires { 0 < length self.old }
        ensures { self.new ≡ drop 1 self.old }
    {
        self.first = (self.first + 1) % 6;
        self.count -= 1;
    }

    /// Adds zero coefficients to row `r`.
    pub(crate) fn widen(&mut self, r: usize, by: usize)
        requires row { r < length self.old }
        requires room { length (row_at self.old r).coefficients + by ≤ most_columns }
        ensures { self.new ≡ slice_set self.old r (widened_by by (row_at self.old r)) }
    {
        self.slots[(self.first + r) % 6].widen(by);
    }

    /// Condenses row `r`, as `KeptRow::condense` does.
    pub(crate) fn condense(&mut self, r: usize, keep: &[bool], more: usize, place: usize)
        requires row { r < length self.old }
        requires marks { length (row_at self.old r).coefficients ≤ length keep.now }
        requires place { place < more }
        requires room { length (places (marked keep.now) (length (row_at self.old r).coefficients)) + more
            ≤ most_columns }
        ensures { self.new ≡ slice_set self.old r (condensed_row (marked keep.now) more place (row_at self.old r)) }
    {
        self.slots[(self.first + r) % 6].condense(keep, more, place);
    }
}
