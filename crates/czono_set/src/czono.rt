//! A zonotope with rows on its symbols.

ghost use Rattle.std.specs.Prelude.{◌≡◌, ℕ, ◌+◌, ◌<◌, ◌≤◌, length, pos, ◌≤ℤ◌, unsigned_abs, IfOk, IfErr, OnOk, OnErr};
ghost use Rattle.set_rules.specs.Columns.{at};
ghost use Rattle.set_rules.specs.Zono.{InRange};
ghost use Rattle.set_rules.specs.Limits.{row_limit, most_columns, most_rows, most_states, constrained_columns};
ghost use Rattle.set_rules.specs.Box.{box};
ghost use Rattle.set_rules.specs.Image.{image as image_of, IsFirstPast};
ghost use Rattle.set_rules.specs.Reduce.{reduce_lifted};
ghost use Rattle.set_rules.specs.Rows.{row_at};
ghost use Rattle.set_rules.specs.Gain.{is_used};
ghost use Rattle.set_rules.specs.Keep.{without_rows, image_with_rows, drop_oldest as drop_oldest_of, used_up, cut as cut_of};
ghost use Rattle.set_rules.specs.Products.{row_with};
ghost use Rattle.zono_set.specs.Used.{used_where};
ghost use Rattle.czono_set.specs.Holds.{HoldsBase, HoldsBox, HoldsAll, EnclosesAll, HoldsCut};

use fixed_mat::{Coef, Coefs, Mat, Range, Raws, Rows};
use row_drop::gain_within;
use std::marker::Model;
use zono_set::{PastRange, Refusals, Rest, StripRow, Used, Zono};

/// How many columns a settled set has at most.
const COLUMNS: usize = 64;

/// The points of a zonotope, in nano-units, that some choice of its symbols gives which satisfies every row.
/// At most six rows, oldest first, each with a coefficient for each column.
#[derive(Drop)]
pub struct Czono<const N: usize> {
    base: Zono<N>,
    rows: Rows,
}

impl<const N: usize> Model for Czono<N> {
    ghost use Rattle.std.specs.Prelude.{◌≡◌, length};
    ghost use Rattle.set_rules.specs.Rows.{Czono as Set};

    ghost Value = { Set };

    ghost view = { λ z. record { base = z.base; rows = z.rows.rows } };

    ghost invariant = { λ z. z.rows.width ≡ length z.base.columns };
}

impl<const N: usize> Czono<N> {
    /// The box with centre `c` and radii `r`, with no rows; refused where it reaches past `RANGE`.
    pub fn of_box(c: &Mat<N, 1, Range>, r: &Mat<N, 1, Range>) -> Result<Self, PastRange>
        requires low { 1 ≤ N }
        requires high { N ≤ most_states }
        requires radii { (i : ℕ) → i < N → pos 0 ≤ℤ at r.now i }
        ensures value { IfOk result (λ z. z ≡ without_rows (box N c.now r.now)) }
        ensures in_range { OnOk result (InRange N (box N c.now r.now)) }
        ensures refused { IfErr result (λ p. (p.i < N) × IsFirstPast (box N c.now r.now) p.i p.mag) }
        ensures holds { IfOk result (HoldsBox N c.now r.now) }
    {
        let base = Zono::of_box(c, r)?;
        Ok(Czono::of(base))
    }

    /// The zonotope with no rows.
    pub fn of(base: Zono<N>) -> Self
        ensures value { result ≡ without_rows base.entry }
        ensures holds { HoldsBase N base.entry result }
    {
        let rows = Rows::new(base.cols().len());
        Czono { base, rows }
    }

    /// The zonotope without its rows.
    pub fn base(&self) -> &Zono<N>
        ensures { result.now ≡ self.now.base }
    {
        &self.base
    }

    /// The rows, oldest first.
    pub fn rows(&self) -> &Rows
        ensures rows { result.now.rows ≡ self.now.rows }
        ensures width { result.now.width ≡ length self.now.base.columns }
    {
        &self.rows
    }

    /// The image under `x ↦ (a x + shift) / S + e v`, rounded outwards, with every one of the `w` disturbances `v` from -1 to 1. The
    /// rows get zeros for the new columns. Refused where it reaches past `RANGE`; the set then stays as it is.
    pub fn image(
        &mut self,
        a: &Mat<N, N, Coef>,
        shift: &Raws<N>,
        e: &Mat<N, 8, Range>,
        w: usize,
    ) -> Result<(), PastRange>
        requires dists { w ≤ 8 }
        requires room { length self.old.base.columns + w + N ≤ most_columns }
        ensures value { OnOk result (self.new ≡ image_with_rows N w a.now shift.now e.now self.old) }
        ensures in_range { OnOk result (InRange N (image_of N w a.now shift.now e.now self.old.base)) }
        ensures encloses { OnOk result (EnclosesAll N w a.now shift.now e.now self.old self.new) }
        ensures refused { IfErr result (λ p. (p.i < N) × IsFirstPast (image_of N w a.now shift.now e.now self.old.base) p.i p.mag) }
        ensures unchanged { OnErr result (self.new ≡ self.old) }
    {
        self.rows.tell_widths();
        self.base.image(a, shift, e, w)?;
        self.rows.widen(w + N);
        Ok(())
    }

    /// Takes the oldest row out: each state takes its share of it where the set then reaches no further than before, and the row is dropped in both cases.
    pub fn drop_oldest(&mut self) -> Used
        requires some { 0 < length self.old.rows }
        requires room { length self.old.base.columns + N ≤ most_columns }
        ensures value { self.new ≡ drop_oldest_of N self.old }
        ensures used { result ≡ used_where (is_used N self.old.base (used_up N (row_at self.old.rows 0) self.old.base)) }
        ensures holds { HoldsAll N self.old self.new }
    {
        let mut rest = Rest::new();
        let mut refusals = Refusals::new();
        self.drop_oldest_in(&mut rest, &mut refusals)
    }

    /// The same in room that is lent.
    pub fn drop_oldest_in(&mut self, rest: &mut Rest, refusals: &mut Refusals) -> Used
        requires some { 0 < length self.old.rows }
        requires room { length self.old.base.columns + N ≤ most_columns }
        ensures value { self.new ≡ drop_oldest_of N self.old }
        ensures used { result ≡ used_where (is_used N self.old.base (used_up N (row_at self.old.rows 0) self.old.base)) }
        ensures holds { HoldsAll N self.old self.new }
    {
        self.rows.tell_widths();
        let oldest = self.rows.row(0);
        let gain = gain_within(self.base.cols(), oldest, self.base.greatest_radius());
        let right = self.rows.rhs(0);
        let used = self
            .base
            .substitute_in(oldest, right, &gain, rest, refusals);
        self.rows.drop_first();
        match used {
            Used::Yes => self.rows.widen(N),
            Used::No => {}
        }
        used
    }

    /// Reduces the set to at most 64 columns, each row counting as one more state: `girard_reduce::reduce_lifted`.
    pub fn settle(&mut self)
        ensures value { self.new ≡ reduce_lifted N constrained_columns self.old }
        ensures few { length self.new.base.columns ≤ constrained_columns }
        ensures holds { HoldsAll N self.old self.new }
    {
        let _ = self.base.cols().len();
        let _ = self.rows.count();
        self.base.reduce_with(&mut self.rows, COLUMNS);
    }

    /// Keeps the row as the newest, with a zero column for its last coefficient, whose symbol is new.
    pub fn cut(&mut self, row: &StripRow)
        requires rows { length self.old.rows < most_rows }
        requires columns { length self.old.base.columns < most_columns }
        requires width { length row.now.a ≡ length self.old.base.columns + 1 }
        requires right { unsigned_abs row.now.b ≤ row_limit }
        ensures value { self.new ≡ cut_of N (row_with row.now.a row.now.b) self.old }
        ensures holds { HoldsCut N (row_with row.now.a row.now.b) self.old self.new }
    {
        self.keep(&row.a, row.b);
    }

    /// The same with the row's coefficients and right side.
    pub fn keep(&mut self, a: &Coefs, b: i128)
        requires rows { length self.old.rows < most_rows }
        requires columns { length self.old.base.columns < most_columns }
        requires width { length a.now ≡ length self.old.base.columns + 1 }
        requires right { unsigned_abs b ≤ row_limit }
        ensures value { self.new ≡ cut_of N (row_with a.now b) self.old }
        ensures holds { HoldsCut N (row_with a.now b) self.old self.new }
    {
        self.rows.tell_widths();
        self.rows.widen(1);
        self.rows.push(a, b);
        self.base.add_symbol();
    }
}
