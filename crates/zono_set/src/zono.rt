//! A zonotope: its centre and its columns.

mod image;
mod narrow;
mod strip;
mod substitute;
mod unrounded;

ghost use Rattle.std.specs.Prelude.{◌≡◌, ℕ, ◌+◌, ◌<◌, ◌≤◌, length, ℤ, pos, ◌+ℤ◌, ◌≤ℤ◌, unsigned_abs, IfOk, IfErr, OnOk, OnErr};
ghost use Rattle.set_rules.specs.Sum.{magnitude};
ghost use Rattle.set_rules.specs.Columns.{at, column_entry, row_magnitude, tabulate};
ghost use Rattle.set_rules.specs.Zono.{reach, range, InRange};
ghost use Rattle.set_rules.specs.Limits.{most_columns, most_states};
ghost use Rattle.set_rules.specs.Box.{box, hull as hull_of};
ghost use Rattle.set_rules.specs.Reduce.{greatest, reduce_set, reduce_lifted as reduce_lifted_of};
ghost use Rattle.set_rules.specs.Keep.{with_rows};
ghost use Rattle.set_rules.specs.Image.{IsFirstPast};
ghost use Rattle.zono_set.specs.Holds.{HoldsBox, HoldsState, HoldsSet};

use arrayvec::ArrayVec;
use fixed_mat::{Cols, Mat, Range, Rows};
use girard_reduce::{reduce_in_place, reduce_lifted};
use std::marker::Model;
pub use strip::StripRow;
pub use substitute::Used;

/// The least state in which a set reaches past `RANGE`, and how far it reaches, in nano-units.
#[derive(Clone, Copy, Debug)]
pub struct PastRange {
    pub i: usize,
    pub mag: i128,
}

/// The points `centre + columns * x` with every symbol of `x` from -1 to 1, in nano-units. In no state does it reach past `RANGE`.
#[derive(Drop)]
pub struct Zono<const N: usize> {
    centre: Mat<N, 1, Range>,
    cols: Cols<N>,
    radii: Mat<N, 1, Range>,
}

impl<const N: usize> Model for Zono<N> {
    ghost use Rattle.set_rules.specs.Zono.{Zono as Set};

    ghost Value = { Set };

    ghost view = { λ z. record { centre = z.centre; columns = z.cols } };

    ghost use Rattle.zono_set.specs.Kept.{IsKept};

    ghost invariant = { λ z. IsKept N (record { centre = z.centre; columns = z.cols }) z.radii };
}

impl<const N: usize> Zono<N> {
    /// The box with centre `c` and radii `r`, refused where it reaches past `RANGE`.
    pub fn of_box(c: &Mat<N, 1, Range>, r: &Mat<N, 1, Range>) -> Result<Self, PastRange>
        requires low { 1 ≤ N }
        requires high { N ≤ most_states }
        requires radii { (i : ℕ) → i < N → pos 0 ≤ℤ at r.now i }
        ensures value { IfOk result (λ z. z ≡ box N c.now r.now) }
        ensures in_range { OnOk result (InRange N (box N c.now r.now)) }
        ensures refused { IfErr result (λ p. (p.i < N) × IsFirstPast (box N c.now r.now) p.i p.mag) }
        ensures holds { IfOk result (HoldsBox N c.now r.now) }
    {
        for i in 0..N {
            let mag = c.at(i, 0).abs() + r.at(i, 0);
            if mag > 1_000_000_000_000_000_000 {
                return Err(PastRange {
                    i,
                    mag: i128::from(mag),
                });
            }
        }
        let mut cols = Cols::new();
        for i in 0..N {
            cols.push_diagonal(i, r.at(i, 0));
        }
        Ok(Zono {
            centre: c.copy(),
            cols,
            radii: r.copy(),
        })
    }

    /// State `i` of the centre.
    pub fn centre(&self, i: usize) -> i128
        requires { i < N }
        ensures value { result ≡ at self.now.centre i }
        ensures within { unsigned_abs result ≤ range }
    {
        i128::from(self.centre.at(i, 0))
    }

    /// The columns.
    pub fn cols(&self) -> &Cols<N>
        ensures value { result.now ≡ self.now.columns }
        ensures in_range { InRange N self.now }
    {
        &self.cols
    }

    /// The least and the greatest value in state `i`.
    pub fn hull(&self, i: usize) -> (i128, i128)
        requires { i < N }
        ensures value { result ≡ hull_of self.now i }
        ensures low { unsigned_abs result.0 ≤ range }
        ensures high { unsigned_abs result.1 ≤ range }
        ensures holds { HoldsState N self.now i result }
    {
        let centre = self.centre.at(i, 0);
        let radius = self.radius(i);
        (i128::from(centre - radius), i128::from(centre + radius))
    }

    /// How far the set reaches from 0 in state `i`.
    fn reach(&self, i: usize) -> i64
        requires { i < N }
        ensures value { result ≡ reach self.now i }
        ensures within { unsigned_abs result ≤ range }
        ensures states { N ≤ most_states }
    {
        self.centre.at(i, 0).abs() + self.radius(i)
    }

    /// How far the set reaches from its centre in state `i`: the sum of the magnitudes there, which is kept.
    fn radius(&self, i: usize) -> i64
        requires { i < N }
        ensures value { result ≡ row_magnitude self.now.columns i }
        ensures within { unsigned_abs result ≤ range }
    {
        self.radii.at(i, 0)
    }

    /// The greatest radius of all states. No entry of the columns is above it.
    pub fn greatest_radius(&self) -> u64
        ensures value { result ≡ greatest (tabulate N (row_magnitude self.now.columns)) }
        ensures entries { (i t : ℕ) → i < N → unsigned_abs (column_entry self.now.columns i t) ≤ result }
        ensures within { result ≤ range }
    {
        let _ = self.cols.len();
        let mut greatest = 0;
        for i in 0..N {
            greatest = (self.radius(i) as u64).max(greatest);
        }
        greatest
    }

    /// Puts other columns in the place of all.
    pub fn set_cols(&mut self, g: Cols<N>)
        requires { (i : ℕ) → i < N → (magnitude (at self.old.centre i) +ℤ row_magnitude g i) ≤ℤ pos range }
        ensures { self.new ≡ record { centre = self.old.centre; columns = g.entry } }
    {
        self.radii.replace(&magnitudes(&g));
        self.cols = g;
    }

    /// Reduces the columns to at most `max` in place: `girard_reduce::reduce_in_place`.
    pub fn reduce(&mut self, max: usize)
        requires low { N ≤ max }
        requires high { max ≤ most_columns }
        ensures value { self.new ≡ reduce_set N max self.old }
        ensures holds { HoldsSet N self.old self.new }
    {
        reduce_in_place(&mut self.cols, max);
    }

    /// The same with rows on the symbols of the columns, each of which counts as one more state: `girard_reduce::reduce_lifted`.
    pub fn reduce_with(&mut self, rows: &mut Rows, max: usize)
        requires width { rows.old.width ≡ length self.old.columns }
        requires low { N + length rows.old.rows ≤ max }
        requires high { max ≤ most_columns }
        ensures set { self.new ≡ (reduce_lifted_of N max (with_rows self.old rows.old.rows)).base }
        ensures rows { rows.new.rows ≡ (reduce_lifted_of N max (with_rows self.old rows.old.rows)).rows }
        ensures width { rows.new.width ≡ length self.new.columns }
    {
        reduce_lifted(&mut self.cols, rows, max);
    }
}

/// The sum of the magnitudes in each state.
fn magnitudes<const N: usize>(cols: &Cols<N>) -> ArrayVec<i64, 8>
    requires { (i : ℕ) → i < N → row_magnitude cols.now i ≤ℤ pos range }
    ensures { result.items ≡ tabulate N (row_magnitude cols.now) }
{
    let _ = cols.len();
    let mut magnitudes = ArrayVec::new();
    for i in 0..N {
        magnitudes.push(cols.mag(i) as i64);
    }
    magnitudes
}
