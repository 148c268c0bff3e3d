//! Columns of nano-units, one after another in flat storage.

ghost use Rattle.std.specs.Prelude.{◌≡◌, ℕ, ◌+◌, ◌*◌, ◌<◌, ◌≤◌, [], ◌∷◌, ◌++◌, length, take, pos, unsigned_abs, slice_index_or, slice_set};
ghost use Rattle.std.specs.List.{All};
ghost use Rattle.set_rules.specs.Columns.{entry, column_entry, row_magnitude, tabulate};
ghost use Rattle.set_rules.specs.Symbols.{diagonal};
ghost use Rattle.set_rules.specs.Zono.{range};
ghost use Rattle.set_rules.specs.Limits.{most_columns, most_states};

use crate::mat::{Mat, Range};
use arrayvec::ArrayVec;
use std::marker::Model;

/// At most 128 columns of `N` entries, from 1 to 8, each within `10 ^ 18`.
#[derive(Drop)]
pub struct Cols<const N: usize> {
    cells: ArrayVec<i64, 1024>,
    count: usize,
}

impl<const N: usize> Model for Cols<N> {
    ghost use Rattle.std.specs.Prelude.{List, ℤ};

    ghost Value = { List (List ℤ) };

    ghost use Rattle.fixed_mat.specs.Cols.{columns_of, IsCols};

    ghost view = { λ s. columns_of N s.count s.cells.items };

    ghost invariant = { λ s. IsCols N s.count s.cells.items };
}

impl<const N: usize> Cols<N> {
    /// No columns.
    pub fn new() -> Self
        requires low { 1 ≤ N }
        requires high { N ≤ most_states }
        ensures { result ≡ [] }
    {
        Cols {
            cells: ArrayVec::new(),
            count: 0,
        }
    }

    /// How many columns there are.
    pub fn len(&self) -> usize
        ensures value { result ≡ length self.now }
        ensures few { result ≤ most_columns }
        ensures height_positive { 1 ≤ N }
        ensures height_small { N ≤ most_states }
    {
        self.count
    }

    /// Tells the limit that the entries keep by their type.
    pub fn tell(&self)
        ensures { (i t : ℕ) → unsigned_abs (column_entry self.now i t) ≤ range }
    {
        let _ = &self.cells;
    }

    /// Tells that each column has an entry for each row, as the type keeps it.
    pub fn tell_heights(&self)
        ensures { All (λ column. length column ≡ N) self.now }
    {
        let _ = &self.cells;
    }

    /// The entry of column `t` in row `i`.
    pub fn at(&self, i: usize, t: usize) -> i64
        requires row { i < N }
        requires column { t < length self.now }
        ensures value { result ≡ column_entry self.now i t }
        ensures within { unsigned_abs result ≤ range }
    {
        self.cells[t * N + i]
    }

    /// The entries of column `t`.
    pub fn column(&self, t: usize) -> &[i64]
        requires { t < length self.now }
        ensures value { result.now ≡ slice_index_or self.now t [] }
        ensures size { length result.now ≡ N }
        ensures height_small { N ≤ most_states }
        ensures within { All (λ z. unsigned_abs z ≤ range) result.now }
    {
        &self.cells[t * N..t * N + N]
    }

    /// Appends a column.
    pub fn push(&mut self, col: &Mat<N, 1, Range>)
        requires { length self.old < most_columns }
        ensures { self.new ≡ self.old ++ col.now ∷ [] }
    {
        self.cells.try_extend_from_slice(col.entries()).unwrap();
        self.count += 1;
    }

    /// Appends a column that holds `v` in row `i` and zeros elsewhere.
    pub fn push_diagonal(&mut self, i: usize, v: i64)
        requires room { length self.old < most_columns }
        requires row { i < N }
        requires within { unsigned_abs v ≤ range }
        ensures { self.new ≡ self.old ++ tabulate N (λ j. diagonal (λ _. v) j i) ∷ [] }
    {
        for j in 0..N {
            self.cells.push(diagonal_entry(i, j, v));
        }
        self.count += 1;
    }

    /// Appends column `c` of a matrix.
    pub fn push_from<const C: usize>(&mut self, mat: &Mat<N, C, Range>, c: usize)
        requires room { length self.old < most_columns }
        requires column { c < C }
        ensures { self.new ≡ self.old ++ tabulate N (λ i. entry C mat.now i c) ∷ [] }
    {
        for i in 0..N {
            self.cells.push(mat.at(i, c));
        }
        self.count += 1;
    }

    /// Puts `col` in the place of column `t`.
    pub fn replace(&mut self, t: usize, col: &[i64])
        requires column { t < length self.old }
        requires size { length col.now ≡ N }
        requires within { All (λ z. unsigned_abs z ≤ range) col.now }
        ensures { self.new ≡ slice_set self.old t col.now }
    {
        self.cells[t * N..t * N + N].copy_from_slice(col);
    }

    /// Puts column `from` in the place of column `to`, which comes no later.
    pub fn copy_down(&mut self, from: usize, to: usize)
        requires column { from < length self.old }
        requires down { to ≤ from }
        ensures { self.new ≡ slice_set self.old to (slice_index_or self.old from []) }
    {
        for i in 0..N {
            self.cells[to * N + i] = self.cells[from * N + i];
        }
    }

    /// The sum of the magnitudes in row `i`.
    pub fn mag(&self, i: usize) -> i128
        requires { i < N }
        ensures value { result ≡ row_magnitude self.now i }
        ensures within { unsigned_abs result ≤ most_columns * range }
    {
        let mut sum = 0;
        for t in 0..self.len() {
            sum += i128::from(self.at(i, t).unsigned_abs());
        }
        sum
    }

    /// Keeps the first `len` columns.
    pub fn truncate(&mut self, len: usize)
        requires { len ≤ length self.old }
        ensures { self.new ≡ take len self.old }
    {
        self.cells.truncate(len * N);
        self.count = len;
    }

    /// The same columns once more.
    pub fn copy(&self) -> Self
        ensures { result ≡ self.now }
    {
        let mut cells = ArrayVec::new();
        cells.try_extend_from_slice(&self.cells).unwrap();
        Cols {
            cells,
            count: self.count,
        }
    }
}

/// What row `j` holds of a column with `v` in row `i` alone.
fn diagonal_entry(i: usize, j: usize, v: i64) -> i64
    requires { unsigned_abs v ≤ range }
    ensures value { result ≡ diagonal (λ _. v) j i }
    ensures within { unsigned_abs result ≤ range }
{
    if i == j { v } else { 0 }
}
