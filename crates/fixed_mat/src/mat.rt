//! Matrices of nano-units, whose limit is a marker type's constant.

ghost use Rattle.std.specs.Prelude.{◌≡◌, ℕ, ◌+◌, ◌*◌, ◌<◌, ◌≤◌, ◌↔◌, pos, unsigned_abs, replicate, IsErr, IfErr, OnOk, OnErr};
ghost use Rattle.std.specs.Prelude.{slice_set, length};
ghost use Rattle.std.specs.List.{All};
ghost use Rattle.std.proofs.Common.{arith};
ghost use Rattle.set_rules.specs.Columns.{entry, tabulate};
ghost use Rattle.set_rules.specs.Zono.{range};
ghost use Rattle.set_rules.specs.Limits.{coef, narrow_limit};

use arrayvec::ArrayVec;
use std::marker::{Model, PhantomData};

/// The greatest magnitude of an entry.
pub trait Limit {
    ghost LIM: { ℕ };

    const LIM: u128;

    ghost narrow: { LIM ≤ narrow_limit };
}

/// Entries of a row or a system matrix.
pub struct Coef;

impl Limit for Coef {
    ghost LIM = { coef };

    const LIM: u128 = 1_000_000_000_000;

    ghost narrow = { Prim.omega arith };
}

/// Entries of a state, a column or a centre.
pub struct Range;

impl Limit for Range {
    ghost LIM = { range };

    const LIM: u128 = 1_000_000_000_000_000_000;

    ghost narrow = { Prim.omega arith };
}

/// The value `v` is past the limit of the place that it was meant for.
#[derive(Debug, Drop)]
pub struct OverLimit {
    pub v: i128,
}

/// `R` rows of `C` entries, each within the limit of `L`.
#[derive(Drop)]
pub struct Mat<const R: usize, const C: usize, L: Limit> {
    cells: ArrayVec<i64, 64>,
    limit: PhantomData<L>,
}

impl<const R: usize, const C: usize, L: Limit> Model for Mat<R, C, L> {
    ghost use Rattle.std.specs.Prelude.{List, ℤ};

    ghost Value = { List ℤ };

    ghost use Rattle.fixed_mat.specs.Mat.{IsMat};

    ghost view = { λ m. m.cells.items };

    ghost invariant = { λ m. IsMat R C L.LIM m.cells.items };
}

impl<const R: usize, const C: usize, L: Limit> Mat<R, C, L> {
    /// The matrix of zeros.
    pub fn zero() -> Self
        requires { R * C ≤ 64 }
        ensures { result ≡ replicate (R * C) (pos 0) }
    {
        let mut cells = ArrayVec::new();
        for _ in 0..R * C {
            cells.push(0);
        }
        Mat {
            cells,
            limit: PhantomData,
        }
    }

    /// The entries, row by row.
    pub fn entries(&self) -> &[i64]
        ensures value { result.now ≡ self.now }
        ensures size { length self.now ≡ R * C }
        ensures small { R * C ≤ 64 }
        ensures within { All (λ z. unsigned_abs z ≤ L.LIM) self.now }
    {
        &self.cells
    }

    /// The same matrix once more.
    pub fn copy(&self) -> Self
        ensures { result ≡ self.now }
    {
        let mut cells = ArrayVec::new();
        cells.try_extend_from_slice(&self.cells).unwrap();
        Mat {
            cells,
            limit: PhantomData,
        }
    }

    /// Puts these entries in the place of all, row by row.
    pub fn replace(&mut self, entries: &[i64])
        requires size { length entries.now ≡ R * C }
        requires within { All (λ z. unsigned_abs z ≤ L.LIM) entries.now }
        ensures { self.new ≡ entries.now }
    {
        self.cells.copy_from_slice(entries);
    }

    /// The entry in row `r` and column `c`.
    pub fn at(&self, r: usize, c: usize) -> i64
        requires row { r < R }
        requires column { c < C }
        ensures value { result ≡ entry C self.now r c }
        ensures within { unsigned_abs result ≤ L.LIM }
    {
        self.cells[r * C + c]
    }

    /// Row `r` alone.
    pub fn row(&self, r: usize) -> Mat<1, C, L>
        requires { r < R }
        ensures { result ≡ tabulate C (λ l. entry C self.now r l) }
    {
        let _ = self.entries();
        let mut cells = ArrayVec::new();
        for l in 0..C {
            cells.push(self.at(r, l));
        }
        Mat {
            cells,
            limit: PhantomData,
        }
    }

    /// Writes the entry in row `r` and column `c`, where `v` is within the limit.
    pub fn set(&mut self, r: usize, c: usize, v: i128) -> Result<(), OverLimit>
        requires row { r < R }
        requires column { c < C }
        ensures refused { IsErr result ↔ (L.LIM < unsigned_abs v) }
        ensures ok { OnOk result (self.new ≡ slice_set self.old (r * C + c) v) }
        ensures err { IfErr result (λ e. e.v ≡ v) }
        ensures unchanged { OnErr result (self.new ≡ self.old) }
    {
        if v.unsigned_abs() > L::LIM {
            return Err(OverLimit { v });
        }
        self.cells[r * C + c] = v as i64;
        Ok(())
    }
}
