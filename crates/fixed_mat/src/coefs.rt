//! The coefficients of a row, whose magnitudes add up to a bounded sum.

ghost use Rattle.std.specs.Prelude.{◌≡◌, ℕ, ◌+◌, ◌<◌, ◌≤◌, ◌↔◌, [], ◌∷◌, ◌++◌, length, unsigned_abs, pos, ◌*ℤ◌, ◌≤ℤ◌, IsErr};
ghost use Rattle.std.specs.Prelude.{IfErr, OnOk, OnErr, replicate};
ghost use Rattle.std.specs.List.{sum_by};
ghost use Rattle.set_rules.specs.Columns.{at};
ghost use Rattle.set_rules.specs.Limits.{row_limit, most_columns};
ghost use Rattle.set_rules.specs.Products.{rounded_row, rounded_size, row_residue};
ghost use Rattle.fixed_mat.specs.Fits.{FitsRow};
ghost use Rattle.fixed_mat.specs.Rows.{marked, kept_at, lost_at};

use crate::cols::Cols;
use crate::mat::{Coef, Mat, OverLimit};
use crate::products::column_product;
use crate::whole::Whole;
use arrayvec::ArrayVec;
use std::marker::Model;

/// At most 128 coefficients, in nano-units, whose magnitudes add up to at most `ROW`.
#[derive(Drop)]
pub struct Coefs {
    items: ArrayVec<i128, 128>,
    sum: u128,
}

impl Model for Coefs {
    ghost use Rattle.std.specs.Prelude.{List, ℤ};

    ghost Value = { List ℤ };

    ghost use Rattle.fixed_mat.specs.Coefs.{IsCoefs};

    ghost view = { λ s. s.items.items };

    ghost invariant = { λ s. IsCoefs s.items.items s.sum };
}

impl Coefs {
    /// No coefficients.
    pub fn new() -> Self
        ensures { result ≡ [] }
    {
        Coefs {
            items: ArrayVec::new(),
            sum: 0,
        }
    }

    /// Takes all coefficients away.
    pub fn clear(&mut self)
        ensures { self.new ≡ [] }
    {
        self.items.clear();
        self.sum = 0;
    }

    /// How many coefficients there are.
    pub fn len(&self) -> usize
        ensures value { result ≡ length self.now }
        ensures few { result ≤ most_columns }
        ensures small { sum_by unsigned_abs self.now ≤ row_limit }
    {
        self.items.len()
    }

    /// Coefficient `t`.
    pub fn at(&self, t: usize) -> i128
        requires { t < length self.now }
        ensures value { result ≡ at self.now t }
        ensures within { unsigned_abs result ≤ row_limit }
    {
        self.items[t]
    }

    /// The sum of the magnitudes, at most `ROW`.
    pub fn sum(&self) -> u128
        ensures value { result ≡ sum_by unsigned_abs self.now }
        ensures within { result ≤ row_limit }
    {
        self.sum
    }

    /// Appends `v`, where the magnitudes still add up to at most `ROW`.
    pub fn push(&mut self, v: i128) -> Result<(), OverLimit>
        requires { length self.old < most_columns }
        ensures refused { IsErr result ↔ (row_limit < sum_by unsigned_abs self.old + unsigned_abs v) }
        ensures ok { OnOk result (self.new ≡ self.old ++ v ∷ []) }
        ensures err { IfErr result (λ e. e.v ≡ v) }
        ensures unchanged { OnErr result (self.new ≡ self.old) }
    {
        let sum = self.sum + v.unsigned_abs();
        if sum > 10_000_000_000_000_000_000_000 {
            return Err(OverLimit { v });
        }
        self.items.push(v);
        self.sum = sum;
        Ok(())
    }

    /// Puts the coefficients of another row in the place of all of these, each written once.
    pub fn set_to(&mut self, other: &Coefs)
        ensures { self.new ≡ other.now }
    {
        let common = self.items.len().min(other.items.len());
        self.items.truncate(common);
        self.items.copy_from_slice(&other.items[..common]);
        self.items
            .try_extend_from_slice(&other.items[common..])
            .unwrap();
        self.sum = other.sum;
    }

    /// Appends zeros.
    pub fn widen(&mut self, by: usize)
        requires { length self.old + by ≤ most_columns }
        ensures { self.new ≡ self.old ++ replicate by (pos 0) }
    {
        for _ in 0..by {
            self.items.push(0);
        }
    }

    /// Keeps the coefficients at the marked places, in their order; gives the sum of the magnitudes of the others.
    pub fn retain(&mut self, keep: &[bool]) -> u128
        requires { length self.old ≤ length keep.now }
        ensures kept { self.new ≡ kept_at (marked keep.now) self.old }
        ensures lost { pos result ≡ lost_at (marked keep.now) self.old }
        ensures sum { sum_by unsigned_abs self.new + result ≡ sum_by unsigned_abs self.old }
        ensures small { sum_by unsigned_abs self.new + result ≤ row_limit }
    {
        let mut count = 0;
        let mut lost: u128 = 0;
        for t in 0..self.items.len() {
            let v = self.items[t];
            if keep[t] {
                self.items[count] = v;
                count += 1;
            } else {
                lost += v.unsigned_abs();
            }
        }
        self.items.truncate(count);
        self.sum -= lost;
        lost
    }

    /// Puts row `r` of `m` times each column, rounded, in the place of all coefficients, in the width of
    /// `W`, in which the products and the sum of their rounded magnitudes fit;
    /// gives the sum of what the rounding leaves.
    pub fn fill<W: Whole, const R: usize, const N: usize>(
        &mut self,
        m: &Mat<R, N, Coef>,
        r: usize,
        cols: &Cols<N>,
    ) -> u64
        requires row { r < R }
        requires fits { FitsRow W.limit N m.now r cols.now }
        requires sizes { rounded_size N m.now r cols.now ≤ℤ pos W.limit }
        requires small { rounded_size N m.now r cols.now ≤ℤ pos row_limit }
        ensures coefficients { self.new ≡ rounded_row N m.now r cols.now }
        ensures left { pos result ≡ row_residue N m.now r cols.now }
        ensures little { result ≤ 64_000_000_000 }
    {
        let sums = push_products::<W, R, N>(m, r, cols, &mut self.items);
        self.sum = sums.size.unsigned_abs();
        sums.left
    }
}

/// Over the rounded products of a row with all columns: the sum of their magnitudes, and of what the rounding leaves.
#[derive(Drop)]
struct ProductSums {
    size: i128,
    left: u64,
}

/// Puts the rounded products of row `r` of `m` with each column in the place of all items.
fn push_products<W: Whole, const R: usize, const N: usize>(
    m: &Mat<R, N, Coef>,
    r: usize,
    cols: &Cols<N>,
    items: &mut ArrayVec<i128, 128>,
) -> ProductSums
    requires row { r < R }
    requires fits { FitsRow W.limit N m.now r cols.now }
    requires sizes { rounded_size N m.now r cols.now ≤ℤ pos W.limit }
    ensures items { items.new.items ≡ rounded_row N m.now r cols.now }
    ensures few { length items.new.items ≤ most_columns }
    ensures size { result.size ≡ pos (sum_by unsigned_abs items.new.items) }
    ensures size_is { result.size ≡ rounded_size N m.now r cols.now }
    ensures left { pos result.left ≡ row_residue N m.now r cols.now }
    ensures little { result.left ≤ 64_000_000_000 }
{
    items.clear();
    let mut size = W::zero();
    let mut left: u64 = 0;
    for t in 0..cols.len() {
        let sum: W = column_product(m, r, cols, t);
        let product = sum.rounded();
        items.push(product.nearest.wide());
        size = size.plus(product.nearest.size());
        left += product.residue;
    }
    ProductSums {
        size: size.wide(),
        left,
    }
}

impl Default for Coefs {
    fn default() -> Self
        ensures { result ≡ [] }
    {
        Coefs::new()
    }
}
