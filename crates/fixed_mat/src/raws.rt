//! Unrounded products, one for each state.

ghost use Rattle.std.specs.Prelude.{◌≡◌, ℕ, ◌<◌, ◌≤◌, ◌↔◌, length, pos, unsigned_abs, replicate, IsErr, IfErr, OnOk, OnErr, slice_set};
ghost use Rattle.set_rules.specs.Columns.{at};
ghost use Rattle.set_rules.specs.Limits.{raw_limit, most_states};

use crate::RAW;
use crate::mat::OverLimit;
use arrayvec::ArrayVec;
use std::marker::Model;

/// `N` unrounded products, at most 8, in nano-units times nano-units, each within `RAW`.
#[derive(Drop)]
pub struct Raws<const N: usize> {
    cells: ArrayVec<i128, 8>,
}

impl<const N: usize> Model for Raws<N> {
    ghost use Rattle.std.specs.Prelude.{List, ℤ};

    ghost Value = { List ℤ };

    ghost use Rattle.fixed_mat.specs.Raws.{IsRaws};

    ghost view = { λ m. m.cells.items };

    ghost invariant = { λ m. IsRaws N m.cells.items };
}

impl<const N: usize> Raws<N> {
    /// All of them zero.
    pub fn zero() -> Self
        requires { N ≤ most_states }
        ensures { result ≡ replicate N (pos 0) }
    {
        let mut cells = ArrayVec::new();
        for _ in 0..N {
            cells.push(0);
        }
        Raws { cells }
    }

    /// The product of state `i`.
    pub fn at(&self, i: usize) -> i128
        requires { i < N }
        ensures value { result ≡ at self.now i }
        ensures within { unsigned_abs result ≤ raw_limit }
        ensures size { length self.now ≡ N }
    {
        self.cells[i]
    }

    /// Writes the product of state `i`, where `v` is within the limit.
    pub fn set(&mut self, i: usize, v: i128) -> Result<(), OverLimit>
        requires { i < N }
        ensures refused { IsErr result ↔ (raw_limit < unsigned_abs v) }
        ensures ok { OnOk result (self.new ≡ slice_set self.old i v) }
        ensures err { IfErr result (λ e. e.v ≡ v) }
        ensures unchanged { OnErr result (self.new ≡ self.old) }
    {
        if v.unsigned_abs() > RAW {
            return Err(OverLimit { v });
        }
        self.cells[i] = v;
        Ok(())
    }
}
