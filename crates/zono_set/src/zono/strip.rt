//! A reading as a row on the symbols of a set, and the interval in which a set predicts an output.

ghost use Rattle.std.specs.Prelude.{◌≡◌, ◌+◌, ◌<◌, ◌≤◌, ◌^◌, length, pos, ◌≤ℤ◌, unsigned_abs};
ghost use Rattle.set_rules.specs.Round.{rnd as rnd_of, residue as residue_of};
ghost use Rattle.set_rules.specs.Strip.{raw_output, output_row, output_size, output_residue, strip_row as strip_row_of};
ghost use Rattle.set_rules.specs.Strip.{out_interval as out_interval_of};
ghost use Rattle.set_rules.specs.Zono.{range};
ghost use Rattle.set_rules.specs.Limits.{raw_limit, row_limit, interval_limit, most_columns};
ghost use Rattle.zono_set.specs.Holds.{StripHolds, HoldsReadings};

use crate::products::{narrow_ceil, rounded_centre, row_sums};
use crate::zono::Zono;
use fixed_mat::{Coef, Coefs, Mat, Rounding, tell_products};

/// A row on the symbols of a set: the coefficients, of which the last is the noise symbol's, and the right side, in nano-units.
#[derive(Drop)]
pub struct StripRow {
    pub a: Coefs,
    pub b: i128,
}

impl<const N: usize> Zono<N> {
    /// The row of a reading `y` within `f` of the output `(c_row x + du) / S`. After Scott, Raimondo, Marseglia and Braatz 2016.
    pub fn strip_row(&self, c_row: &Mat<1, N, Coef>, du: i128, y: i128, f: i128) -> StripRow
        requires input { unsigned_abs du ≤ raw_limit }
        requires reading { unsigned_abs y ≤ range }
        requires noise_low { pos 0 ≤ℤ f }
        requires noise_high { f ≤ℤ pos (range + 1) }
        requires room { length self.now.columns < most_columns }
        ensures coefficients { result.a ≡ (strip_row_of N c_row.now du y f self.now).coefficients }
        ensures right { result.b ≡ (strip_row_of N c_row.now du y f self.now).right }
        ensures within { unsigned_abs result.b ≤ row_limit }
        ensures holds { StripHolds N c_row.now du y f self.now }
    {
        let mut a = Coefs::new();
        let b = self.fill_strip_row(c_row, du, y, f, &mut a);
        StripRow { a, b }
    }

    /// The same, with the coefficients in the place of those that were in `a`, so that no room is made for them; gives the right side.
    pub fn fill_strip_row(
        &self,
        c_row: &Mat<1, N, Coef>,
        du: i128,
        y: i128,
        f: i128,
        a: &mut Coefs,
    ) -> i128
        requires input { unsigned_abs du ≤ raw_limit }
        requires reading { unsigned_abs y ≤ range }
        requires noise_low { pos 0 ≤ℤ f }
        requires noise_high { f ≤ℤ pos (range + 1) }
        requires room { length self.now.columns < most_columns }
        ensures coefficients { a.new ≡ (strip_row_of N c_row.now du y f self.now).coefficients }
        ensures right { result ≡ (strip_row_of N c_row.now du y f self.now).right }
        ensures within { unsigned_abs result ≤ row_limit }
        ensures holds { StripHolds N c_row.now du y f self.now }
    {
        let middle = self.output_middle(c_row, du);
        let left = self.fill_coefficients(c_row, a);
        let slack = narrow_ceil(middle.residue as u64 + left);
        a.push(f + i128::from(slack)).unwrap();
        y - middle.nearest
    }

    /// Puts the rounded products of the row with each column in the place of the coefficients that were in
    /// `a`, in 64 bits where they fit; gives the sum of what the rounding leaves.
    fn fill_coefficients(&self, c_row: &Mat<1, N, Coef>, a: &mut Coefs) -> u64
        requires spread { output_size N c_row.now self.now ≤ℤ pos 8_100_000_000_000_000_000_000 }
        ensures coefficients { a.new ≡ output_row N c_row.now self.now }
        ensures left { pos result ≡ output_residue N c_row.now self.now }
        ensures little { result ≤ 64_000_000_000 }
    {
        tell_products(c_row, &self.cols);
        if self.has_narrow_row(c_row, 0) {
            a.fill::<i64, 1, N>(c_row, 0, &self.cols)
        } else {
            a.fill::<i128, 1, N>(c_row, 0, &self.cols)
        }
    }

    /// The interval in which the set predicts the output `(c_row x + du) / S`, with noise within `f`: its ends, within `10 ^ 24`.
    pub fn out_interval(&self, c_row: &Mat<1, N, Coef>, du: i128, f: i128) -> (i128, i128)
        requires input { unsigned_abs du ≤ raw_limit }
        requires noise_low { pos 0 ≤ℤ f }
        requires noise_high { f ≤ℤ pos (range + 1) }
        requires room { length self.now.columns < most_columns }
        ensures value { result ≡ out_interval_of N c_row.now du f self.now }
        ensures low { unsigned_abs result.0 ≤ interval_limit }
        ensures high { unsigned_abs result.1 ≤ interval_limit }
        ensures holds { HoldsReadings N c_row.now du f self.now result }
    {
        let middle = self.output_middle(c_row, du);
        let sums = row_sums(c_row, 0, &self.cols, self.has_narrow_row(c_row, 0));
        let slack = narrow_ceil((middle.residue + sums.left) as u64);
        let half = sums.size + f + i128::from(slack);
        (middle.nearest - half, middle.nearest + half)
    }

    /// The rounded output at the centre.
    fn output_middle(&self, c_row: &Mat<1, N, Coef>, du: i128) -> Rounding
        requires { unsigned_abs du ≤ raw_limit }
        ensures nearest { result.nearest ≡ rnd_of (raw_output N c_row.now du self.now) }
        ensures residue { result.residue ≡ residue_of (raw_output N c_row.now du self.now) }
        ensures within { unsigned_abs result.nearest ≤ 8_100_000_000_000_000_000_000 }
        ensures low { pos 0 ≤ℤ result.residue }
        ensures half { result.residue ≤ℤ pos 500_000_000 }
        ensures spread { output_size N c_row.now self.now ≤ℤ pos 8_100_000_000_000_000_000_000 }
    {
        let _ = c_row.entries();
        let _ = self.cols.len();
        rounded_centre(c_row, 0, &self.centre, du)
    }
}
