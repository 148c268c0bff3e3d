//! The least way by which rows get what they lack.

ghost use Rattle.std.specs.Prelude.{◌<◌};

use crate::fixed::Fixed;
use crate::strip::Strips;
use crate::vector::Vector;

/// The least pivot, in units: less is what rounding makes.
const LEAST: i128 = 64;

/// The products of the rows with each other as a triangle of factors below ones, with pivots: Cholesky's factors
/// without roots (Benoit 1924).
#[derive(Clone, Copy, Debug)]
pub(crate) struct Triangle {
    rows: [Vector; 6],
    pivots: Vector,
}

impl Triangle {
    /// Of the strips, where each row has one symbol more, of this weight.
    pub(crate) fn of(strips: &Strips, weights: &Vector) -> Triangle {
        let mut triangle = Triangle {
            rows: [Vector::zero(); 6],
            pivots: Vector::zero(),
        };
        for r in 0..6 {
            triangle.take(strips, r, weights.at(r));
        }
        triangle
    }

    /// Takes row `r` in after those before it.
    fn take(&mut self, strips: &Strips, r: usize, weight: Fixed)
        requires { r < 6 }
    {
        let products = self.products(strips, r);
        let row = products.divided(&self.pivots);
        let square = strips.product(r, r).plus(weight);
        let pivot = square.minus(products.times(&row)).at_least(LEAST);
        self.pivots.put(r, pivot);
        self.rows[r] = row;
    }

    /// The products of row `r` with those before it, less what these have of each other.
    fn products(&self, strips: &Strips, r: usize) -> Vector
        requires { r < 6 }
    {
        let mut products = Vector::zero();
        for s in 0..r {
            let product = strips.product(r, s).minus(products.times(&self.rows[s]));
            products.put(s, product);
        }
        products
    }

    /// How many times each row is to be added to the symbols, so that the rows get this.
    pub(crate) fn solved(&self, lacking: &Vector) -> Vector {
        let mut forward = Vector::zero();
        for r in 0..6 {
            let number = lacking.entries[r].minus(self.rows[r].times(&forward));
            forward.put(r, number);
        }
        let mut times = forward.divided(&self.pivots);
        for back in 0..6 {
            let r = 5 - back;
            times = times.less(times.at(r), &self.rows[r]);
        }
        times
    }
}
