//! The rows over the symbols that they share: strips, in which a point has to be.

ghost use Rattle.std.specs.Prelude.{◌≤◌, ◌<◌, length};
ghost use Rattle.set_rules.specs.Limits.{most_columns};

use crate::fixed::Fixed;
use crate::own::Own;
use crate::part::Part;
use crate::scale::Scales;
use crate::vector::Vector;
use fixed_mat::Rows;

/// How many units rounding can take: 1 for each of 128 symbols, for the right side and for the sum.
const ROUNDING: u64 = 130;

/// A scaled row over the symbols that it shares. A point meets the row where it leaves no more of the right side than
/// the row's own symbols reach.
#[derive(Clone, Copy, Debug)]
pub(crate) struct Strip {
    shared: [Part; 128],
    right: Fixed,
    own: Fixed,
}

impl Strip {
    /// That of a row that there is not: each point meets it.
    fn everywhere() -> Strip {
        Strip {
            shared: [Part::zero(); 128],
            right: Fixed::zero(),
            own: Fixed::one(),
        }
    }

    /// That of row `r`.
    fn take(&mut self, rows: &Rows, scales: &Scales, own: &Own, r: usize)
        requires row { r < length rows.now.rows }
        requires few { r < 6 }
    {
        for t in 0..rows.width() {
            if own.is_shared(t) {
                self.shared[t] = scales.part(r, rows.coef(r, t));
            }
        }
        self.right = scales.scaled(r, rows.rhs(r));
        self.own = scales.scaled(r, own.sum(rows, r) as i128);
    }

    fn coefficient(&self, t: usize) -> Fixed
        requires { t < most_columns }
    {
        self.shared[t].number()
    }

    /// The sum of the products with the first `width` numbers of a list.
    fn times(&self, numbers: &[Part; 128], width: usize) -> Fixed
        requires { width ≤ most_columns }
    {
        let mut sum: i128 = 0;
        for t in 0..width {
            sum += self.shared[t].product(numbers[t]);
        }
        Fixed::of_product(sum)
    }
}

/// The strips of all rows.
#[derive(Clone, Copy, Debug)]
pub(crate) struct Strips {
    rows: [Strip; 6],
    width: usize,
    ghost narrow: { width ≤ most_columns },
}

impl Strips {
    /// Those of rows of this width, before they are taken.
    pub(crate) fn everywhere(width: usize) -> Strips
        requires { width ≤ most_columns }
    {
        Strips {
            rows: [Strip::everywhere(); 6],
            width,
        }
    }

    /// Takes the rows, where they are, since a copy of all is not small.
    pub(crate) fn take(&mut self, rows: &Rows, scales: &Scales, own: &Own) {
        for (r, strip) in self.rows.iter_mut().enumerate() {
            if r < rows.count() {
                strip.take(rows, scales, own, r);
            }
        }
    }

    /// How many symbols there are.
    pub(crate) fn width(&self) -> usize
        ensures { result ≤ most_columns }
    {
        self.width
    }

    /// The right sides.
    pub(crate) fn right(&self) -> Vector {
        let mut right = Vector::zero();
        for (entry, strip) in right.entries.iter_mut().zip(self.rows.iter()) {
            *entry = strip.right;
        }
        right
    }

    /// What the rows' own symbols reach.
    pub(crate) fn own(&self) -> Vector {
        let mut own = Vector::zero();
        for (entry, strip) in own.entries.iter_mut().zip(self.rows.iter()) {
            *entry = strip.own;
        }
        own
    }

    /// The product of two rows, over the symbols that they share.
    pub(crate) fn product(&self, r: usize, s: usize) -> Fixed
        requires first { r < 6 }
        requires second { s < 6 }
    {
        self.rows[r].times(&self.rows[s].shared, self.width)
    }

    /// The coefficients of symbol `t`, each times a number, added up.
    pub(crate) fn pull(&self, t: usize, by: &Vector) -> Fixed
        requires { t < most_columns }
    {
        let mut sum: i128 = 0;
        for r in 0..6 {
            let strip = &self.rows[r];
            sum += strip.coefficient(t).product(by.entries[r]);
        }
        Fixed::of_product(sum)
    }

    /// What the symbols leave of the right sides.
    pub(crate) fn left(&self, symbols: &[Part; 128]) -> Vector {
        let mut left = Vector::zero();
        for (entry, strip) in left.entries.iter_mut().zip(self.rows.iter()) {
            *entry = strip.right.minus(strip.times(symbols, self.width));
        }
        left
    }

    /// Whether the rows' own symbols reach what is left. Rounding errs to the other side.
    pub(crate) fn reach(&self, left: &Vector) -> bool {
        for r in 0..6 {
            if left.entries[r].size() + ROUNDING > self.rows[r].own.size() {
                return false;
            }
        }
        true
    }
}
