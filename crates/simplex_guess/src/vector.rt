//! A number for each row.

ghost use Rattle.std.specs.Prelude.{◌<◌};

use crate::fixed::Fixed;

/// A number for each of six rows; 0 at those that there are not.
#[derive(Clone, Copy, Debug)]
pub(crate) struct Vector {
    pub(crate) entries: [Fixed; 6],
}

impl Vector {
    pub(crate) fn zero() -> Vector {
        Vector {
            entries: [Fixed::zero(); 6],
        }
    }

    /// This number at row `r` alone.
    pub(crate) fn unit(r: usize, number: Fixed) -> Vector {
        let mut entries = [Fixed::zero(); 6];
        for (index, entry) in entries.iter_mut().enumerate() {
            if index == r {
                *entry = number;
            }
        }
        Vector { entries }
    }

    /// The number at row `r`.
    pub(crate) fn at(&self, r: usize) -> Fixed
        requires { r < 6 }
    {
        self.entries[r]
    }

    /// Puts the number at row `r`.
    pub(crate) fn put(&mut self, r: usize, number: Fixed)
        requires { r < 6 }
    {
        self.entries[r] = number;
    }

    pub(crate) fn negated(&self) -> Vector {
        let mut entries = self.entries;
        for entry in entries.iter_mut() {
            *entry = entry.negated();
        }
        Vector { entries }
    }

    pub(crate) fn plus(&self, other: &Vector) -> Vector {
        let mut entries = self.entries;
        for (entry, more) in entries.iter_mut().zip(other.entries.iter()) {
            *entry = entry.plus(*more);
        }
        Vector { entries }
    }

    pub(crate) fn minus(&self, other: &Vector) -> Vector {
        let mut entries = self.entries;
        for (entry, less) in entries.iter_mut().zip(other.entries.iter()) {
            *entry = entry.minus(*less);
        }
        Vector { entries }
    }

    /// The sum of the products of the entries.
    pub(crate) fn times(&self, other: &Vector) -> Fixed {
        let mut sum: i128 = 0;
        for r in 0..6 {
            sum += self.entries[r].product(other.entries[r]);
        }
        Fixed::of_product(sum)
    }

    /// Each entry over that of the other; 0 where that is 0.
    pub(crate) fn divided(&self, divisors: &Vector) -> Vector {
        let mut entries = self.entries;
        for (entry, divisor) in entries.iter_mut().zip(divisors.entries.iter()) {
            *entry = entry.over(*divisor);
        }
        Vector { entries }
    }

    pub(crate) fn over(&self, divisor: Fixed) -> Vector {
        let mut entries = self.entries;
        for entry in entries.iter_mut() {
            *entry = entry.over(divisor);
        }
        Vector { entries }
    }

    /// What is left once so many times `other` is taken away.
    pub(crate) fn less(&self, times: Fixed, other: &Vector) -> Vector {
        let mut entries = self.entries;
        for (entry, one) in entries.iter_mut().zip(other.entries.iter()) {
            *entry = entry.minus(times.times(*one));
        }
        Vector { entries }
    }

    /// The greatest number of units that an entry is from 0.
    pub(crate) fn most(&self) -> u64 {
        self.entries
            .iter()
            .fold(0, |most, entry| most.max(entry.size()))
    }
}
