//! Numbers from -1 to 1.

ghost use Rattle.std.specs.Prelude.{◌≤◌, ◌^◌, unsigned_abs};

use crate::fixed::Fixed;

/// 1, in units.
const ONE: i64 = 1_099_511_627_776;

/// A number from -1 to 1, in units of `2^-40`. The products of all columns can be added up in 128 bits.
#[derive(Clone, Copy, Debug)]
pub(crate) struct Part {
    units: i64,
    ghost within: { unsigned_abs units ≤ 2 ^ 40 },
}

impl Part {
    /// The nearest one to so many units.
    pub(crate) fn of(units: i128) -> Part {
        Part {
            units: units.clamp(-i128::from(ONE), i128::from(ONE)) as i64,
        }
    }

    pub(crate) fn zero() -> Part {
        Part { units: 0 }
    }

    /// The same as a number of the wider range.
    pub(crate) fn number(self) -> Fixed {
        Fixed { units: self.units }
    }

    /// The nearest one to the sum.
    pub(crate) fn moved(self, by: Fixed) -> Part {
        Part {
            units: (self.units + by.units).clamp(-ONE, ONE),
        }
    }

    /// The product, in units of `2^-80`.
    pub(crate) fn product(self, other: Part) -> i128
        ensures { unsigned_abs result ≤ 2 ^ 80 }
    {
        i128::from(self.units) * i128::from(other.units)
    }
}
