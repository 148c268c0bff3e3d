//! Numbers in fixed point.

ghost use Rattle.std.specs.Prelude.{◌≡◌, ◌≤◌, ◌<◌, ◌^◌, ◌*◌, unsigned_abs, pos, ◌<ℤ◌};

/// How many units 1 is: `2^40`.
const ONE: i128 = 1_099_511_627_776;

/// The greatest number of units: `2^62`.
const MOST: i128 = 4_611_686_018_427_387_904;

/// A number in units of `2^-40`, within `2^22` of 0. What is out of range becomes the nearer end of it.
#[derive(Clone, Copy, Debug)]
pub(crate) struct Fixed {
    pub(crate) units: i64,
    ghost within: { unsigned_abs units ≤ 2 ^ 62 },
}

impl Fixed {
    /// So many units.
    pub(crate) fn of(units: i128) -> Fixed {
        Fixed {
            units: units.clamp(-MOST, MOST) as i64,
        }
    }

    pub(crate) fn zero() -> Fixed {
        Fixed { units: 0 }
    }

    pub(crate) fn one() -> Fixed {
        Fixed::of(ONE)
    }

    /// How many units it is from 0.
    pub(crate) fn size(self) -> u64
        ensures { result ≤ 2 ^ 62 }
    {
        self.units.unsigned_abs()
    }

    pub(crate) fn is_negative(self) -> bool {
        self.units < 0
    }

    pub(crate) fn negated(self) -> Fixed {
        Fixed { units: -self.units }
    }

    pub(crate) fn plus(self, other: Fixed) -> Fixed {
        Fixed::of(i128::from(self.units) + i128::from(other.units))
    }

    pub(crate) fn minus(self, other: Fixed) -> Fixed {
        self.plus(other.negated())
    }

    /// The product, in units of `2^-80`.
    pub(crate) fn product(self, other: Fixed) -> i128
        ensures { unsigned_abs result ≤ 2 ^ 124 }
    {
        i128::from(self.units) * i128::from(other.units)
    }

    /// The number of `2^-80` units, rounded towards zero.
    pub(crate) fn of_product(product: i128) -> Fixed {
        Fixed::of(product / ONE)
    }

    pub(crate) fn times(self, other: Fixed) -> Fixed {
        Fixed::of_product(self.product(other))
    }

    /// One of so many equal parts, rounded towards zero.
    pub(crate) fn parted(self, parts: i128) -> Fixed
        requires { pos 0 <ℤ parts }
    {
        Fixed::of(i128::from(self.units) / parts)
    }

    /// This, or so many units where it is less.
    pub(crate) fn at_least(self, units: i128) -> Fixed {
        Fixed::of(i128::from(self.units).max(units))
    }

    /// The nearest number that is no farther from 0 than the limit.
    pub(crate) fn within(self, limit: Fixed) -> Fixed {
        if self.size() <= limit.size() {
            return self;
        }
        if self.is_negative() == limit.is_negative() {
            limit
        } else {
            limit.negated()
        }
    }

    /// The quotient, rounded towards zero; 0 where the divisor is 0.
    pub(crate) fn over(self, divisor: Fixed) -> Fixed {
        if divisor.units == 0 {
            return Fixed::zero();
        }
        Fixed::of(i128::from(self.units) * ONE / i128::from(divisor.units))
    }
}
