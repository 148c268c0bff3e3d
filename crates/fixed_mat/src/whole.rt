//! Whole numbers in 64 or in 128 bits: what a pass over columns reckons with.

ghost use Rattle.std.specs.Prelude.{ℕ, ℤ, ◌≡◌, ◌≤◌, ◌^◌, pos, ◌+ℤ◌, ◌-ℤ◌, ◌*ℤ◌, unsigned_abs};
ghost use Rattle.std.specs.Int.{int_max};
ghost use Rattle.set_rules.specs.Sum.{magnitude};
ghost use Rattle.set_rules.specs.Zono.{range};
ghost use Rattle.set_rules.specs.Limits.{narrow_limit, wide_limit};
ghost use Rattle.set_rules.specs.Round.{rnd as rnd_of, residue as residue_of};

use crate::round::{narrow_rounding, rounded};

/// A whole number of a width of its own, whose magnitude is at most `limit`. A pass that
/// is generic over it is written once for 64 and for 128 bits.
pub trait Whole: Copy + Drop {
    ghost value: { Self → ℤ };

    ghost limit: { ℕ };

    /// Nothing.
    fn zero() -> Self
        ensures { value result ≡ pos 0 };

    /// A number of 64 bits.
    fn of(x: i64) -> Self
        ensures { value result ≡ x };

    /// A number of 128 bits that is within the limit.
    fn of_wide(x: i128) -> Self
        requires { unsigned_abs x ≤ limit }
        ensures { value result ≡ x };

    /// The sum of two.
    fn plus(self, y: Self) -> Self
        requires { unsigned_abs (value self +ℤ value y) ≤ limit }
        ensures { value result ≡ value self +ℤ value y };

    /// `y` less.
    fn minus(self, y: Self) -> Self
        requires { unsigned_abs (value self -ℤ value y) ≤ limit }
        ensures { value result ≡ value self -ℤ value y };

    /// `y` times it.
    fn times(self, y: i64) -> Self
        requires { unsigned_abs (y *ℤ value self) ≤ limit }
        ensures { value result ≡ y *ℤ value self };

    /// `x` times `y` more.
    fn plus_product(self, x: i64, y: i64) -> Self
        requires product { unsigned_abs (x *ℤ y) ≤ limit }
        requires sum { unsigned_abs (value self +ℤ x *ℤ y) ≤ limit }
        ensures { value result ≡ value self +ℤ x *ℤ y };

    /// Its magnitude.
    fn size(self) -> Self
        requires { unsigned_abs (value self) ≤ limit }
        ensures { value result ≡ magnitude (value self) };

    /// The greater of two.
    fn most(self, y: Self) -> Self
        ensures { value result ≡ int_max (value self) (value y) };

    /// The nearest whole number of which a unit make it, halves upwards, and how far it is from that.
    fn rounded(self) -> Rounded<Self>
        requires { unsigned_abs (value self) ≤ limit }
        ensures nearest { value result.nearest ≡ rnd_of (value self) }
        ensures residue { pos result.residue ≡ residue_of (value self) }
        ensures half { result.residue ≤ 500_000_000 }
        ensures within { unsigned_abs (value result.nearest) ≤ limit };

    /// The same number in 128 bits.
    fn wide(self) -> i128
        ensures { result ≡ value self };

    /// The same number in 64 bits, where it is within `RANGE`; elsewhere any.
    fn low(self) -> i64
        ensures { unsigned_abs (value self) ≤ range → result ≡ value self };
}

/// A rounded number, and what the rounding leaves.
#[derive(Clone, Copy, Debug)]
pub struct Rounded<W> {
    pub nearest: W,
    pub residue: u64,
}

impl Whole for i64 {
    ghost value = { λ z. z };

    ghost limit = { narrow_limit };

    fn zero() -> i64 {
        0
    }

    fn of(x: i64) -> i64 {
        x
    }

    fn of_wide(x: i128) -> i64 {
        x as i64
    }

    fn minus(self, y: i64) -> i64 {
        self - y
    }

    fn times(self, y: i64) -> i64 {
        y * self
    }

    fn low(self) -> i64 {
        self
    }

    fn plus(self, y: i64) -> i64 {
        self + y
    }

    fn plus_product(self, x: i64, y: i64) -> i64 {
        self + x * y
    }

    fn size(self) -> i64 {
        self.abs()
    }

    fn most(self, y: i64) -> i64 {
        if self < y { y } else { self }
    }

    fn rounded(self) -> Rounded<i64> {
        let of = narrow_rounding(self);
        Rounded {
            nearest: of.nearest,
            residue: of.residue,
        }
    }

    fn wide(self) -> i128 {
        i128::from(self)
    }
}

impl Whole for i128 {
    ghost value = { λ z. z };

    ghost limit = { wide_limit };

    fn zero() -> i128 {
        0
    }

    fn of(x: i64) -> i128 {
        i128::from(x)
    }

    fn of_wide(x: i128) -> i128 {
        x
    }

    fn minus(self, y: i128) -> i128 {
        self - y
    }

    fn times(self, y: i64) -> i128 {
        i128::from(y) * self
    }

    fn low(self) -> i64 {
        if self.unsigned_abs() <= 1_000_000_000_000_000_000 {
            self as i64
        } else {
            0
        }
    }

    fn plus(self, y: i128) -> i128 {
        self + y
    }

    fn plus_product(self, x: i64, y: i64) -> i128 {
        self + i128::from(x) * i128::from(y)
    }

    fn size(self) -> i128 {
        self.abs()
    }

    fn most(self, y: i128) -> i128 {
        if self < y { y } else { self }
    }

    fn rounded(self) -> Rounded<i128> {
        let of = rounded(self);
        Rounded {
            nearest: of.nearest,
            residue: of.residue as u64,
        }
    }

    fn wide(self) -> i128 {
        self
    }
}
