//! Two multipliers under which a column cancels.

ghost use Rattle.std.specs.Prelude.{◌≡◌, ◌≤◌, ◌<◌, ◌^◌, ◌/◌, unsigned_abs, neg_ℤ};
ghost use Rattle.set_rules.specs.Limits.{row_limit};
ghost use Rattle.set_rules.specs.Gain.{shift_below, shrunk_value};
ghost use Rattle.farkas_check.specs.Two.{cancelling_shift};

/// The multipliers of two rows, each within `2^31 - 1` of 0.
#[derive(Clone, Copy, Debug)]
pub(crate) struct Factors {
    pub(crate) first: i32,
    pub(crate) second: i32,
    ghost first_small: { unsigned_abs first ≤ 2_147_483_647 },
    ghost second_small: { unsigned_abs second ≤ 2_147_483_647 },
}

impl Factors {
    /// Those under which the coefficient `a` of the first row and `b` of the second cancel, up to the least number of
    /// halvings that brings both below `2^31`.
    pub(crate) fn cancelling(a: i128, b: i128) -> Factors
        requires first { unsigned_abs a ≤ row_limit }
        requires second { unsigned_abs b ≤ row_limit }
        ensures first { result.first ≡ shrunk_value (cancelling_shift a b) b }
        ensures second { result.second ≡ neg_ℤ (shrunk_value (cancelling_shift a b) a) }
    {
        let halvings = halvings_of(a.unsigned_abs().max(b.unsigned_abs()));
        Factors {
            first: shrunk(b, halvings),
            second: -shrunk(a, halvings),
        }
    }
}

/// The least number of halvings that brings `size` below `2^31`.
pub(crate) fn halvings_of(size: u128) -> u32
    ensures value { result ≡ shift_below (2 ^ 31) size }
    ensures few { result ≤ 97 }
    ensures below { size / 2 ^ result < 2 ^ 31 }
{
    (128 - size.leading_zeros()).saturating_sub(31)
}

/// `v` with its magnitude halved so often, rounded towards zero.
fn shrunk(v: i128, halvings: u32) -> i32
    requires shift { halvings ≤ 97 }
    requires below { unsigned_abs v / 2 ^ halvings < 2 ^ 31 }
    ensures value { result ≡ shrunk_value halvings v }
    ensures within { unsigned_abs result ≤ 2_147_483_647 }
{
    let size = (v.unsigned_abs() >> halvings) as i32;
    if v < 0 { -size } else { size }
}
