//! Multipliers of 31 bits.

ghost use Rattle.std.specs.Prelude.{◌≡◌, ◌≤◌, ◌<◌, length, unsigned_abs};
ghost use Rattle.farkas_check.specs.Certificate.{list_of};

use crate::fixed::Fixed;
use crate::vector::Vector;
use farkas_check::{Multipliers, passes};
use fixed_mat::Rows;

/// The greatest multiplier.
const FINEST: u64 = 2_147_483_647;

/// The greatest multiplier of the coarsest lists, which are tried where the finest does not pass: small whole numbers
/// let columns cancel that do not quite cancel under rounded ones.
const COARSE: u64 = 64;

/// The first of the finest list and the coarse ones that passes; the finest where none does.
pub(crate) fn rounded(rows: &Rows, ray: &Vector) -> Multipliers
    requires { 0 < length rows.now.rows }
    ensures { length (list_of result) ≡ length rows.now.rows }
{
    let count = rows.count();
    let finest = multipliers(ray, count, FINEST);
    if passes(rows, finest.list()) {
        return finest;
    }
    for greatest in 1..=COARSE {
        let coarse = multipliers(ray, count, greatest);
        if passes(rows, coarse.list()) {
            return coarse;
        }
    }
    finest
}

/// 1 for each of `count` rows.
pub(crate) fn ones(count: usize) -> Multipliers
    requires some { 1 ≤ count }
    requires few { count ≤ 6 }
    ensures { length (list_of result) ≡ count }
{
    let ones = [1; 6];
    Multipliers::of(&ones[..count]).unwrap()
}

/// The first `count` entries, enlarged or shrunk alike so that the greatest is `greatest`, and rounded.
fn multipliers(ray: &Vector, count: usize, greatest: u64) -> Multipliers
    requires some { 1 ≤ count }
    requires few { count ≤ 6 }
    requires greatest { greatest ≤ 2_147_483_647 }
    ensures { length (list_of result) ≡ count }
{
    let most = ray.most().max(1);
    let mut values = [0; 6];
    for r in 0..6 {
        values[r] = nearest(ray.entries[r], most, greatest);
    }
    Multipliers::of(&values[..count]).unwrap()
}

/// The whole number nearest to so many times `number / most`.
fn nearest(number: Fixed, most: u64, times: u64) -> i32
    requires most { 1 ≤ most }
    requires times { times ≤ 2_147_483_647 }
    ensures { unsigned_abs result ≤ 2_147_483_647 }
{
    let most = u128::from(most);
    let size = (u128::from(number.size()) * u128::from(times) + most / 2) / most;
    let size = size.min(2_147_483_647) as i32;
    if number.is_negative() { -size } else { size }
}
