//! Numbers brought below `2 ^ 40`, so that their products fit 128 bits.

ghost use Rattle.std.specs.Prelude.{IsTrue, ℕ, ◌≡◌, ◌*◌, ◌<◌, ◌≤◌, ◌^◌, ◌/◌, max, length, map, unsigned_abs};
ghost use Rattle.std.specs.List.{All};
ghost use Rattle.set_rules.specs.Reduce.{greatest};
ghost use Rattle.set_rules.specs.Columns.{column_entry};
ghost use Rattle.set_rules.specs.Gain.{shift_below, shrunk_value, greatest_entry, gain_shift};
ghost use Rattle.set_rules.specs.Zono.{range};
ghost use Rattle.row_drop.specs.Room.{room as room_of, plain_limit};

use arrayvec::ArrayVec;
use fixed_mat::{Coefs, Cols};

/// Whether no magnitude in the columns is above `limit`, a power of two; each entry raised by it then sets low bits alone.
pub fn all_within<const N: usize>(cols: &Cols<N>, limit: u64) -> bool
    requires { limit ≤ 2 ^ 39 }
    ensures { IsTrue result → greatest_entry cols.now ≤ limit }
{
    let mut bits = 0;
    for t in 0..cols.len() {
        bits |= raised_bits(cols.column(t), limit);
    }
    bits < 2 * limit
}

/// The bits that any entry of a column sets once it is raised by `limit`.
fn raised_bits(column: &[i64], limit: u64) -> u64
    requires limit { limit ≤ 2 ^ 39 }
    requires within { All (λ z. unsigned_abs z ≤ range) column.now }
    ensures { result < 2 * limit → greatest column.now ≤ limit }
{
    let mut bits = 0;
    for entry in column {
        bits |= (*entry + limit as i64).cast_unsigned();
    }
    bits
}

/// Numbers up to this need no shrinking, and their products with a row of this sum fit 64 bits.
pub fn room_for(sum: u64) -> u64
    requires { sum < plain_limit }
    ensures value { result ≡ room_of sum }
    ensures some { 1 ≤ result }
    ensures high { result ≤ 2 ^ 39 }
{
    (9_000_000_000_000_000_000 / (sum + 1)).min(549_755_813_888)
}

/// Whether no magnitude in the columns, none of which is above `bound`, is above `room`; they are gone over where the bound leaves it open.
pub fn has_room<const N: usize>(cols: &Cols<N>, bound: u64, room: u64) -> bool
    requires entries { (i t : ℕ) → i < N → unsigned_abs (column_entry cols.now i t) ≤ bound }
    requires some { 1 ≤ room }
    requires high { room ≤ 2 ^ 39 }
    ensures { IsTrue result → (i t : ℕ) → i < N → unsigned_abs (column_entry cols.now i t) ≤ room }
{
    bound <= room || all_within(cols, power_within(room))
}

/// The greatest power of two that is no greater than `room`.
fn power_within(room: u64) -> u64
    requires some { 1 ≤ room }
    requires high { room ≤ 2 ^ 39 }
    ensures { result ≤ room }
{
    1 << room.ilog2()
}

/// The least number of halvings that brings every magnitude in the columns and the row below `2 ^ 40`.
pub fn shift_of<const N: usize>(cols: &Cols<N>, a: &Coefs) -> u32
    ensures value { result ≡ gain_shift cols.now a.now }
    ensures small { result ≤ 88 }
    ensures columns { greatest_entry cols.now / 2 ^ result < plain_limit }
    ensures row { greatest a.now / 2 ^ result < plain_limit }
{
    shift_below_limit(u128::from(greatest_in_cols(cols)).max(greatest_in_coefs(a)))
}

/// The least number of halvings that brings `size` below `2 ^ 40`.
fn shift_below_limit(size: u128) -> u32
    ensures value { result ≡ shift_below plain_limit size }
    ensures small { result ≤ 88 }
    ensures below { size / 2 ^ result < plain_limit }
{
    for halvings in 0..88 {
        if size >> halvings < 1_099_511_627_776 {
            return halvings;
        }
    }
    88
}

/// The greatest magnitude in the columns.
pub fn greatest_in_cols<const N: usize>(cols: &Cols<N>) -> u64
    ensures { result ≡ greatest_entry cols.now }
{
    let mut most = 0;
    for t in 0..cols.len() {
        most = greatest_in(cols.column(t)).max(most);
    }
    most
}

/// The greatest magnitude in a column.
fn greatest_in(column: &[i64]) -> u64
    ensures { result ≡ greatest column.now }
{
    let mut most = 0;
    for entry in column {
        most = entry.unsigned_abs().max(most);
    }
    most
}

/// The greatest magnitude of the coefficients.
fn greatest_in_coefs(a: &Coefs) -> u128
    ensures { result ≡ greatest a.now }
{
    let mut most = 0;
    for t in 0..a.len() {
        most = a.at(t).unsigned_abs().max(most);
    }
    most
}

/// `v` with its magnitude halved so often, rounded towards zero.
pub fn shrunk(v: i128, halvings: u32) -> i64
    requires shift { halvings ≤ 88 }
    requires below { unsigned_abs v / 2 ^ halvings < plain_limit }
    ensures value { result ≡ shrunk_value halvings v }
    ensures within { unsigned_abs result < plain_limit }
{
    if halvings == 0 {
        return v as i64;
    }
    let size = (v.unsigned_abs() >> halvings) as i64;
    if v < 0 { -size } else { size }
}

/// The coefficients, each shrunk.
pub fn shrunk_row(a: &Coefs, halvings: u32) -> ArrayVec<i64, 128>
    requires shift { halvings ≤ 88 }
    requires below { greatest a.now / 2 ^ halvings < plain_limit }
    ensures value { result.items ≡ map (shrunk_value halvings) a.now }
    ensures small { All (λ x. unsigned_abs x < plain_limit) result.items }
{
    let mut row = ArrayVec::new();
    for t in 0..a.len() {
        row.push(shrunk(a.at(t), halvings));
    }
    row
}
