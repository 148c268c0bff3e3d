//! Whole nano-units in fixed storage: rounding, and matrices and columns whose entries stay in the range of their type.
#![tactic(auto)]

ghost use Rattle.std.specs.Prelude.{◌≡◌, pos};
ghost use Rattle.set_rules.specs.Limits.{coef, row_limit, raw_limit};
ghost use Rattle.set_rules.specs.Round.{unit};
ghost use Rattle.set_rules.specs.Zono.{range};

mod coefs;
mod cols;
mod mat;
mod products;
mod raws;
mod reading;
mod ring;
mod round;
mod rows;
mod whole;

pub use coefs::Coefs;
pub use cols::Cols;
pub use mat::{Coef, Limit, Mat, OverLimit, Range};
pub use products::{column_product, dot, row_times_vector, tell_products, times};
pub use raws::Raws;
pub use reading::Reading;
pub use round::{NarrowRounding, Rounding, S, ceil_s, narrow_rounding, residue, rnd, rounded};
pub use rows::Rows;
pub use whole::{Rounded, Whole};

/// The greatest magnitude of a coefficient of a plant, and of a gain, in nano-units.
pub const COEF: u128 = 1_000_000_000_000;

/// The greatest magnitude of a state, a column's entry or a centre, and of what a set reaches, in nano-units.
pub const RANGE: u128 = 1_000_000_000_000_000_000;

/// The greatest sum of the magnitudes of a kept row, and of its right side, in nano-units.
pub const ROW: u128 = 10_000_000_000_000_000_000_000;

/// The greatest magnitude of an unrounded product of inputs, in nano-units times nano-units.
pub const RAW: u128 = 10_000_000_000_000_000_000_000_000_000;

/// The constants are the limits and the unit of the definitions.
pub fn limits()
    ensures coefficients { COEF ≡ coef }
    ensures entries { RANGE ≡ range }
    ensures rows { ROW ≡ row_limit }
    ensures products { RAW ≡ raw_limit }
    ensures units { S ≡ pos unit }
{}
