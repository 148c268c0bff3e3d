//! One row of telemetry.

ghost use Rattle.plant_model.specs.Plant.{IsSample, row_of};
ghost use Rattle.plant_model.specs.SampleLimits.{IsSample-prop};

use arrayvec::ArrayVec;
use fixed_mat::Reading;

/// A row: its inputs in nano-units, each within `10^15`, and a reading for each output, whose value is within `10^18` and whose slack
/// is 0 or 1.
#[derive(Debug, Drop)]
pub struct Sample {
    pub u: ArrayVec<i128, 4>,
    pub y: ArrayVec<Reading, 6>,
    pub ghost limits: { IsSample (row_of u.items y.items) } by { IsSample-prop (row_of u.items y.items) },
}
