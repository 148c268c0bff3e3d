//! The one pass of a set over a sample.

ghost use Rattle.std.specs.Prelude.{◌≡◌, ◌≤◌, ◌&&◌, true, length, is_none, if◌then◌else◌};
ghost use Rattle.std.specs.List.{list_all};
ghost use Rattle.plant_model.specs.Seen.{sample_of};
ghost use Rattle.observer_step.specs.Predicted.{predicted_outs, due};
ghost use Rattle.observer_step.specs.Estimate.{image_columns};
ghost use Rattle.observer_step.specs.Offers.{correct_if};
ghost use Rattle.observer_step.specs.Seen.{is_printable_interval};

use crate::ahead::{Ahead, look_ahead};
use crate::readings::{missed, take_readings};
use crate::room::Room;
use arrayvec::ArrayVec;
use plant_model::{Plant, Sample};
use zono_set::{Refusals, Zono};

/// What a set predicted of a sample: the interval of each output, and the least output whose reading misses.
#[derive(Drop)]
pub struct Passed {
    pub outs: ArrayVec<(i128, i128), 6>,
    pub due: Option<u32>,
}

/// Compares a sample with what the set predicts. Where no output is due, the set takes the readings if they are wanted.
pub fn pass_over<const N: usize>(
    set: &mut Zono<N>,
    refusals: &mut Refusals,
    room: &mut Room,
    plant: &Plant<N>,
    sample: &Sample,
    wanted: bool,
) -> Passed
    requires inputs { length sample.now.u.items ≡ plant.now.inputs }
    requires outputs { length sample.now.y.items ≡ plant.now.outputs }
    requires room { length set.old.columns ≤ image_columns }
    ensures outs { result.outs.items ≡ predicted_outs plant.now sample.now.u.items set.old }
    ensures printable { list_all is_printable_interval result.outs.items ≡ true }
    ensures due { result.due ≡ due plant.now (sample_of sample.now) set.old }
    ensures set { set.new ≡ correct_if (wanted && is_none result.due) plant.now (sample_of sample.now) set.old }
    ensures room { length set.new.columns ≤ image_columns }
{
    let _ = plant.outputs();
    let Ahead { outs, first } = look_ahead(set, &mut room.row, plant, sample);
    let due = missed(&outs, &sample.y);
    if wanted && due.is_none() {
        take_readings(set, refusals, room, plant, sample, first);
    }
    Passed { outs, due }
}
