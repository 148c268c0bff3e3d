//! What a set predicts of a sample, before it takes its readings.

ghost use Rattle.std.specs.Prelude.{◌≡◌, ◌<◌, ◌≤◌, ◌^◌, length, true, pos, ◌≤ℤ◌, ◌-ℤ◌, ◌+ℤ◌, unsigned_abs};
ghost use Rattle.std.specs.List.{list_all, sum_by};
ghost use Rattle.set_rules.specs.Limits.{input_limit, row_limit, interval_limit};
ghost use Rattle.set_rules.specs.Products.{row_with};
ghost use Rattle.set_rules.specs.Zono.{range};
ghost use Rattle.plant_model.specs.Plant.{AllWithinLimit};
ghost use Rattle.plant_model.specs.Seen.{sample_of};
ghost use Rattle.observer_step.specs.Predicted.{out_of, predicted_outs};
ghost use Rattle.observer_step.specs.Seen.{is_printable_interval};
ghost use Rattle.observer_step.specs.Estimate.{row_of, image_columns};
ghost use Rattle.observer_step.specs.Ahead.{IsFirst};

use crate::inputs::through;
use crate::readings::fill_row;
use arrayvec::ArrayVec;
use fixed_mat::{Coefs, Reading};
use plant_model::{Plant, Sample};
use zono_set::Zono;

/// The first reading of a sample: its output, and the right side of its row on the symbols of the predicted set.
#[derive(Clone, Copy, Debug)]
pub struct FirstReading {
    pub output: usize,
    pub right: i128,
}

/// What a set predicts of a sample: the interval of each output, and its first reading.
#[derive(Drop)]
pub struct Ahead {
    pub outs: ArrayVec<(i128, i128), 6>,
    pub first: Option<FirstReading>,
}

/// The predicted interval of each output, and the first reading, whose row is put into the room `row`.
pub fn look_ahead<const N: usize>(
    set: &Zono<N>,
    row: &mut Coefs,
    plant: &Plant<N>,
    sample: &Sample,
) -> Ahead
    requires inputs { length sample.now.u.items ≡ plant.now.inputs }
    requires outputs { length sample.now.y.items ≡ plant.now.outputs }
    requires room { length set.now.columns ≤ image_columns }
    ensures value { result.outs.items ≡ predicted_outs plant.now sample.now.u.items set.now }
    ensures printable { list_all is_printable_interval result.outs.items ≡ true }
    ensures first { IsFirst plant.now (sample_of sample.now) set.now row.new plant.now.outputs result.first }
{
    let mut outs = ArrayVec::new();
    let mut first = None;
    for o in 0..plant.outputs() {
        match sample.y[o] {
            Reading::Value { v, slack } if first.is_none() => {
                let (right, ends) = row_and_interval(set, row, plant, &sample.u, o, v, slack);
                outs.push(ends);
                first = Some(FirstReading { output: o, right });
            }
            _ => outs.push(interval(set, plant, &sample.u, o)),
        }
    }
    Ahead { outs, first }
}

/// Puts the row of the reading `v` of output `o` into the room `row`; gives its right side and the predicted interval of the output.
fn row_and_interval<const N: usize>(
    set: &Zono<N>,
    row: &mut Coefs,
    plant: &Plant<N>,
    u: &[i128],
    o: usize,
    v: i128,
    slack: i128,
) -> (i128, (i128, i128))
    requires count { length u.now ≡ plant.now.inputs }
    requires small { AllWithinLimit input_limit u.now }
    requires output { o < plant.now.outputs }
    requires reading { unsigned_abs v ≤ range }
    requires slack_low { pos 0 ≤ℤ slack }
    requires slack_high { slack ≤ℤ pos 1 }
    requires room { length set.now.columns ≤ image_columns }
    ensures row { row_with row.new result.0 ≡ row_of plant.now u.now o (record { value = v; slack = slack }) set.now }
    ensures within { unsigned_abs result.0 ≤ row_limit }
    ensures value { result.1 ≡ out_of plant.now u.now set.now o }
    ensures low { unsigned_abs result.1.0 ≤ interval_limit }
    ensures high { unsigned_abs result.1.1 ≤ interval_limit }
{
    let _ = plant.noise(o);
    let right = fill_row(set, row, plant, u, o, v, slack);
    (right, interval_of_row(row, right, v, slack))
}

/// The predicted interval of the output of which `v` is the reading: the magnitudes in its row add up to half of its width and the slack.
fn interval_of_row(row: &Coefs, right: i128, v: i128, slack: i128) -> (i128, i128)
    requires right { unsigned_abs right ≤ row_limit }
    requires reading { unsigned_abs v ≤ range }
    requires slack_low { pos 0 ≤ℤ slack }
    requires slack_high { slack ≤ℤ pos 1 }
    ensures value { let half = pos (sum_by unsigned_abs row.now) -ℤ slack in result ≡ (v -ℤ right -ℤ half, v -ℤ right +ℤ half) }
    ensures low { unsigned_abs result.0 ≤ interval_limit }
    ensures high { unsigned_abs result.1 ≤ interval_limit }
{
    let middle = v - right;
    let half = row.sum() as i128 - slack;
    (middle - half, middle + half)
}

/// The predicted interval of each output.
pub fn predicted<const N: usize>(
    set: &Zono<N>,
    plant: &Plant<N>,
    u: &[i128],
) -> ArrayVec<(i128, i128), 6>
    requires count { length u.now ≡ plant.now.inputs }
    requires small { AllWithinLimit input_limit u.now }
    requires room { length set.now.columns ≤ image_columns }
    ensures value { result.items ≡ predicted_outs plant.now u.now set.now }
    ensures printable { list_all is_printable_interval result.items ≡ true }
{
    let mut outs = ArrayVec::new();
    for o in 0..plant.outputs() {
        outs.push(interval(set, plant, u, o));
    }
    outs
}

/// The predicted interval of output `o`.
fn interval<const N: usize>(set: &Zono<N>, plant: &Plant<N>, u: &[i128], o: usize) -> (i128, i128)
    requires count { length u.now ≡ plant.now.inputs }
    requires small { AllWithinLimit input_limit u.now }
    requires output { o < plant.now.outputs }
    requires room { length set.now.columns ≤ image_columns }
    ensures value { result ≡ out_of plant.now u.now set.now o }
    ensures low { unsigned_abs result.0 ≤ interval_limit }
    ensures high { unsigned_abs result.1 ≤ interval_limit }
{
    let _ = plant.states();
    set.out_interval(&plant.c_row(o), through(plant, u, o), plant.noise(o))
}
