//! The readings of a sample: which of them misses, and what they leave of a set.

ghost use Rattle.std.specs.Prelude.{◌≡◌, ◌+◌, ◌<◌, ◌≤◌, length, pos, ◌≤ℤ◌, unsigned_abs};
ghost use Rattle.std.specs.List.{All};
ghost use Rattle.set_rules.specs.Limits.{input_limit, row_limit, most_states};
ghost use Rattle.set_rules.specs.Products.{row_with};
ghost use Rattle.set_rules.specs.Zono.{range};
ghost use Rattle.plant_model.specs.Plant.{AllWithinLimit, IsReading, known, reading_at};
ghost use Rattle.plant_model.specs.Seen.{sample_of};
ghost use Rattle.observer_step.specs.Predicted.{reading_misses};
ghost use Rattle.observer_step.specs.Missed.{first_missed};
ghost use Rattle.observer_step.specs.Ahead.{IsFirst};
ghost use Rattle.observer_step.specs.Estimate.{correct, correct_reading, image_columns, row_of, take_row as take_row_of};

use crate::PLAIN_COLUMNS;
use crate::ahead::FirstReading;
use crate::inputs::through;
use crate::room::Room;
use fixed_mat::{Coefs, Reading};
use plant_model::{Plant, Sample};
use row_drop::gain_within;
use zono_set::{Refusals, Zono};

/// The least output whose reading misses its interval.
pub fn missed(outs: &[(i128, i128)], readings: &[Reading]) -> Option<u32>
    requires few { length outs.now ≤ 6 }
    requires count { length readings.now ≡ length outs.now }
    requires limits { All IsReading readings.now }
    ensures { result ≡ first_missed outs.now readings.now }
{
    for o in 0..outs.len() {
        if misses(outs[o], readings[o]) {
            return Some(o as u32);
        }
    }
    None
}

/// Whether a reading misses its interval.
fn misses(ends: (i128, i128), reading: Reading) -> bool
    requires { IsReading reading }
    ensures { result ≡ reading_misses ends (known reading) }
{
    match reading {
        Reading::Missing => false,
        Reading::Value { v, slack } => ends.1 < v - slack || v + slack < ends.0,
    }
}

/// Takes the readings of a sample, in order, of which the room holds the row of the first.
pub fn take_readings<const N: usize>(
    set: &mut Zono<N>,
    refusals: &mut Refusals,
    room: &mut Room,
    plant: &Plant<N>,
    sample: &Sample,
    first: Option<FirstReading>,
)
    requires inputs { length sample.now.u.items ≡ plant.now.inputs }
    requires outputs { length sample.now.y.items ≡ plant.now.outputs }
    requires room { length set.old.columns ≤ image_columns }
    requires first { IsFirst plant.now (sample_of sample.now) set.old room.old.row plant.now.outputs first }
    ensures value { set.new ≡ correct plant.now (sample_of sample.now) set.old }
    ensures room { length set.new.columns ≤ image_columns }
{
    let _ = plant.states();
    match first {
        None => {}
        Some(reading) => {
            take_row(set, refusals, room, reading.right);
            for o in reading.output + 1..plant.outputs() {
                take_reading(set, refusals, room, plant, sample, o);
            }
        }
    }
}

/// Takes the reading of output `o`, if there is one.
fn take_reading<const N: usize>(
    set: &mut Zono<N>,
    refusals: &mut Refusals,
    room: &mut Room,
    plant: &Plant<N>,
    sample: &Sample,
    o: usize,
)
    requires inputs { length sample.now.u.items ≡ plant.now.inputs }
    requires outputs { length sample.now.y.items ≡ plant.now.outputs }
    requires output { o < plant.now.outputs }
    requires room { length set.old.columns ≤ image_columns }
    ensures value { set.new ≡ correct_reading plant.now sample.now.u.items o (reading_at (sample_of sample.now) o) set.old }
    ensures room { length set.new.columns ≤ image_columns }
{
    let _ = plant.states();
    match sample.y[o] {
        Reading::Missing => {}
        Reading::Value { v, slack } => {
            let right = fill_row(set, &mut room.row, plant, &sample.u, o, v, slack);
            take_row(set, refusals, room, right);
        }
    }
}

/// Puts the row of the reading `v` of output `o` in the place of that in `row`; gives its right side.
pub fn fill_row<const N: usize>(
    set: &Zono<N>,
    row: &mut Coefs,
    plant: &Plant<N>,
    u: &[i128],
    o: usize,
    v: i128,
    slack: i128,
) -> i128
    requires count { length u.now ≡ plant.now.inputs }
    requires small { AllWithinLimit input_limit u.now }
    requires output { o < plant.now.outputs }
    requires reading { unsigned_abs v ≤ range }
    requires slack_low { pos 0 ≤ℤ slack }
    requires slack_high { slack ≤ℤ pos 1 }
    requires room { length set.now.columns ≤ image_columns }
    ensures coefficients { row.new ≡ (row_of plant.now u.now o (record { value = v; slack = slack }) set.now).coefficients }
    ensures right { result ≡ (row_of plant.now u.now o (record { value = v; slack = slack }) set.now).right }
    ensures within { unsigned_abs result ≤ row_limit }
{
    let _ = plant.states();
    set.fill_strip_row(
        &plant.c_row(o),
        through(plant, u, o),
        v,
        plant.noise(o) + slack,
        row,
    )
}

/// Takes the row that the room holds by its gains where the set takes it, and leaves at most `PLAIN_COLUMNS` columns.
fn take_row<const N: usize>(
    set: &mut Zono<N>,
    refusals: &mut Refusals,
    room: &mut Room,
    right: i128,
)
    requires states { N ≤ most_states }
    requires columns { length room.old.row ≡ length set.old.columns + 1 }
    requires right { unsigned_abs right ≤ row_limit }
    requires room { length set.old.columns ≤ image_columns }
    ensures value { set.new ≡ take_row_of N (row_with room.old.row right) set.old }
    ensures room { length set.new.columns ≤ image_columns }
{
    let gains = gain_within(set.cols(), &room.row, set.greatest_radius());
    set.substitute_in(&room.row, right, &gains, &mut room.rest, refusals);
    set.reduce(PLAIN_COLUMNS);
}
