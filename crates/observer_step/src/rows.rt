//! The readings of a sample kept as rows on the symbols of a set.

ghost use Rattle.std.specs.Prelude.{◌≡◌, ◌+◌, ◌<◌, ◌≤◌, length};
ghost use Rattle.set_rules.specs.Limits.{constrained_columns, most_rows, most_states};
ghost use Rattle.plant_model.specs.Plant.{reading_at};
ghost use Rattle.plant_model.specs.Seen.{sample_of};
ghost use Rattle.observer_step.specs.Sets.{with_room as with_room_of, keep_reading as keep_reading_of, kept_after};

use crate::readings::fill_row;
use crate::room::Room;
use czono_set::Czono;
use fixed_mat::Reading;
use plant_model::{Plant, Sample};
use zono_set::Refusals;

/// The most rows that a set keeps.
const MOST_ROWS: usize = 6;

/// Keeps the readings of a sample, in order, as the newest rows.
pub fn keep_readings<const N: usize>(
    set: &mut Czono<N>,
    refusals: &mut Refusals,
    room: &mut Room,
    plant: &Plant<N>,
    sample: &Sample,
)
    requires inputs { length sample.now.u.items ≡ plant.now.inputs }
    requires outputs { length sample.now.y.items ≡ plant.now.outputs }
    requires room { length set.old.base.columns ≤ constrained_columns + 1 }
    ensures value { set.new ≡ kept_after plant.now (sample_of sample.now) plant.now.outputs set.old }
    ensures room { length set.new.base.columns ≤ constrained_columns + 1 }
{
    for o in 0..plant.outputs() {
        keep_reading(set, refusals, room, plant, sample, o);
    }
}

/// Keeps the reading of output `o`, if there is one.
fn keep_reading<const N: usize>(
    set: &mut Czono<N>,
    refusals: &mut Refusals,
    room: &mut Room,
    plant: &Plant<N>,
    sample: &Sample,
    o: usize,
)
    requires inputs { length sample.now.u.items ≡ plant.now.inputs }
    requires outputs { length sample.now.y.items ≡ plant.now.outputs }
    requires output { o < plant.now.outputs }
    requires room { length set.old.base.columns ≤ constrained_columns + 1 }
    ensures value { set.new ≡ keep_reading_of plant.now sample.now.u.items o (reading_at (sample_of sample.now) o) set.old }
    ensures room { length set.new.base.columns ≤ constrained_columns + 1 }
{
    let _ = plant.states();
    match sample.y[o] {
        Reading::Missing => {}
        Reading::Value { v, slack } => {
            make_room(set, refusals, room);
            let right = fill_row(set.base(), &mut room.row, plant, &sample.u, o, v, slack);
            set.keep(&room.row, right);
        }
    }
}

/// Takes the oldest of six rows out, and leaves at most 64 columns.
fn make_room<const N: usize>(set: &mut Czono<N>, refusals: &mut Refusals, room: &mut Room)
    requires states { N ≤ most_states }
    requires room { length set.old.base.columns ≤ constrained_columns + 1 }
    ensures value { set.new ≡ with_room_of N set.old }
    ensures rows { length set.new.rows < most_rows }
    ensures columns { length set.new.base.columns ≤ constrained_columns }
{
    if set.rows().count() == MOST_ROWS {
        set.drop_oldest_in(&mut room.rest, refusals);
    }
    set.settle();
}
