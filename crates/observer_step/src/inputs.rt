//! What the inputs of a sample add to the states and to the outputs, unrounded.

ghost use Rattle.std.specs.Prelude.{◌≡◌, ◌<◌, ◌≤◌, ◌^◌, length, ◌*ℤ◌, unsigned_abs};
ghost use Rattle.set_rules.specs.Sum.{total};
ghost use Rattle.set_rules.specs.Columns.{at, entry};
ghost use Rattle.set_rules.specs.Limits.{input_limit, raw_limit};
ghost use Rattle.plant_model.specs.Plant.{AllWithinLimit, shift_of, through_of};

use fixed_mat::{Coef, Mat, Raws};
use plant_model::Plant;

/// What the inputs add to each state, a unit times too large.
pub fn shift<const N: usize>(plant: &Plant<N>, u: &[i128]) -> Raws<N>
    requires count { length u.now ≡ plant.now.inputs }
    requires small { AllWithinLimit input_limit u.now }
    ensures { result ≡ shift_of plant.now u.now }
{
    let _ = plant.states();
    let _ = plant.inputs();
    let mut shift = Raws::zero();
    for i in 0..N {
        shift.set(i, products(plant.b(), i, u)).unwrap();
    }
    shift
}

/// What the inputs add to output `o`, a unit times too large.
pub fn through<const N: usize>(plant: &Plant<N>, u: &[i128], o: usize) -> i128
    requires count { length u.now ≡ plant.now.inputs }
    requires small { AllWithinLimit input_limit u.now }
    requires output { o < plant.now.outputs }
    ensures value { result ≡ through_of plant.now u.now o }
    ensures within { unsigned_abs result ≤ raw_limit }
{
    let _ = plant.inputs();
    let _ = plant.outputs();
    products(plant.d(), o, u)
}

/// Row `r` of a matrix times the inputs.
fn products<const R: usize>(m: &Mat<R, 4, Coef>, r: usize, u: &[i128]) -> i128
    requires row { r < R }
    requires few { length u.now ≤ 4 }
    requires small { AllWithinLimit input_limit u.now }
    ensures value { result ≡ total (length u.now) (λ l. entry 4 m.now r l *ℤ at u.now l) }
    ensures within { unsigned_abs result ≤ raw_limit }
{
    let mut sum = 0;
    for l in 0..u.len() {
        sum += i128::from(m.at(r, l)) * u[l];
    }
    sum
}
