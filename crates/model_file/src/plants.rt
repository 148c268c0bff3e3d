//! The plant of a model.

ghost use Rattle.std.specs.Prelude.{◌≡◌, ◌≤◌, IfOk};
ghost use Rattle.toml.specs.View.{view};
ghost use Rattle.plant_model.specs.Seen.{plant_of};
ghost use Rattle.set_rules.specs.Limits.{most_states};
ghost use Rattle.model_file.specs.Limits.{most_entries};
ghost use Rattle.model_file.specs.Reads.{map_ok};

use crate::numbers::{matrix, matrix_unless_empty, radii, vector};
use crate::reads::value_at;
use crate::{Count, Field, ModelFault, Path};
use fixed_mat::{Coef, Mat, RANGE, Range};
use plant_model::{AnyPlant, Plant, PlantParts};
use toml::Value;

/// The counts of a model beside that of its states.
#[derive(Clone, Copy)]
pub struct Counts {
    pub inputs: usize,
    pub outputs: usize,
    pub disturbances: usize,
}

/// The matrices of a model of `N` states.
#[derive(Drop)]
pub struct Matrices<const N: usize> {
    pub a: Mat<N, N, Coef>,
    pub b: Mat<N, 4, Coef>,
    pub c: Mat<6, N, Coef>,
    pub d: Mat<6, 4, Coef>,
    pub e: Mat<N, 8, Range>,
}

/// The bounds of a model of `N` states.
#[derive(Drop)]
pub struct Bounds<const N: usize> {
    pub noise: Mat<6, 1, Range>,
    pub centre: Mat<N, 1, Range>,
    pub radius: Mat<N, 1, Range>,
    pub state_max: Mat<N, 1, Range>,
}

impl Counts {
    ghost use Rattle.model_file.specs.Models.{count_of, matrices_of, bounds_of, plant_in};
    ghost use Rattle.model_file.specs.Parts.{AreCounts, matrices_seen, bounds_seen};

    /// An integer from `least` to 8.
    #[tactic(auto, unfolding(crate::specs::Models::count_of))]
    pub fn count(
        table: &Value,
        model: u32,
        field: Field,
        what: Count,
        least: usize,
    ) -> Result<usize, ModelFault>
        ensures value { result ≡ count_of model field what least (view table.now) }
        ensures low { IfOk result (λ n. least ≤ n) }
        ensures high { IfOk result (λ n. n ≤ most_entries) }
    {
        let path = Path::of_model(model, field);
        let number = value_at(table, path)?
            .as_integer()
            .ok_or(ModelFault::Kind { path })?;
        if number < 0 || (number as usize) < least {
            return Err(ModelFault::Kind { path });
        }
        if number > 8 {
            return Err(ModelFault::TooMany {
                what,
                got: number as u64,
                at: Some(model),
            });
        }
        Ok(number as usize)
    }

    /// The matrices of a model of `N` states.
    #[tactic(auto, unfolding(crate::specs::Models::matrices_of))]
    fn matrices<const N: usize>(self, table: &Value, model: u32) -> Result<Matrices<N>, ModelFault>
        requires some { 1 ≤ N }
        requires few { N ≤ most_states }
        requires counts { AreCounts self }
        ensures { map_ok matrices_seen result ≡ matrices_of model N self (view table.now) }
    {
        let a = matrix(table, Path::of_model(model, Field::A), N, N)?;
        let b = matrix_unless_empty(table, Path::of_model(model, Field::B), N, self.inputs)?;
        let c = matrix(table, Path::of_model(model, Field::C), self.outputs, N)?;
        let d = matrix_unless_empty(
            table,
            Path::of_model(model, Field::D),
            self.outputs,
            self.inputs,
        )?;
        let e = matrix_unless_empty(table, Path::of_model(model, Field::E), N, self.disturbances)?;
        Ok(Matrices { a, b, c, d, e })
    }

    /// The bounds of a model of `N` states.
    #[tactic(auto, unfolding(crate::specs::Models::bounds_of))]
    fn bounds<const N: usize>(self, table: &Value, model: u32) -> Result<Bounds<N>, ModelFault>
        requires some { 1 ≤ N }
        requires few { N ≤ most_states }
        requires counts { AreCounts self }
        ensures { map_ok bounds_seen result ≡ bounds_of model N self (view table.now) }
    {
        let noise = vector(table, Path::of_model(model, Field::Noise), self.outputs, 0)?;
        let centre = vector(table, Path::of_model(model, Field::Centre), N, LOWEST)?;
        let radius = radii(table, Path::of_model(model, Field::Radius), &centre)?;
        let state_max = vector(table, Path::of_model(model, Field::StateMax), N, 0)?;
        Ok(Bounds {
            noise,
            centre,
            radius,
            state_max,
        })
    }

    /// The plant of a model of `N` states.
    fn plant<const N: usize>(self, table: &Value, model: u32) -> Result<Plant<N>, ModelFault>
        requires some { 1 ≤ N }
        requires few { N ≤ most_states }
        requires counts { AreCounts self }
        ensures { result ≡ plant_in model N self (view table.now) }
    {
        let matrices = self.matrices::<N>(table, model)?;
        let bounds = self.bounds::<N>(table, model)?;
        let parts = PlantParts {
            inputs: self.inputs,
            outputs: self.outputs,
            dists: self.disturbances,
            a: matrices.a,
            b: matrices.b,
            c: matrices.c,
            d: matrices.d,
            e: matrices.e,
            noise: bounds.noise,
            centre: bounds.centre,
            radius: bounds.radius,
            state_max: bounds.state_max,
        };
        Ok(Plant::of(parts).unwrap())
    }

    /// The plant of a model of so many states, from 1 to 8.
    pub fn any_plant(self, states: usize, table: &Value, model: u32) -> Result<AnyPlant, ModelFault>
        requires some { 1 ≤ states }
        requires few { states ≤ most_states }
        requires counts { AreCounts self }
        ensures { map_ok plant_of result ≡ plant_in model states self (view table.now) }
    {
        match states {
            1 => Ok(AnyPlant::N1(self.plant(table, model)?)),
            2 => Ok(AnyPlant::N2(self.plant(table, model)?)),
            3 => Ok(AnyPlant::N3(self.plant(table, model)?)),
            4 => Ok(AnyPlant::N4(self.plant(table, model)?)),
            5 => Ok(AnyPlant::N5(self.plant(table, model)?)),
            6 => Ok(AnyPlant::N6(self.plant(table, model)?)),
            7 => Ok(AnyPlant::N7(self.plant(table, model)?)),
            8 => Ok(AnyPlant::N8(self.plant(table, model)?)),
            _ => unreachable!(),
        }
    }
}

/// The least number in the range.
const LOWEST: i128 = -(RANGE as i128);
