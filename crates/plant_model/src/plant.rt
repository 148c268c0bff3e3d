//! A plant within its limits.

ghost use Rattle.std.specs.Prelude.{◌≡◌, ◌<◌, ◌≤◌, ◌≤ℤ◌, pos, length, Result};
ghost use Rattle.set_rules.specs.Columns.{at};
ghost use Rattle.set_rules.specs.Zono.{range};
ghost use Rattle.plant_model.specs.Counts.{most_inputs, most_outputs, most_disturbances};
ghost use Rattle.plant_model.specs.Plant.{IsPlant, IsShaped, output_row};
ghost use Rattle.plant_model.specs.Parts.{of_parts, judged};

use crate::{PlantFault, PlantParts};
use fixed_mat::{Coef, Mat, Range};
use std::marker::Model;

/// A plant of `N` states, in nano-units: `x' = A x + B u + E w` and `y = C x + D u` up to the noise, within its limits.
#[derive(Drop)]
pub struct Plant<const N: usize> {
    parts: PlantParts<N>,
}

impl<const N: usize> Model for Plant<N> {
    ghost use Rattle.plant_model.specs.Plant.{Plant as TheModel, IsPlant, IsShaped};
    ghost use Rattle.plant_model.specs.Parts.{of_parts};

    ghost Value = { TheModel };

    ghost view = { λ p. of_parts N p.parts };

    ghost invariant = { λ p. IsPlant (of_parts N p.parts) × IsShaped (of_parts N p.parts) };
}

impl<const N: usize> Plant<N> {
    /// The plant of these parts, or the first limit that they break: a count, then a sign, then the initial box.
    pub fn of(parts: PlantParts<N>) -> Result<Plant<N>, PlantFault>
        ensures { result ≡ judged (of_parts N parts.entry) }
    {
        if !parts.has_counts() {
            return Err(PlantFault::Counts);
        }
        if !parts.has_no_negative() {
            return Err(PlantFault::Negative);
        }
        parts.tell();
        match parts.first_leaving() {
            Some(i) => Err(PlantFault::Box { i }),
            None => Ok(Plant { parts }),
        }
    }

    /// How many states there are: `N`, from 1 to 8.
    pub fn states(&self) -> usize
        ensures value { result ≡ N }
        ensures states { self.now.states ≡ N }
        ensures limits { IsPlant self.now }
        ensures shape { IsShaped self.now }
    {
        let _ = &self.parts;
        N
    }

    /// How many inputs there are, at most 4.
    pub fn inputs(&self) -> usize
        ensures value { result ≡ self.now.inputs }
        ensures few { result ≤ most_inputs }
    {
        self.parts.inputs
    }

    /// How many outputs there are, from 1 to 6.
    pub fn outputs(&self) -> usize
        ensures value { result ≡ self.now.outputs }
        ensures some { 1 ≤ result }
        ensures few { result ≤ most_outputs }
    {
        self.parts.outputs
    }

    /// How many disturbances there are, at most 8.
    pub fn dists(&self) -> usize
        ensures value { result ≡ self.now.disturbances }
        ensures few { result ≤ most_disturbances }
    {
        self.parts.dists
    }

    /// How the states lead to the next.
    pub fn a(&self) -> &Mat<N, N, Coef>
        ensures { result.now ≡ self.now.a }
    {
        &self.parts.a
    }

    /// How the inputs lead to the next states.
    pub fn b(&self) -> &Mat<N, 4, Coef>
        ensures { result.now ≡ self.now.b }
    {
        &self.parts.b
    }

    /// How the states lead to the outputs, row by row.
    pub fn c(&self) -> &Mat<6, N, Coef>
        ensures { result.now ≡ self.now.c }
    {
        &self.parts.c
    }

    /// How the states lead to output `o`.
    pub fn c_row(&self, o: usize) -> Mat<1, N, Coef>
        requires { o < self.now.outputs }
        ensures { result ≡ output_row self.now o }
    {
        self.parts.c.row(o)
    }

    /// How the inputs lead to the outputs.
    pub fn d(&self) -> &Mat<6, 4, Coef>
        ensures { result.now ≡ self.now.d }
    {
        &self.parts.d
    }

    /// How the disturbances lead to the next states.
    pub fn e(&self) -> &Mat<N, 8, Range>
        ensures { result.now ≡ self.now.e }
    {
        &self.parts.e
    }

    /// How far a reading of output `o` lies from the output at most.
    pub fn noise(&self, o: usize) -> i128
        requires { o < self.now.outputs }
        ensures value { result ≡ at self.now.noise o }
        ensures low { pos 0 ≤ℤ result }
        ensures high { result ≤ℤ pos range }
    {
        i128::from(self.parts.noise.at(o, 0))
    }

    /// The middle of the box in which the states begin.
    pub fn centre(&self) -> &Mat<N, 1, Range>
        ensures { result.now ≡ self.now.centre }
    {
        &self.parts.centre
    }

    /// How far the box reaches to either side in each state.
    pub fn radius(&self) -> &Mat<N, 1, Range>
        ensures { result.now ≡ self.now.radius }
    {
        &self.parts.radius
    }

    /// How far each state lies from 0 at most, at every sample.
    pub fn state_max(&self) -> &Mat<N, 1, Range>
        ensures { result.now ≡ self.now.state_max }
    {
        &self.parts.state_max
    }
}
