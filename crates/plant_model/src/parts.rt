//! What a plant is made of.

ghost use Rattle.std.specs.Prelude.{◌≡◌, ◌≤◌};
ghost use Rattle.std.specs.List.{list_all};
ghost use Rattle.plant_model.specs.Counts.{most_outputs};
ghost use Rattle.plant_model.specs.Signs.{is_not_negative};

use fixed_mat::{Coef, Mat, RANGE, Range};

/// The fields of a plant of `N` states, in nano-units, before its limits are judged.
/// Columns of `b` and `d` past the inputs, rows of `c`, `d` and `noise` past the outputs and columns of `e` past the disturbances
/// are not read.
#[derive(Drop)]
pub struct PlantParts<const N: usize> {
    pub inputs: usize,
    pub outputs: usize,
    pub dists: usize,
    pub a: Mat<N, N, Coef>,
    pub b: Mat<N, 4, Coef>,
    pub c: Mat<6, N, Coef>,
    pub d: Mat<6, 4, Coef>,
    pub e: Mat<N, 8, Range>,
    pub noise: Mat<6, 1, Range>,
    pub centre: Mat<N, 1, Range>,
    pub radius: Mat<N, 1, Range>,
    pub state_max: Mat<N, 1, Range>,
}

/// Why parts make no plant.
#[derive(Clone, Copy, Debug, PartialEq, Eq, Drop)]
pub enum PlantFault {
    /// A count is outside its limits.
    Counts,
    /// A noise, a radius or a state bound is negative.
    Negative,
    /// The centre's magnitude and the radius of state `i` pass the range together.
    Box { i: usize },
}

impl<const N: usize> PlantParts<N> {
    ghost use Rattle.plant_model.specs.Plant.{HasSmallEntries, IsShaped};
    ghost use Rattle.plant_model.specs.Parts.{of_parts, has_counts, has_no_negative, first_leaving};

    /// Tells the limits and the shapes that the matrices keep by their types.
    pub(crate) fn tell(&self)
        ensures entries { HasSmallEntries (of_parts N self.now) }
        ensures shape { IsShaped (of_parts N self.now) }
    {
        let _ = self.a.entries();
        let _ = self.b.entries();
        let _ = self.c.entries();
        let _ = self.d.entries();
        let _ = self.e.entries();
        let _ = self.noise.entries();
        let _ = self.centre.entries();
        let _ = self.radius.entries();
        let _ = self.state_max.entries();
    }

    /// Whether each count is within its limits.
    pub(crate) fn has_counts(&self) -> bool
        ensures { result ≡ has_counts (of_parts N self.now) }
    {
        (1 <= N && N <= 8)
            && self.inputs <= 4
            && (1 <= self.outputs && self.outputs <= 6)
            && self.dists <= 8
    }

    /// Whether no noise of an output, no radius and no bound of a state is negative.
    pub(crate) fn has_no_negative(&self) -> bool
        requires { self.now.outputs ≤ most_outputs }
        ensures { result ≡ has_no_negative (of_parts N self.now) }
    {
        are_not_negative(&self.noise.entries()[..self.outputs])
            && (are_not_negative(self.radius.entries())
                && are_not_negative(self.state_max.entries()))
    }

    /// The least state in which the initial box leaves the range.
    pub(crate) fn first_leaving(&self) -> Option<usize>
        ensures { result ≡ first_leaving (of_parts N self.now) }
    {
        for i in 0..N {
            let reach = self.centre.at(i, 0).unsigned_abs() + self.radius.at(i, 0).unsigned_abs();
            if u128::from(reach) > RANGE {
                return Some(i);
            }
        }
        None
    }
}

fn are_not_negative(entries: &[i64]) -> bool
    ensures { result ≡ list_all is_not_negative entries.now }
{
    entries.iter().all(|v| *v >= 0)
}
