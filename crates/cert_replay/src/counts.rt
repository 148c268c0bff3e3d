//! How many lines a report has for a model.
ghost use Rattle.std.specs.Prelude.{◌≡◌, ℕ, ◌<◌, ◌≤◌, map, take, length};
ghost use Rattle.std.specs.List.{All};
ghost use Rattle.plant_model.specs.Seen.{plant_of};

use arrayvec::ArrayVec;
use model_file::Bank0;
use plant_model::AnyPlant;

/// How many lines a live model has of each kind at a sample: predictions, one for each output, and hulls, one for each state.
#[derive(Drop)]
pub struct LineCounts {
    /// At most 6, the same of all models.
    pub outputs: usize,
    /// From 1 to 8, by model.
    pub states: ArrayVec<usize, 16>,
    ghost few_outputs: { outputs ≤ 6 },
    ghost few_states: { All (λ n. n ≤ 8) states.items },
    ghost some_state: { All (λ n. 1 ≤ n) states.items },
}

impl LineCounts {
    ghost use Rattle.model_bank.specs.Bank.{plants_in};
    ghost use Rattle.cert_replay.specs.Offers.{AreCountsOf};

    /// How many models there are.
    pub fn models(&self) -> usize
        ensures value { result ≡ length self.now.states.items }
        ensures few { result ≤ 16 }
    {
        self.states.len()
    }

    /// The counts of the models of a file.
    pub fn of(models: &Bank0) -> LineCounts
        ensures { AreCountsOf result (plants_in models.now) }
    {
        let mut states = ArrayVec::new();
        for i in 0..models.count() {
            states.push(states_of(models.plant(i)));
        }
        LineCounts {
            outputs: models.outputs().len(),
            states,
        }
    }
}

/// The number of states of a plant.
fn states_of(plant: &AnyPlant) -> usize
    ensures value { result ≡ (plant_of plant.now).states }
    ensures some { 1 ≤ result }
    ensures few { result ≤ 8 }
{
    match plant {
        AnyPlant::N1(p) => p.states(),
        AnyPlant::N2(p) => p.states(),
        AnyPlant::N3(p) => p.states(),
        AnyPlant::N4(p) => p.states(),
        AnyPlant::N5(p) => p.states(),
        AnyPlant::N6(p) => p.states(),
        AnyPlant::N7(p) => p.states(),
        AnyPlant::N8(p) => p.states(),
    }
}
