//! What a model file gives.

ghost use Rattle.std.specs.Prelude.{◌≡◌, ◌<◌, ◌≤◌, length, slice_index_or};
ghost use Rattle.plant_model.specs.Counts.{most_inputs, most_outputs};
ghost use Rattle.plant_model.specs.Seen.{plant_of};
ghost use Rattle.model_file.specs.Limits.{most_models, most_model_name_bytes};

use arrayvec::ArrayString;
use plant_model::{AnyPlant, Names};
use std::marker::Model;

/// A plant with its name of 1 to 32 bytes.
#[derive(Drop)]
pub struct NamedPlant {
    pub name: ArrayString<32>,
    pub plant: AnyPlant,
}

/// The names of the inputs, at most 4, and of the outputs, 1 to 6, and 1 to 16 named plants that have these counts.
#[derive(Drop)]
pub struct Bank0 {
    inputs: Names,
    outputs: Names,
    models: Vec<NamedPlant>,
}

impl Model for Bank0 {
    ghost use Rattle.std.specs.Prelude.{map};
    ghost use Rattle.model_file.specs.Bank.{Models, IsModels};

    ghost Value = { Models };

    ghost use Rattle.model_file.specs.Seen.{named};

    ghost view = { λ b. record { inputs = b.inputs; outputs = b.outputs; models = map named b.models.items } };

    ghost invariant = { λ b. IsModels (record { inputs = b.inputs; outputs = b.outputs; models = map named b.models.items }) };
}

impl Bank0 {
    ghost use Rattle.std.specs.Prelude.{map};
    ghost use Rattle.model_file.specs.Bank.{Named, IsModels, no_model};
    ghost use Rattle.model_file.specs.Seen.{named};

    /// A bank of these names and plants.
    pub(crate) fn new(inputs: Names, outputs: Names, models: Vec<NamedPlant>) -> Bank0
        requires { IsModels (record { inputs = inputs; outputs = outputs; models = map named models.items }) }
        ensures { result ≡ record { inputs = inputs; outputs = outputs; models = map named models.items } }
    {
        Bank0 {
            inputs,
            outputs,
            models,
        }
    }

    /// The names of the inputs.
    pub fn inputs(&self) -> &Names
        ensures value { result.now ≡ self.now.inputs }
        ensures few { length result.now ≤ most_inputs }
    {
        &self.inputs
    }

    /// The names of the outputs.
    pub fn outputs(&self) -> &Names
        ensures value { result.now ≡ self.now.outputs }
        ensures some { 1 ≤ length result.now }
        ensures few { length result.now ≤ most_outputs }
    {
        &self.outputs
    }

    /// How many models there are, from 1 to 16; what the bank keeps.
    pub fn count(&self) -> usize
        ensures value { result ≡ length self.now.models }
        ensures some { 1 ≤ result }
        ensures few { result ≤ most_models }
        ensures limits { IsModels self.now }
    {
        self.models.len()
    }

    /// The name of model `i`, at most 32 bytes.
    pub fn name(&self, i: usize) -> &str
        requires { i < length self.now.models }
        ensures value { result.now ≡ (slice_index_or self.now.models i no_model).name }
        ensures short { length result.now ≤ most_model_name_bytes }
    {
        let model = &self.models[i];
        model.name.as_str()
    }

    /// The plant of model `i`.
    pub fn plant(&self, i: usize) -> &AnyPlant
        requires { i < length self.now.models }
        ensures { plant_of result.now ≡ (slice_index_or self.now.models i no_model).plant }
    {
        let model = &self.models[i];
        &model.plant
    }

    /// The named plants, by index.
    pub fn into_models(self) -> Vec<NamedPlant>
        ensures models { map named result.items ≡ self.models }
        ensures limits { IsModels self }
    {
        self.models
    }
}
