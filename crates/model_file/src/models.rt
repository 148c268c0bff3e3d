//! The models of a file, one after another.

ghost use Rattle.std.specs.Prelude.{◌≡◌, ◌≤◌, ◌⊎◌, [], length, map, IfOk, IfErr, bytes_eq};
ghost use Rattle.std.specs.List.{list_any};
ghost use Rattle.toml.specs.View.{view};
ghost use Rattle.plant_model.specs.Counts.{most_inputs, most_outputs};
ghost use Rattle.model_file.specs.Limits.{most_models, most_model_name_bytes};
ghost use Rattle.model_file.specs.Reads.{map_ok};
ghost use Rattle.model_file.specs.Names.{name_of};
ghost use Rattle.model_file.specs.Models.{model_of, models_from};
ghost use Rattle.model_file.specs.Seen.{named, name_seen};

use crate::bank::NamedPlant;
use crate::names::is_model_name;
use crate::plants::Counts;
use crate::reads::value_at;
use crate::{Count, Field, ModelFault, Path};
use arrayvec::ArrayString;
use std::alloc::Global;
use toml::Value;

/// Whether one of the models has this name.
#[tactic(auto, using(plant_model::proofs::ListTests::list_any_map))]
fn is_taken(name: &str, earlier: &[NamedPlant]) -> bool
    ensures { result ≡ list_any (bytes_eq name.now) (map name_seen earlier.now) }
{
    is_among(name, earlier)
}

fn is_among(name: &str, models: &[NamedPlant]) -> bool
    ensures { result ≡ list_any (λ m. bytes_eq name.now m.name.bytes) models.now }
{
    models.iter().any(|m| name == m.name.as_str())
}

/// The name of a model, which no earlier one has.
#[tactic(auto, unfolding(crate::specs::Names::name_of))]
fn model_name<'a>(
    earlier: &[NamedPlant],
    model: u32,
    table: &'a Value,
) -> Result<&'a str, ModelFault>
    ensures value { map_ok (λ text. text.now) result
        ≡ name_of (map name_seen earlier.now) model (view table.now) }
    ensures short { IfOk result (λ text. length text.now ≤ most_model_name_bytes) }
{
    let path = Path::of_model(model, Field::Name);
    let text = value_at(table, path)?
        .as_str()
        .ok_or(ModelFault::Kind { path })?;
    if is_model_name(text.as_bytes()) && !is_taken(text, earlier) {
        Ok(text)
    } else {
        Err(ModelFault::Name { path })
    }
}

/// A model for so many inputs and outputs, after the earlier ones.
#[tactic(auto, unfolding(crate::specs::Models::model_of))]
fn model(
    inputs: usize,
    outputs: usize,
    earlier: &[NamedPlant],
    model: u32,
    table: &Value,
) -> Result<NamedPlant, ModelFault>
    requires few_inputs { inputs ≤ most_inputs }
    requires some_output { 1 ≤ outputs }
    requires few_outputs { outputs ≤ most_outputs }
    ensures { map_ok named result ≡ model_of inputs outputs (map name_seen earlier.now) model (view table.now) }
{
    let text = model_name(earlier, model, table)?;
    let states = Counts::count(table, model, Field::States, Count::States, 1)?;
    let disturbances = Counts::count(table, model, Field::Disturbances, Count::Disturbances, 0)?;
    let counts = Counts {
        inputs,
        outputs,
        disturbances,
    };
    let plant = counts.any_plant(states, table, model)?;
    let mut name = ArrayString::new();
    name.push_str(text);
    Ok(NamedPlant { name, plant })
}

/// The models of the tables, for so many inputs and outputs.
pub fn models(
    alloc: Global,
    inputs: usize,
    outputs: usize,
    tables: &[Value],
) -> Result<Vec<NamedPlant>, ModelFault>
    requires few_inputs { inputs ≤ most_inputs }
    requires some_output { 1 ≤ outputs }
    requires few_outputs { outputs ≤ most_outputs }
    requires few_models { length tables.now ≤ most_models }
    ensures ok { IfOk result (λ v. models_from inputs outputs [] 0 (map view tables.now) ≡ Ok (map named v.items)) }
    ensures err { IfErr result (λ e. (e ≡ ModelFault.Memory) ⊎ (models_from inputs outputs [] 0 (map view tables.now) ≡ Err e)) }
{
    let mut models = Vec::with_capacity(alloc, tables.len()).map_err(|_| ModelFault::Memory)?;
    for (i, table) in tables.iter().enumerate() {
        let next = model(inputs, outputs, &models, i as u32, table)?;
        models.push(next).map_err(|_| ModelFault::Memory)?;
    }
    Ok(models)
}
