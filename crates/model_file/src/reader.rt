//! Reads a whole model file.

ghost use Rattle.std.specs.Prelude.{◌≡◌, ◌≤◌, ◌⊎◌, length, map, IfOk, IfErr};
ghost use Rattle.toml.specs.View.{view};
ghost use Rattle.model_file.specs.Limits.{most_models};
ghost use Rattle.model_file.specs.Reads.{map_ok};
ghost use Rattle.model_file.specs.ModelFile.{version_of, are_tables, tables_of, models_in, document_of, models_of};

use crate::models::models;
use crate::names::{inputs, outputs};
use crate::reads::{an_array, at_most, not_empty, value_at};
use crate::{Bank0, Count, Field, ModelFault, Path};
use std::alloc::Global;
use toml::Value;

/// The greatest number of bytes of a model file.
pub const MOST_BYTES: usize = 1_048_576;

/// The names and plants of a model file, or its first refusal in the written order. Memory can run out at any time.
#[tactic(auto, unfolding(crate::specs::ModelFile::models_of))]
pub fn read_models(alloc: Global, bytes: &[u8]) -> Result<Bank0, ModelFault>
    ensures ok { IfOk result (λ bank. models_of bytes.now ≡ Ok bank) }
    ensures err { IfErr result (λ e. (e ≡ ModelFault.Memory) ⊎ (models_of bytes.now ≡ Err e)) }
{
    if bytes.len() > MOST_BYTES {
        return Err(ModelFault::TooMany {
            what: Count::Bytes,
            got: MOST_BYTES as u64 + 1,
            at: None,
        });
    }
    let root = document(alloc, bytes)?;
    bank(alloc, &root)
}

/// The document that the bytes are.
#[tactic(auto, unfolding(crate::specs::ModelFile::document_of))]
fn document(alloc: Global, bytes: &[u8]) -> Result<Value, ModelFault>
    ensures ok { IfOk result (λ root. document_of bytes.now ≡ Ok (view root)) }
    ensures err { IfErr result (λ e. (e ≡ ModelFault.Memory) ⊎ (document_of bytes.now ≡ Err e)) }
{
    match toml::table_from_slice(alloc, bytes) {
        Ok(table) => Ok(Value::Table(table)),
        Err(e) if e.is_memory() => Err(ModelFault::Memory),
        Err(_) => Err(ModelFault::NotToml),
    }
}

/// What a document says.
#[tactic(auto, unfolding(crate::specs::ModelFile::models_in))]
fn bank(alloc: Global, root: &Value) -> Result<Bank0, ModelFault>
    ensures ok { IfOk result (λ bank. models_in (view root.now) ≡ Ok bank) }
    ensures err { IfErr result (λ e. (e ≡ ModelFault.Memory) ⊎ (models_in (view root.now) ≡ Err e)) }
{
    check_version(root)?;
    let inputs = inputs(root)?;
    let outputs = outputs(&inputs, root)?;
    let tables = tables(root)?;
    let models = models(alloc, inputs.len(), outputs.len(), tables)?;
    Ok(Bank0::new(inputs, outputs, models))
}

/// Whether the version is 1.
#[tactic(auto, unfolding(crate::specs::ModelFile::version_of))]
fn check_version(root: &Value) -> Result<(), ModelFault>
    ensures { result ≡ version_of (view root.now) }
{
    let path = Path::of_file(Field::Version);
    if value_at(root, path)?.as_integer() == Some(1) {
        Ok(())
    } else {
        Err(ModelFault::Kind { path })
    }
}

/// The tables of the models, from 1 to 16.
#[tactic(auto, unfolding(crate::specs::ModelFile::tables_of))]
fn tables(root: &Value) -> Result<&[Value], ModelFault>
    ensures value { map_ok (λ v. map view v.now) result ≡ tables_of (view root.now) }
    ensures some { IfOk result (λ v. 1 ≤ length v.now) }
    ensures few { IfOk result (λ v. length v.now ≤ most_models) }
{
    let path = Path::of_file(Field::Models);
    let array = an_array(value_at(root, path)?, path)?;
    let array = not_empty(at_most(16, Count::Models, array)?, path)?;
    check_tables(array)?;
    Ok(array)
}

/// Whether each item is a table.
fn check_tables(array: &[Value]) -> Result<(), ModelFault>
    requires { length array.now ≤ most_models }
    ensures { map_ok (λ _. map view array.now) result ≡ are_tables 0 (map view array.now) }
{
    for (i, member) in array.iter().enumerate() {
        if !member.is_table() {
            return Err(ModelFault::Kind {
                path: Path::of_model(i as u32, Field::Models),
            });
        }
    }
    Ok(())
}
