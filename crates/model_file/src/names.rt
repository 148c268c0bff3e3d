//! Names of columns and of models.

ghost use Rattle.std.specs.Prelude.{◌≡◌, ◌≤◌, ◌++◌, length, map, IfOk};
ghost use Rattle.std.specs.List.{list_all};
ghost use Rattle.toml.specs.View.{view};
ghost use Rattle.plant_model.specs.Counts.{most_inputs, most_outputs, most_names, most_name_bytes};
ghost use Rattle.model_file.specs.Reads.{map_ok};
ghost use Rattle.model_file.specs.Names.{has_no_outer_spaces, is_column_byte, is_printable, is_column_name, is_model_name};
ghost use Rattle.model_file.specs.Names.{new_name, columns_from, inputs_of, outputs_of};

use crate::reads::{an_array, at_most, not_empty, value_at};
use crate::{Count, Field, ModelFault, Path};
use plant_model::Names;
use toml::Value;

/// Whether a text is a name of a column.
pub fn is_column_name(text: &[u8]) -> bool
    ensures { result ≡ is_column_name text.now }
{
    !text.is_empty() && text.len() <= 64 && (has_column_bytes(text) && has_no_outer_spaces(text))
}

/// Whether a text is a name of a model.
pub fn is_model_name(text: &[u8]) -> bool
    ensures { result ≡ is_model_name text.now }
{
    !text.is_empty() && text.len() <= 32 && (has_printable_bytes(text) && has_no_outer_spaces(text))
}

fn has_column_bytes(text: &[u8]) -> bool
    ensures { result ≡ list_all is_column_byte text.now }
{
    text.iter().all(|b| *b >= 32 && *b != 127)
}

fn has_printable_bytes(text: &[u8]) -> bool
    ensures { result ≡ list_all is_printable text.now }
{
    text.iter().all(|b| *b >= 32 && *b <= 126)
}

fn has_no_outer_spaces(text: &[u8]) -> bool
    ensures { result ≡ has_no_outer_spaces text.now }
{
    text.first() != Some(&b' ') && text.last() != Some(&b' ')
}

/// The name of a column, which is none of the earlier ones.
fn new_column<'a>(
    earlier: &Names,
    names: &Names,
    value: &'a Value,
    path: Path,
) -> Result<&'a str, ModelFault>
    ensures value { map_ok (λ text. text.now) result
        ≡ new_name is_column_name (earlier.now ++ names.now) path (view value.now) }
    ensures short { IfOk result (λ text. length text.now ≤ most_name_bytes) }
{
    let text = value.as_str().ok_or(ModelFault::Kind { path })?;
    if is_column_name(text.as_bytes()) && !earlier.contains(text) && !names.contains(text) {
        Ok(text)
    } else {
        Err(ModelFault::Name { path })
    }
}

/// The names of an array, which differ from each other and from the earlier ones.
fn columns(earlier: &Names, array: &[Value], path: Path) -> Result<Names, ModelFault>
    requires { length array.now ≤ most_names }
    ensures value { result ≡ columns_from path 0 earlier.now (map view array.now) }
    ensures size { IfOk result (λ names. length names ≡ length array.now) }
{
    let mut names = Names::new();
    for (i, value) in array.iter().enumerate() {
        let name = new_column(earlier, &names, value, path.item(i))?;
        names.push(name);
    }
    Ok(names)
}

/// The names of the inputs; their array may be absent.
#[tactic(auto, unfolding(crate::specs::Names::inputs_of))]
pub fn inputs(root: &Value) -> Result<Names, ModelFault>
    ensures value { result ≡ inputs_of (view root.now) }
    ensures few { IfOk result (λ names. length names ≤ most_inputs) }
{
    match root.get(Field::Inputs.key()) {
        None => Ok(Names::new()),
        Some(value) => {
            let path = Path::of_file(Field::Inputs);
            let array = at_most(4, Count::Inputs, an_array(value, path)?)?;
            columns(&Names::new(), array, path)
        }
    }
}

/// The names of the outputs, which differ from those of the inputs.
#[tactic(auto, unfolding(crate::specs::Names::outputs_of))]
pub fn outputs(inputs: &Names, root: &Value) -> Result<Names, ModelFault>
    ensures value { result ≡ outputs_of inputs.now (view root.now) }
    ensures some { IfOk result (λ names. 1 ≤ length names) }
    ensures few { IfOk result (λ names. length names ≤ most_outputs) }
{
    let path = Path::of_file(Field::Outputs);
    let array = an_array(value_at(root, path)?, path)?;
    let array = not_empty(at_most(6, Count::Outputs, array)?, path)?;
    columns(inputs, array, path)
}
