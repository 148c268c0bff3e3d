//! Values of the document by their keys and kinds.

ghost use Rattle.std.specs.Prelude.{◌≡◌, ◌≤◌, length, map, IfOk};
ghost use Rattle.toml.specs.View.{view};
ghost use Rattle.model_file.specs.Reads.{map_ok};
ghost use Rattle.model_file.specs.Reads.{value_at, an_array, array_of, at_most, not_empty};

use crate::{Count, ModelFault, Path};
use toml::Value;

/// The value at the key of a place.
pub fn value_at(table: &Value, path: Path) -> Result<&Value, ModelFault>
    ensures { map_ok (λ v. view v.now) result ≡ value_at path (view table.now) }
{
    table
        .get(path.field.key())
        .ok_or(ModelFault::Missing { path })
}

/// A value that has to be an array.
#[tactic(auto, using(crate::proofs::Arrays::list_of_items))]
pub fn an_array(value: &Value, path: Path) -> Result<&[Value], ModelFault>
    ensures { map_ok (λ v. map view v.now) result ≡ an_array path (view value.now) }
{
    match value.as_array() {
        Some(array) => Ok(array.as_slice()),
        None => Err(ModelFault::Kind { path }),
    }
}

/// An array of exactly so many.
pub fn array_of(want: usize, value: &Value, path: Path) -> Result<&[Value], ModelFault>
    ensures value { map_ok (λ v. map view v.now) result ≡ array_of want path (view value.now) }
    ensures size { IfOk result (λ v. length v.now ≡ want) }
{
    let array = an_array(value, path)?;
    if array.len() == want {
        Ok(array)
    } else {
        Err(ModelFault::Shape {
            path,
            want,
            got: array.len(),
        })
    }
}

/// At most so many items.
pub fn at_most(most: usize, what: Count, array: &[Value]) -> Result<&[Value], ModelFault>
    ensures value { map_ok (λ v. map view v.now) result ≡ at_most most what (map view array.now) }
    ensures few { IfOk result (λ v. length v.now ≤ most) }
{
    if array.len() <= most {
        Ok(array)
    } else {
        Err(ModelFault::TooMany {
            what,
            got: array.len() as u64,
            at: None,
        })
    }
}

/// At least one item.
pub fn not_empty(array: &[Value], path: Path) -> Result<&[Value], ModelFault>
    ensures value { map_ok (λ v. map view v.now) result ≡ not_empty path (map view array.now) }
    ensures some { IfOk result (λ v. 1 ≤ length v.now) }
    ensures same { IfOk result (λ v. length v.now ≡ length array.now) }
{
    if array.is_empty() {
        Err(ModelFault::Shape {
            path,
            want: 1,
            got: 0,
        })
    } else {
        Ok(array)
    }
}
