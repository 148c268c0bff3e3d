//! Numbers of a model, written into matrices.

ghost use Rattle.std.specs.Prelude.{◌≡◌, ◌*◌, ◌<◌, ◌≤◌};
ghost use Rattle.toml.specs.View.{view};
ghost use Rattle.model_file.specs.Reads.{map_ok};
ghost use Rattle.model_file.specs.Limits.{most_entries};
ghost use Rattle.model_file.specs.Numbers.{number_in, entry_written, row_written, number_written, is_from, is_radius};
ghost use Rattle.model_file.specs.Numbers.{matrix, matrix_unless_empty, vector};

use crate::reads::{array_of, value_at};
use crate::{ModelFault, Path};
use dec_text::read_exact;
use fixed_mat::{Limit, Mat, RANGE, Range, S};
use toml::Value;

/// A number in nano-units: an integer is units, a text is a decimal of units.
pub fn number(value: &Value, path: Path) -> Result<i128, ModelFault>
    ensures { result ≡ number_in path (view value.now) }
{
    if let Some(units) = value.as_integer() {
        return Ok(i128::from(units) * S);
    }
    match value.as_str() {
        Some(text) => read_exact(text.as_bytes()).map_err(|why| ModelFault::Decimal { path, why }),
        None => Err(ModelFault::Kind { path }),
    }
}

/// Reads an entry within the matrix's limit into its place.
fn write_entry<const R: usize, const C: usize, L: Limit>(
    matrix: &mut Mat<R, C, L>,
    r: usize,
    c: usize,
    value: &Value,
    path: Path,
) -> Result<(), ModelFault>
    requires row { r < R }
    requires column { c < C }
    ensures { map_ok (λ _. matrix.new) result
        ≡ entry_written C L.LIM path matrix.old r c (view value.now) }
{
    let z = number(value, path)?;
    matrix.set(r, c, z).map_err(|_| ModelFault::Over { path })
}

/// Reads a row of so many entries at a place into row `r`.
fn write_row<const R: usize, const C: usize, L: Limit>(
    matrix: &mut Mat<R, C, L>,
    r: usize,
    width: usize,
    value: &Value,
    path: Path,
) -> Result<(), ModelFault>
    requires row { r < R }
    requires narrow { width ≤ most_entries }
    requires fits { width ≤ C }
    ensures { map_ok (λ _. matrix.new) result
        ≡ row_written C L.LIM path matrix.old width r (view value.now) }
{
    let entries = array_of(width, value, path)?;
    for (c, entry) in entries.iter().enumerate() {
        write_entry(matrix, r, c, entry, path.entry(c))?;
    }
    Ok(())
}

/// So many rows of so many entries within the limit, in the corner of a matrix of zeros.
#[tactic(auto, unfolding(crate::specs::Numbers::matrix))]
pub fn matrix<const R: usize, const C: usize, L: Limit>(
    table: &Value,
    path: Path,
    height: usize,
    width: usize,
) -> Result<Mat<R, C, L>, ModelFault>
    requires room { R * C ≤ 64 }
    requires high { height ≤ R }
    requires short { height ≤ most_entries }
    requires wide { width ≤ C }
    requires narrow { width ≤ most_entries }
    ensures { result ≡ matrix R C L.LIM path height width (view table.now) }
{
    let rows = array_of(height, value_at(table, path)?, path)?;
    let mut matrix = Mat::zero();
    for (r, row) in rows.iter().enumerate() {
        write_row(&mut matrix, r, width, row, path.item(r))?;
    }
    Ok(matrix)
}

/// The same, where a matrix without columns is not read.
#[tactic(auto, unfolding(crate::specs::Numbers::matrix_unless_empty))]
pub fn matrix_unless_empty<const R: usize, const C: usize, L: Limit>(
    table: &Value,
    path: Path,
    height: usize,
    width: usize,
) -> Result<Mat<R, C, L>, ModelFault>
    requires room { R * C ≤ 64 }
    requires high { height ≤ R }
    requires short { height ≤ most_entries }
    requires wide { width ≤ C }
    requires narrow { width ≤ most_entries }
    ensures { result ≡ matrix_unless_empty R C L.LIM path height width (view table.now) }
{
    if width == 0 {
        Ok(Mat::zero())
    } else {
        matrix(table, path, height, width)
    }
}

/// Reads a number from the least one on into its place.
fn write_number<const R: usize>(
    vector: &mut Mat<R, 1, Range>,
    i: usize,
    least: i128,
    value: &Value,
    path: Path,
) -> Result<(), ModelFault>
    requires { i < R }
    ensures { map_ok (λ _. vector.new) result ≡ number_written (is_from least) path vector.old i (view value.now) }
{
    let z = number(value, path)?;
    if z < least {
        return Err(ModelFault::Over { path });
    }
    vector.set(i, 0, z).map_err(|_| ModelFault::Over { path })
}

/// So many numbers from the least one on, at the front of a column of zeros.
#[tactic(auto, unfolding(crate::specs::Numbers::vector))]
pub fn vector<const R: usize>(
    table: &Value,
    path: Path,
    want: usize,
    least: i128,
) -> Result<Mat<R, 1, Range>, ModelFault>
    requires room { R ≤ most_entries }
    requires fits { want ≤ R }
    ensures { result ≡ vector R (λ _. is_from least) path want (view table.now) }
{
    let numbers = array_of(want, value_at(table, path)?, path)?;
    let mut vector = Mat::zero();
    for (i, number) in numbers.iter().enumerate() {
        write_number(&mut vector, i, least, number, path.item(i))?;
    }
    Ok(vector)
}

/// Reads a radius that does not lead out of the range from the centre into its place.
fn write_radius<const R: usize>(
    radii: &mut Mat<R, 1, Range>,
    centre: &Mat<R, 1, Range>,
    i: usize,
    value: &Value,
    path: Path,
) -> Result<(), ModelFault>
    requires { i < R }
    ensures { map_ok (λ _. radii.new) result
        ≡ number_written (is_radius centre.now i) path radii.old i (view value.now) }
{
    let z = number(value, path)?;
    if z < 0 || z.unsigned_abs() > RANGE - u128::from(centre.at(i, 0).unsigned_abs()) {
        return Err(ModelFault::Over { path });
    }
    radii.set(i, 0, z).map_err(|_| ModelFault::Over { path })
}

/// A radius for each entry of the centre.
#[tactic(auto, unfolding(crate::specs::Numbers::vector))]
pub fn radii<const R: usize>(
    table: &Value,
    path: Path,
    centre: &Mat<R, 1, Range>,
) -> Result<Mat<R, 1, Range>, ModelFault>
    requires { R ≤ most_entries }
    ensures { result ≡ vector R (is_radius centre.now) path R (view table.now) }
{
    let numbers = array_of(R, value_at(table, path)?, path)?;
    let mut radii = Mat::zero();
    for (i, number) in numbers.iter().enumerate() {
        write_radius(&mut radii, centre, i, number, path.item(i))?;
    }
    Ok(radii)
}
