//! The rows of a telemetry file.

ghost use Rattle.std.specs.Prelude.{◌≡◌, ◌≤◌, ◌<◌, ◌^◌, ℕ, List, [], length, All, IfOk, IfSome, unsigned_abs, slice_index_or, option_map};
ghost use Rattle.plant_model.specs.Plant.{AllWithinLimit, IsReading};
ghost use Rattle.set_rules.specs.Limits.{input_limit};
ghost use Rattle.telem_csv.specs.Answers.{IsAnswer, IsAnswerUnlessMemory};
ghost use Rattle.telem_csv.specs.Fields.{seen};
ghost use Rattle.telem_csv.specs.Lines.{IsLineText};
ghost use Rattle.telem_csv.specs.Rows.{input_in, output_in, reading_in, input_value, row_sample, row_of};
ghost use Rattle.telem_csv.specs.Samples.{IsSampleFor};
ghost use Rattle.dec_text.specs.Steps.{each_from};
ghost use Rattle.plant_model.specs.Seen.{sample_of};

use crate::fault::{Col, TelemWhy};
use crate::fields::Fields;
use crate::header::Header;
use arrayvec::ArrayVec;
use dec_text::{DecFault, read_reading};
use fixed_mat::Reading;
use plant_model::Sample;
use std::alloc::Global;

/// The greatest magnitude of an input, in nano-units.
const MOST_INPUT: u128 = 1_000_000_000_000_000;

/// The reading in the field at a place, in nano-units.
fn reading_in(fields: &Fields<'_>, place: usize, col: Col) -> Result<Reading, TelemWhy>
    requires { place < length (seen fields.now) }
    ensures value { result ≡ reading_in col (seen fields.now) place }
    ensures range { IfOk result IsReading }
{
    match read_reading(fields.at(place)) {
        Ok(reading) => Ok(reading),
        Err(why) => Err(TelemWhy::Field { col, why }),
    }
}

/// The input in the field at a place, in nano-units.
fn input_in(fields: &Fields<'_>, place: usize, index: u32) -> Result<i128, TelemWhy>
    requires { place < length (seen fields.now) }
    ensures value { result ≡ input_in (seen fields.now) index place }
    ensures range { IfOk result (λ u. unsigned_abs u ≤ input_limit) }
{
    let col = Col { input: true, index };
    match reading_in(fields, place, col)? {
        Reading::Missing => Err(TelemWhy::NoInput { index }),
        Reading::Value { v, .. } if v.unsigned_abs() <= MOST_INPUT => Ok(v),
        Reading::Value { .. } => Err(TelemWhy::Field {
            col,
            why: DecFault::TooLarge,
        }),
    }
}

/// The inputs in the fields at these places, in order.
fn inputs_in(fields: &Fields<'_>, places: &[usize]) -> Result<ArrayVec<i128, 4>, TelemWhy>
    requires within { All (λ place. place < length (seen fields.now)) places.now }
    requires few { length places.now ≤ 4 }
    ensures value { IsAnswer (λ u. u.items) (each_from 0 (input_in (seen fields.now)) places.now) result }
    ensures range { IfOk result (λ u. AllWithinLimit input_limit u.items) }
    ensures count { IfOk result (λ u. length u.items ≡ length places.now) }
{
    let mut u = ArrayVec::new();
    for (i, place) in places.iter().enumerate() {
        u.push(input_in(fields, *place, i as u32)?);
    }
    Ok(u)
}

/// The readings in the fields at these places, in order.
fn outputs_in(fields: &Fields<'_>, places: &[usize]) -> Result<ArrayVec<Reading, 6>, TelemWhy>
    requires within { All (λ place. place < length (seen fields.now)) places.now }
    requires few { length places.now ≤ 6 }
    ensures value { IsAnswer (λ y. y.items) (each_from 0 (output_in (seen fields.now)) places.now) result }
    ensures range { IfOk result (λ y. All IsReading y.items) }
    ensures count { IfOk result (λ y. length y.items ≡ length places.now) }
{
    let mut y = ArrayVec::new();
    for (i, place) in places.iter().enumerate() {
        let col = Col {
            input: false,
            index: i as u32,
        };
        y.push(reading_in(fields, *place, col)?);
    }
    Ok(y)
}

/// The sample of a row with these fields.
fn sample_in(head: &Header, fields: &Fields<'_>) -> Result<Sample, TelemWhy>
    ensures value { IsAnswer sample_of (row_sample head.now (seen fields.now)) result }
    ensures counts { IfOk result (IsSampleFor head.now) }
{
    let got = fields.count();
    if got != head.width() {
        return Err(TelemWhy::Ragged {
            want: head.width(),
            got,
        });
    }
    let u = inputs_in(fields, head.inputs())?;
    let y = outputs_in(fields, head.outputs())?;
    Ok(Sample { u, y })
}

/// Reads a row from a line of at most 4,096 bytes without line feed or carriage return, or answers `None` where it is blank.
///
/// Its inputs are within a million units, in nano-units. The error is `Ragged`; else the first of `Field` and `NoInput` at an input,
/// and then `Field` at an output; or `Memory`.
pub fn read_row(alloc: Global, head: &Header, line: &[u8]) -> Result<Option<Sample>, TelemWhy>
    requires { IsLineText line.now }
    ensures value { IsAnswerUnlessMemory (option_map sample_of) (row_of head.now line.now) result }
    ensures counts { IfOk result (λ o. IfSome o (IsSampleFor head.now)) }
{
    match Fields::read(alloc, line)? {
        Some(fields) => Ok(Some(sample_in(head, &fields)?)),
        None => Ok(None),
    }
}
