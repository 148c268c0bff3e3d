//! The header of a telemetry file.

ghost use Rattle.std.specs.Prelude.{◌≡◌, ◌<◌, ◌≤◌, ℕ, List, length, All, IfOk, IfSome, option_map};
ghost use Rattle.csv.specs.Records.{fields_of};
ghost use Rattle.telem_csv.specs.Answers.{IsAnswer, IsAnswerUnlessMemory};
ghost use Rattle.telem_csv.specs.Columns.{AreFor, columns_of, places_of, places_from, only_place};
ghost use Rattle.telem_csv.specs.Lines.{IsLineText};
ghost use Rattle.telem_csv.specs.Telemetry.{header_of};

use crate::fault::{Col, TelemWhy};
use crate::fields::{first_record, quoted_field};
use arrayvec::ArrayVec;
use csv::ByteRecord;
use dec_text::without_gaps;
use plant_model::Names;
use std::alloc::Global;
use std::marker::Model;

/// How many fields a row has, and which of them are the inputs and the outputs.
#[derive(Debug, Drop)]
pub struct Header {
    width: usize,
    inputs: ArrayVec<usize, 6>,
    outputs: ArrayVec<usize, 6>,
}

impl Model for Header {
    ghost use Rattle.telem_csv.specs.Columns.{Columns, IsColumns};

    ghost Value = { Columns };

    ghost view = { λ s. record { width = s.width; inputs = s.inputs.items; outputs = s.outputs.items } };

    ghost invariant = { λ s. IsColumns (record { width = s.width; inputs = s.inputs.items; outputs = s.outputs.items }) };
}

/// The place of the one field that is this name.
fn place_of(row: &ByteRecord, name: &[u8], col: Col) -> Result<usize, TelemWhy>
    ensures value { result ≡ only_place col (places_from 0 name.now (fields_of row.now)) }
    ensures within { IfOk result (λ place. place < length (fields_of row.now)) }
{
    let mut found = None;
    for i in 0..row.len() {
        if without_gaps(quoted_field(row, i)) == name {
            if found.is_some() {
                return Err(TelemWhy::TwiceColumn(col));
            }
            found = Some(i);
        }
    }
    found.ok_or(TelemWhy::NoColumn(col))
}

/// The place of each name, in order.
fn places_of(row: &ByteRecord, names: &Names, input: bool) -> Result<ArrayVec<usize, 6>, TelemWhy>
    ensures value { IsAnswer (λ places. places.items) (places_of input (fields_of row.now) names.now) result }
    ensures within { IfOk result (λ places. All (λ place. place < length (fields_of row.now)) places.items) }
    ensures count { IfOk result (λ places. length places.items ≡ length names.now) }
{
    let mut places = ArrayVec::new();
    for i in 0..names.len() {
        let col = Col {
            input,
            index: i as u32,
        };
        places.push(place_of(row, names.at(i).as_bytes(), col)?);
    }
    Ok(places)
}

impl Header {
    /// Reads the header from a line of at most 4,096 bytes without line feed or carriage return, or answers `None` where it is blank.
    ///
    /// The error is `NoColumn` or `TwiceColumn` of the first name, inputs before outputs, that stands in no field or in several;
    /// or `Memory`.
    pub fn read(
        alloc: Global,
        line: &[u8],
        inputs: &Names,
        outputs: &Names,
    ) -> Result<Option<Header>, TelemWhy>
        requires line { IsLineText line.now }
        requires few { length inputs.now ≤ 4 }
        ensures value { IsAnswerUnlessMemory (λ head. head) (header_of inputs.now outputs.now line.now) result }
        ensures counts { IfOk result (λ o. IfSome o (AreFor inputs.now outputs.now)) }
    {
        match first_record(alloc, line) {
            Ok(Some(row)) => Ok(Some(Header::of(&row, inputs, outputs)?)),
            Ok(None) => Ok(None),
            Err(_) => Err(TelemWhy::Memory),
        }
    }

    fn of(row: &ByteRecord, inputs: &Names, outputs: &Names) -> Result<Header, TelemWhy>
        requires { length inputs.now ≤ 4 }
        ensures value { IsAnswer (λ head. head) (columns_of inputs.now outputs.now (fields_of row.now)) result }
        ensures counts { IfOk result (AreFor inputs.now outputs.now) }
    {
        let inputs = places_of(row, inputs, true)?;
        let outputs = places_of(row, outputs, false)?;
        Ok(Header {
            width: row.len(),
            inputs,
            outputs,
        })
    }

    /// How many fields a row has.
    pub(crate) fn width(&self) -> usize
        ensures { result ≡ self.now.width }
    {
        self.width
    }

    /// The place of each input.
    pub(crate) fn inputs(&self) -> &[usize]
        ensures value { result.now ≡ self.now.inputs }
        ensures within { All (λ place. place < self.now.width) result.now }
        ensures few { length result.now ≤ 4 }
    {
        &self.inputs
    }

    /// The place of each output.
    pub(crate) fn outputs(&self) -> &[usize]
        ensures value { result.now ≡ self.now.outputs }
        ensures within { All (λ place. place < self.now.width) result.now }
        ensures few { length result.now ≤ 6 }
    {
        &self.outputs
    }
}
