//! The fields of one line.

ghost use Rattle.std.specs.Prelude.{◌≡◌, ◌<◌, [], length, count_by, IfOk, IfErr, IfSome, option_map, slice_index_or};
ghost use Rattle.std.specs.List.{list_any, slice_split, before_first, after_first, position};
ghost use Rattle.csv.specs.Records.{fields_of};
ghost use Rattle.telem_csv.specs.Fields.{seen, is_quote, is_comma};
ghost use Rattle.telem_csv.specs.Lines.{fields_in, IsLineText};

use crate::fault::TelemWhy;
use crate::marks::strip_bom;
use csv::{ByteRecord, ReaderBuilder};
use std::alloc::Global;

/// The fields of a line that is not blank.
#[derive(Drop)]
pub(crate) enum Fields<'a> {
    /// A text without quotes, whose fields stand between its commas.
    Plain(&'a [u8]),
    /// A record of `csv`.
    Quoted(ByteRecord),
}

impl Fields<'_> {
    /// The fields of a line's text, or `None` where it is blank.
    pub(crate) fn read(alloc: Global, text: &[u8]) -> Result<Option<Fields<'_>>, TelemWhy>
        requires { IsLineText text.now }
        ensures value { IfOk result (λ o. option_map seen o ≡ fields_in text.now) }
        ensures memory { IfErr result (λ e. e ≡ TelemWhy.Memory) }
    {
        let unmarked = strip_bom(text);
        if has_quote(unmarked) {
            return quoted(alloc, text);
        }
        if unmarked.is_empty() {
            Ok(None)
        } else {
            Ok(Some(Fields::Plain(unmarked)))
        }
    }

    pub(crate) fn count(&self) -> usize
        ensures { result ≡ length (seen self.now) }
    {
        match self {
            Fields::Plain(text) => commas(text) + 1,
            Fields::Quoted(row) => row.len(),
        }
    }

    /// The field at a place.
    pub(crate) fn at(&self, place: usize) -> &[u8]
        requires { place < length (seen self.now) }
        ensures { result.now ≡ slice_index_or (seen self.now) place [] }
    {
        match self {
            Fields::Plain(text) => plain_field(text, place),
            Fields::Quoted(row) => quoted_field(row, place),
        }
    }
}

fn commas(text: &[u8]) -> usize
    ensures { result ≡ count_by is_comma text.now }
{
    text.iter().filter(|c| **c == b',').count()
}

/// The field behind so many commas.
fn plain_field(text: &[u8], place: usize) -> &[u8]
    requires { place < length (slice_split is_comma text.now) }
    ensures { result.now ≡ slice_index_or (slice_split is_comma text.now) place [] }
{
    let mut rest = text;
    for i in 0..place {
        rest = behind_comma(rest);
    }
    before_comma(rest)
}

fn before_comma(text: &[u8]) -> &[u8]
    ensures { result.now ≡ before_first is_comma text.now }
{
    match comma_in(text) {
        Some(at) => &text[..at],
        None => text,
    }
}

fn behind_comma(text: &[u8]) -> &[u8]
    ensures { result.now ≡ after_first is_comma text.now }
{
    match comma_in(text) {
        Some(at) => &text[at + 1..],
        None => &[],
    }
}

/// The place of the first comma.
fn comma_in(text: &[u8]) -> Option<usize>
    ensures place { result ≡ position is_comma text.now }
    ensures within { IfSome result (λ at. at < length text.now) }
{
    text.iter().position(|c| *c == b',')
}

pub(crate) fn quoted_field(row: &ByteRecord, place: usize) -> &[u8]
    requires { place < length (fields_of row.now) }
    ensures { result.now ≡ slice_index_or (fields_of row.now) place [] }
{
    row.get(place).unwrap()
}

fn has_quote(text: &[u8]) -> bool
    ensures { result ≡ list_any is_quote text.now }
{
    text.iter().any(|c| *c == b'"')
}

/// The first record that `csv` gives for a line's text; an error of `csv` is want of memory.
fn quoted<'a>(alloc: Global, text: &[u8]) -> Result<Option<Fields<'a>>, TelemWhy>
    ensures value { IfOk result (λ o. option_map seen o ≡ fields_in text.now) }
    ensures memory { IfErr result (λ e. e ≡ TelemWhy.Memory) }
{
    match first_record(alloc, text) {
        Ok(Some(record)) => Ok(Some(Fields::Quoted(record))),
        Ok(None) => Ok(None),
        Err(_) => Err(TelemWhy::Memory),
    }
}

pub(crate) fn first_record(alloc: Global, text: &[u8]) -> Result<Option<ByteRecord>, csv::Error>
    ensures { IfOk result (λ o. option_map fields_of o ≡ fields_in text.now) }
{
    let mut reader = ReaderBuilder::new()
        .has_headers(false)
        .from_reader(alloc, text);
    let mut record = ByteRecord::new(alloc);
    if reader.read_byte_record(&mut record)? {
        Ok(Some(record))
    } else {
        Ok(None)
    }
}
