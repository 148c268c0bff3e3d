//! Why a telemetry is refused.

use dec_text::DecFault;
use thiserror::Error;

/// The column of an input or of an output.
#[derive(Clone, Copy, Debug, PartialEq, Eq)]
pub struct Col {
    pub input: bool,
    pub index: u32,
}

/// Why a line of the telemetry is refused.
#[derive(Clone, Copy, Debug, PartialEq, Eq)]
pub enum TelemWhy {
    /// The file has no line that is not blank.
    NoHeader,
    /// No field of the header is the column's name.
    NoColumn(Col),
    /// Two fields of the header or more are the column's name.
    TwiceColumn(Col),
    /// The row has another number of fields than the header.
    Ragged { want: usize, got: usize },
    /// The field is no reading, or is past the column's range.
    Field { col: Col, why: DecFault },
    /// The input has no value in this row.
    NoInput { index: u32 },
    /// The line has more than 4,096 bytes before its line feed.
    LongLine,
    /// A carriage return stands inside the line.
    StrayCr,
    /// The file goes on past its limit in this line.
    TooLong,
    /// Memory ran out.
    Memory,
}

/// The first line that is refused, counted from 1, and its cause.
#[derive(Clone, Copy, Debug, PartialEq, Eq, Error)]
#[error("the telemetry is refused")]
pub struct TelemFault {
    pub line: u64,
    pub why: TelemWhy,
}
