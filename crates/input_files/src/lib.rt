//! The input files of a run and of a check, read through the slots of a shelf: the model file whole, the telemetry as a stream of rows.
#![tactic(auto)]

mod model;
mod rows;
mod stream;
mod whole;

pub use model::{ModelEnding, read_model};
pub use rows::{TELEMETRY_SLOT, find_header, next_row};
pub use stream::{Stream, StreamFault};

/// The longest telemetry, in bytes.
pub const MOST_TELEMETRY: u64 = 1_073_741_824;
