//! The telemetry: a stream of bytes cut into lines, the header, and the rows with a reading in each column.
#![tactic(auto)]

mod cutter;
mod fault;
mod fed;
mod fields;
mod header;
mod marks;
mod row;

pub use cutter::LineCutter;
pub use fault::{Col, TelemFault, TelemWhy};
pub use fed::Fed;
pub use header::Header;
pub use row::read_row;
