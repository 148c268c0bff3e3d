//! A run: the model file and the telemetry are read through their slots, and the report is put line by line as the rows come.
#![tactic(auto)]

mod done;
mod reporting;

pub use done::{Done, RunFault};
pub use reporting::monitor;
