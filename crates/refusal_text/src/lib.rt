//! The lines that say why an input is refused.
#![tactic(auto)]

mod model;
mod pieces;
mod report;
mod telemetry;

pub use model::model_refusal;
pub use report::report_refusal;
pub use telemetry::telemetry_refusal;
