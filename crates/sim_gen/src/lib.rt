//! The demonstration: two models, a telemetry that the first of them can have made, and the trajectory behind it, all from a number.
#![tactic(auto)]

mod document;
mod generator;
mod made;
mod process;

pub use made::{Made, make};
