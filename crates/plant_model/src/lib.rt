//! Plants and their telemetry: what a model is, what a sample is, and which trajectories obey both.
#![tactic(auto)]

mod any;
mod names;
mod parts;
mod plant;
mod sample;

pub use any::AnyPlant;
pub use names::Names;
pub use parts::{PlantFault, PlantParts};
pub use plant::Plant;
pub use sample::Sample;
