//! The model file: the names of inputs and outputs, and a bank of named plants, or the first refusal in the written order with its place.
#![tactic(auto)]

mod bank;
mod fault;
mod models;
mod names;
mod numbers;
mod place;
mod plants;
mod reader;
mod reads;

pub use bank::{Bank0, NamedPlant};
pub use fault::ModelFault;
pub use place::{Count, Field, Path};
pub use reader::{MOST_BYTES, read_models};
