//! A check: the model file and the telemetry are read as in a run, and the report is compared line by line with what it has to say.
#![tactic(auto)]

mod checking;
mod compare;
mod counts;
mod fault;
mod made;
mod offers;
mod replay;
mod window;

pub use checking::check;
pub use fault::{Accepted, CheckFault};
