//! The verdict on a unit, from which of its models are still possible.
#![tactic(auto)]

mod verdict;

pub use verdict::{Verdict, judge};
