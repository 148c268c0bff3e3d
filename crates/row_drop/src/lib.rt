//! How much of a row each state takes when the row is used up.
#![tactic(auto)]

mod gains;
mod products;
mod shrink;

pub use gains::{gain, gain_within};
