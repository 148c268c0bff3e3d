//! Zonotopes over whole nano-units: a centre, and columns whose symbols lie between -1
//! and 1. Every operation is its formula and loses no point.
//! Prediction and correction in turns: after Combastel 2003. Images and intersections
//! with strips: after Scott, Raimondo, Marseglia and Braatz 2016.
#![tactic(auto)]

mod products;
mod room;
mod zono;

pub use room::{Refusals, Rest};
pub use zono::{PastRange, StripRow, Used, Zono};
