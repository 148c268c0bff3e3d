//! The whole program, over a shelf and two sinks that are handed in.
#![tactic(auto)]

mod asked;
mod demo;
mod ending;
mod files;
mod running;
mod texts;
mod words;

pub use running::run;
