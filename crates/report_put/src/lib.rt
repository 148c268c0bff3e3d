//! Puts the lines of a report to a sink: of its head, of a sample, of a sample up to a model that is refused, and the last one.
#![tactic(auto)]

mod lines;

pub use lines::{put_end, put_head, put_refused, put_sample};
