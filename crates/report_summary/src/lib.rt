//! What the report of a demonstration says, in four lines.
#![tactic(auto)]

mod summary;
mod text;

pub use summary::Summary;
