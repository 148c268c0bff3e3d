//! Certificates of exclusion: which multipliers refute kept rows, and which are found.
#![tactic(auto)]

mod candidates;
mod certificate;
mod factors;
mod gain;
mod pair;
mod refutation;
mod side;

pub use candidates::first_candidate;
pub use certificate::{Cert, Multipliers};
pub use refutation::passes;
