//! Constrained zonotopes over whole nano-units: a zonotope, and rows that are linear equations on its symbols.
//! Through every operation one choice of symbols gives the state and satisfies every row.
//! After Scott, Raimondo, Marseglia and Braatz 2016.
#![tactic(auto)]

mod czono;

pub use czono::Czono;
