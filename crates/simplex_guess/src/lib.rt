//! An untrusted search for multipliers that refute kept rows. It works in fixed point, every step of which is kept in
//! range, and takes no memory. Nothing is told of what it finds: a caller tests it with `farkas_check::passes`.
#![tactic(auto)]

mod column;
mod fixed;
mod inside;
mod own;
mod part;
mod proposal;
mod rounding;
mod scale;
mod search;
mod strip;
mod triangle;
mod vector;

pub use proposal::{Pivots, propose};
