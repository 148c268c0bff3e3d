//! Fewer columns for a set, after Girard 2005: the columns whose one-norm exceeds their
//! maximum-norm least are replaced by a box that holds them.
#![tactic(auto)]

mod cut;
mod keys;
mod ranks;
mod reduction;

pub use ranks::{Marks, kept, rank};
pub use reduction::{reduce, reduce_in_place, reduce_lifted};
