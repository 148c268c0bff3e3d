//! All models of a file over one telemetry: each followed by its own estimate, and a verdict for each sample.
#![tactic(auto)]

mod bank;
mod claim;
mod follower;
mod member;
mod record;

pub use bank::Bank;
pub use record::{BadOffer, ModelRec, Refused, SampleRec};
