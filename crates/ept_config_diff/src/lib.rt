//! Batches: whether a configuration continues what an earlier build kept, with the kept inputs as the first of those
//! given.
#![tactic(auto)]

mod differing;
mod equal;

pub use differing::{Difference, first_difference};
