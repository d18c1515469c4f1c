//! Inserting the next records of scans into an octree, by several workers.
#![tactic(auto)]

mod error;
mod inserting;

pub use error::InsertError;
pub use inserting::{Refused, insert};
