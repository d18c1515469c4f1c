//! Parts of a build, merged: their tiles become those of one checkpoint, one node at a time.
#![tactic(auto)]

mod bodies;
mod dividing;
mod error;
mod joining;
mod merging;
mod planning;
mod putting;
mod root;
mod tiles;

pub use dividing::are_all_parts;
pub use error::MergeError;
pub use merging::merge;
