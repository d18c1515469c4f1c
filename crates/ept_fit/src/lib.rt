//! When the nodes of an octree are the sampling of their own points.
//!
//! Facts of the nodes alone make it so. Each is of one node, or of a node and those above or below it. So a
//! program can test them node by node, without a sampling of its own.
#![tactic(auto)]

mod laws;

pub use laws::{fit_law, walk_law};
