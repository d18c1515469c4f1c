//! An octree into which points are inserted one by one, from the root down. In the end its nodes are the sampling of
//! the points.
#![tactic(auto)]

mod arrival;
mod laws;
mod octree;
mod tree_error;

pub use laws::sampled_law;
pub use octree::Tree;
pub use tree_error::TreeError;
