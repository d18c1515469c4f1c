//! How many nodes the sampling of a list of points has, at most.
//!
//! A node below the root was given more points than the threshold, and no point is given to two nodes of one
//! depth. So a depth has few nodes, and there are few depths.
#![tactic(auto)]

mod laws;

pub use laws::few_nodes_law;
