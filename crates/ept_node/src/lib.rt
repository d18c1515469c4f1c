//! A node of the octree as it lies in a slot of a table, with its spill file and the slots of its children. Unless it
//! is blank it has points, in memory or in its file. It is small if it has none in memory.
#![tactic(auto)]

mod batch;
mod body;
mod error;
mod filing;
mod node;
mod site;
mod spilling;
mod state;

pub use error::NodeError;
pub use node::Node;
pub use state::NodeState;
