//! The octree between the phases of a build: nodes in the slots of a forest, and the slot of each key.
#![tactic(auto)]

mod adding;
mod error;
mod linking;
mod octree;
mod resting;
mod walking;

pub use error::AddError;
pub use octree::Octree;
pub use resting::rest_law;
