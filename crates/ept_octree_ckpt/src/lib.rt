//! One phase of a build: the octree that a checkpoint describes, and an octree as the next checkpoint.
#![tactic(auto)]

mod error;
mod laws;
mod loading;
mod phase;
mod saving;
mod still;

pub use error::PhaseError;
pub use laws::{lines_law, saved_law};
pub use loading::load_octree;
pub use phase::save_octree;
pub use saving::save_node;
