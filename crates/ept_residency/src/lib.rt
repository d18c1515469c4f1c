//! Where the points of nodes are: in memory, or in their files. The law of the core does not depend on it, and each
//! change of it is a step of the core.
#![tactic(auto)]

mod laws;

pub use laws::{place_law, show_law};
