//! What can be computed from the contents of files and of nodes. This is the points that are left of files, whether
//! points can be sampled, and whether nodes are a sampling.
//!
//! A proof may therefore choose by each of these.
#![tactic(auto)]

mod laws;

pub use laws::{rest_law, sampled_law};
