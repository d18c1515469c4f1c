//! The sampling by parts: points sampled octant by octant of the root's box, and the parts merged.
//!
//! Two points of a cell of the root lie in one octant of it. So each octant can be sampled without the
//! others, and only the root has points of several.
#![tactic(auto)]

mod laws;

pub use laws::{merge_law, parts_law};
