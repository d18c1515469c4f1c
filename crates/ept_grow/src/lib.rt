//! What a sampling keeps as points are added.
//!
//! Each point that is added stays in some node. Suppose that the number of points that stay does not change within a
//! node's key. Then no point was added there, and the same points stay.
#![tactic(auto)]

mod laws;

pub use laws::stay_law;
