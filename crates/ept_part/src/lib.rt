//! A part of a build: the points of some octants of the root's box, sampled and put into a folder of their own.
#![tactic(auto)]

mod error;
mod filling;
mod laws;
mod lines;
mod making;
mod names;
mod part_done;
mod sampling;

pub use error::PartError;
pub use laws::part_law;
pub use names::{has_octant, part_body, part_gate, part_tile};
pub use part_done::{PartDone, part};
pub use sampling::is_of_part;
