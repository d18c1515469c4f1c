//! What is written to standard error if a run fails: why, in words, each file by its path.
#![tactic(auto)]

mod differences;
mod keys;
mod messages;
mod sentences;

pub use differences::{Differing, write_difference};
pub use messages::{Found, message};
pub use sentences::OUT_OF_MEMORY;
