//! Lists of builds: whatever the list of builds, stops and batches, the build that succeeds leaves the files of one
//! build of all.
#![tactic(auto)]

mod laws;

pub use laws::{headline_law, step_law};
