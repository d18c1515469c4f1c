//! Trials: an octree of generated scans, built in memory, and what it comes to.
#![tactic(auto)]

mod building;
mod laws;
mod scans;
mod settings;
mod tallying;
mod trial;

pub use building::build_trial;
pub use laws::trial_once_law;
pub use trial::Trial;
