//! Many polled connections on one thread: a crowd that polls each of them in turn, and keeps those that have ended.
#![tactic(auto)]

mod answers;
mod crowd;
mod laws;
mod member;

pub use answers::{AddError, Turned};
pub use crowd::Crowd;
pub use laws::crowd_law;
pub use member::{Finished, Live};
