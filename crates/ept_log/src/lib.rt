//! One line per request: links that watch the bytes that pass, and report each request and its response on standard
//! error.
#![tactic(auto)]

mod heads;
mod log;
mod watched;

pub use log::Log;
pub use watched::WatchedLink;
