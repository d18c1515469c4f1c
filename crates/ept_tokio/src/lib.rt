//! Polled links over `tokio`: the bytes of a stream, with limits on how long its peer may take.
#![tactic(auto)]

mod limit;
mod link;

pub use link::TokioLink;
