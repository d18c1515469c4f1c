//! Connections that are polled: a link whose calls do not wait, and a future that serves a connection over it.
#![tactic(auto)]

mod conn;
mod laws;
mod link;
mod mem;

pub use conn::PollConn;
pub use laws::polls_law;
pub use link::PollLink;
pub use mem::MemPollLink;
