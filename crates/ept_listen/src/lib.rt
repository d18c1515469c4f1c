//! The words of the server's command line, and the connections that a listener accepts. Each connection has a thread of
//! its own, or all are on one thread.
#![tactic(auto)]

mod accepting;
mod logging;
mod serving;
mod single;
mod timed;
mod words;

pub use serving::serve_connections;
pub use single::serve_single;
pub use words::{Serve, server_words};
