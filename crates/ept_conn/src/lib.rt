//! One connection of the server: the turns of the bytes that come in.
//!
//! A turn is what the head of a request (RFC 9112) asks for, and whether the connection ends after its response. How
//! the bytes are cut into pieces makes no difference.

#![tactic(auto)]

mod conn;
mod end;
mod folder;
mod hand;
mod head;
mod keeping;
mod laws;
mod out;
mod queries;
mod serve;
mod session;
mod turn;

pub use conn::{Conn, ConnError};
pub use end::{End, Fault, Want};
pub use hand::Hand;
pub use laws::{one_list_of_turns_law, session_law, turns_however_cut_law};
pub use serve::serve_link;
pub use session::Session;
pub use turn::Turn;
