//! The connections of a crowd.

use ept_conn::End;
use ept_poll::PollConn;

/// A connection that has not ended, and its number.
#[derive(Drop)]
pub struct Live<L, T> {
    pub number: u32,
    pub conn: PollConn<L, T>,
}

/// A connection that has ended, with its number and its end.
#[derive(Drop)]
pub struct Finished<L, T> {
    pub number: u32,
    pub end: End,
    pub conn: PollConn<L, T>,
}
