//! What the calls of a crowd return.

use ept_poll::PollConn;

/// Why a connection was not added. Each error has the connection.
#[derive(Drop)]
pub enum AddError<L, T> {
    /// 256 connections have not ended.
    Full(PollConn<L, T>),
    /// 4,294,967,295 connections were added, so there is no number left.
    Spent(PollConn<L, T>),
    /// Memory ran out.
    Memory(PollConn<L, T>),
}

/// The outcome of a turn.
#[derive(Clone, Copy, Debug, PartialEq, Eq)]
pub enum Turned {
    /// No live connection has the number.
    Gone,
    /// The connection was polled, and has not ended.
    Pending,
    /// The connection was polled, and has ended.
    Ended,
}
