//! A worker between two of its steps.

use ept_work::{Landing, Visit, WorkError, Worker};

/// What a worker is at.
pub enum Doing<F> {
    /// Nothing.
    Rest,
    /// It holds the node of one of its flights.
    Up(Visit<F>),
    /// That flight has arrived there.
    Down(Landing<F>),
    /// It has ended, and carries no flight.
    Ended(Option<WorkError>),
}

/// A worker and what it is at.
pub struct Hand<F, S> {
    pub worker: Worker<F, S>,
    pub doing: Doing<F>,
}

/// A worker that has ended, and why it was refused, if it was.
pub struct Past<F, S> {
    pub worker: Worker<F, S>,
    pub refused: Option<WorkError>,
}

/// Two workers of one table.
pub struct Pair<F, S> {
    pub first: Hand<F, S>,
    pub second: Hand<F, S>,
}
