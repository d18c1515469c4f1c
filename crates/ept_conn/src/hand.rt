//! What a session has in hand.

use crate::turn::Turn;
use ept_query::QueryPlan;

/// The turn whose response has not wholly been put into the output yet.
#[derive(Debug, Drop)]
pub enum Hand {
    /// No turn is in hand.
    Empty,
    /// A turn that was decided. What it asks for has not been fetched yet.
    Decided(Turn),
    /// A query or a selection whose head was output. `done` tiles of its plan are done, and there are more.
    Tiles {
        turn: Turn,
        plan: QueryPlan,
        done: usize,
    },
}
