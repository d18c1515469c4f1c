//! The lists that a node is made in.

use crate::outgoing::Outgoing;
use crate::pool::Cell;
use std::alloc::Global;

/// The lists that a node is made in from its points. It allocates only if their room is not enough.
#[derive(Debug, Drop)]
pub struct Lists {
    pub(crate) heads: Vec<u32>,
    pub(crate) cells: Vec<Cell>,
    pub(crate) losers: Outgoing,
}

impl Lists {
    /// Lists without room. They take no memory.
    pub fn new(alloc: Global) -> Lists {
        Lists {
            heads: Vec::new(alloc),
            cells: Vec::new(alloc),
            losers: Outgoing::new(alloc),
        }
    }
}
