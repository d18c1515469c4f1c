//! What a visit did, and what a step reports of it.

use crate::note::Carried;
use ept_point::List;

/// What a seat did with an item that it returns.
#[derive(Debug, Drop)]
pub enum Done {
    /// Nothing. The reader may have failed.
    Nothing,
    /// Points were drawn, which fly to the root.
    Draw { fresh: List<Carried> },
    /// The seat's flight of this number has arrived at the node, and the fresh flights leave it.
    Arrive { number: u32, fresh: List<Carried> },
}

/// What a step reports.
#[derive(Debug, Drop)]
pub enum Said {
    /// What a visit did.
    Did(Done),
    /// The octant for which a slot is drawn next.
    Wish(u8),
}
