//! What a seat knows of the table. It is for proofs: no value of these types is made.

use ept_core::Flight;
use ept_node::NodeError;
use ept_point::{List, Point};
use ept_scan::ReadError;
use ept_space::{Bounds, Key, Rules};

/// An input, as the first reading has found it: its place in the list of inputs, the number of its points, and where
/// they lie.
pub struct Counted {
    pub origin: u32,
    pub points: u64,
    pub limits: Option<Bounds>,
}

/// The ghost input of a table, which each seat knows.
pub struct Told {
    /// The rules of the sampling.
    pub rules: Rules,
    /// All points, if the contents of files and sources are visible.
    pub points: List<Point>,
    /// How many nodes there may be.
    pub most: u32,
    /// How many nodes may be in memory at a time.
    pub cache: u32,
    /// The keys of the nodes that are there when the table is made, in the order of their slots: the key of slot 1
    /// first.
    pub begun: List<Key>,
    /// How many points are drawn at the end of the reader's allowance.
    pub end: u64,
    /// How many points the inputs have.
    pub total: u64,
    /// The inputs that the reader has.
    pub inputs: List<Counted>,
    /// The contents of files and sources are visible.
    pub tells: bool,
}

/// A flight, and the slot of the node that it goes to: 0 if there is none.
#[derive(Debug, Drop)]
pub struct Carried {
    pub slot: u32,
    pub flight: Flight,
}

/// A slot that was drawn for the child of an octant.
pub struct Draw {
    pub slot: u32,
    pub octant: u8,
}

/// What a seat notes.
pub struct Note {
    pub told: Told,
    /// The flights that it carries.
    pub flights: List<Carried>,
    /// The flights that it, or a seat that it joined, abandoned.
    pub gone: List<Flight>,
    /// The slots drawn in this visit.
    pub draws: List<Draw>,
    /// The octant for which a slot is drawn next.
    pub wish: u8,
    /// It abandoned a flight without a slot.
    pub over: bool,
    /// How many points were drawn when it last returned the reader.
    pub given: u64,
    /// The refusals by which the reader that it returned has failed.
    pub failures: List<ReadError>,
    /// The refusals by which nodes that it returned are broken.
    pub broken: List<NodeError>,
}
