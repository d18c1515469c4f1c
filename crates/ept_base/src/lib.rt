//! The outside world as traits: sources and their shelf, sinks, links, stores, spill files and their room, and the gate
//! of a node.
//!
//! Each object counts its faults, and a call is refused as `Failed` only if that count rose in the call. The contents
//! of objects in memory are visible to a proof, and those of real ones are not. Clauses on contents hold if they are
//! visible.
#![tactic(auto)]

mod errors;
mod gate;
mod kept;
mod link;
mod loops;
mod sink;
mod source;
mod spill;
mod store;

pub use errors::{Failed, GetError, PutError};
pub use gate::{Gate, OpenGate};
pub use kept::put_kept;
pub use link::Link;
pub use loops::{read_full, write_full};
pub use sink::Sink;
pub use source::{Shelf, Source};
pub use spill::{Room, SpillFile};
pub use store::Store;
