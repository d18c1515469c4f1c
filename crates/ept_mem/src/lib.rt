//! Sources, sinks, links, spill files and stores in memory, for tests and for runs that touch no disk.
//!
//! The contents of each object are visible, and each is given the numbers of the calls that are to fail. Its calls are
//! numbered from 0, except `retire`. A store keeps a record of its calls, from which the images that a crash may leave
//! follow.
#![tactic(auto)]

mod crash;
mod link;
mod named;
mod plan;
mod sink;
mod source;
mod spill;
mod store;

pub use crash::Crash;
pub use link::MemLink;
pub use sink::MemSink;
pub use source::{MemShelf, MemSource};
pub use spill::{MemRoom, MemSpill};
pub use store::MemStore;
