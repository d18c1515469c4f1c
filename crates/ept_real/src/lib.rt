//! The outside world over the real machine. The shelf opens files by their paths, each as a source. A store and a room
//! for spill files each lie in a folder. A sink is over a writer, and a link over a stream. [`SeenFiles`] is the
//! machine as one that reports how far a run is.
//!
//! The contents of these devices are not visible: clauses on contents say nothing of them. Each device keeps its
//! counts, of faults, of bytes given and of gets, in 64 bits. A count that reaches its greatest value stays there.
#![tactic(auto)]

mod link;
mod path_disk;
mod path_files;
mod path_set;
mod paths;
mod progress;
mod read_store;
mod reading;
mod real_disk;
mod real_files;
mod room;
mod seen_files;
mod shelf;
mod sink;
mod source;
mod store;
mod streams;
mod threaded_disk;
mod unsynced;

pub use link::RealLink;
pub use path_disk::PathDisk;
pub use path_files::PathFiles;
pub use progress::{Ending, Run, Telling};
pub use read_store::ReadStore;
pub use real_disk::RealDisk;
pub use real_files::RealFiles;
pub use room::{RealRoom, RealSpill, remove_spills};
pub use seen_files::{SeenFile, SeenFiles};
pub use shelf::RealShelf;
pub use sink::RealSink;
pub use source::RealSource;
pub use store::RealStore;
pub use streams::HeldStreams;
pub use threaded_disk::ThreadedDisk;
