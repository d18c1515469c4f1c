//! The builder: from scans on a shelf to the files of an octree of tiles in a store.
//!
//! The inputs are read twice. The first reading finds the number of their points and where these lie. The second reads
//! them in batches, whose points workers insert into an octree. Each time a configured number of records has been
//! inserted, the octree becomes the current checkpoint, from which a later build resumes. Once all points are in it,
//! the files of the output are put.
#![tactic(auto)]

mod building;
mod crew;
mod error;
mod finishing;
mod growing;
mod progress;
mod starting;
mod summary;

pub use building::build;
pub use error::BuildError;
pub use summary::Summary;
