//! The files of the output, put into a store: the tile of each node, the hierarchy, the metadata, the manifest and the
//! build file. The nodes are those of the current checkpoint, whose tiles are copied.
#![tactic(auto)]

mod error;
mod hierarchy;
mod laws;
mod publishing;
mod texts;
mod tiles;

pub use error::PublishError;
pub use laws::published_law;
pub use publishing::publish;
