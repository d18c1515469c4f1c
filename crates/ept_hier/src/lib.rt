//! The hierarchy of a dataset in files (Entwine Point Tile 1.1.0, "ept-hierarchy"). They are JSON objects that state
//! how many points each node has.
//!
//! With a step above 0, a file has the counts of `step` depths. A node one depth below them has a file of its own, and
//! the number -1 in place of its count.
#![tactic(auto)]

mod file;
mod files;
mod hier_error;
mod laws;
mod open_text;
mod order;
mod reader;

pub use file::HierFile;
pub use files::hierarchy_files;
pub use hier_error::HierError;
pub use laws::{hierarchy_law, reading_law};
pub use order::keys_ascend;
pub use reader::read_hierarchy_file;
