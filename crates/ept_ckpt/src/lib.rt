//! The body of a checkpoint: how far a build has come, as bytes.
#![tactic(auto)]

mod append;
mod bits;
mod boxes;
mod checkpoint;
mod ckpt_error;
mod cursor;
mod draft;
mod draft_fields;
mod field_error;
mod fields;
mod laws;
mod letter;
mod limits;
mod lookup;
mod node_line;
mod nodes;
mod precedence;
mod reader;
mod setting_fields;
mod settings;
mod sources;
mod texts;
mod version;
mod whole_octree;
mod writer;

pub use checkpoint::Checkpoint;
pub use ckpt_error::CkptError;
pub use laws::body_once_law;
pub use letter::Letter;
pub use node_line::NodeLine;
pub use reader::read_ckpt;
pub use version::BodyVersion;
pub use writer::write_ckpt;
