//! Checkpoints in a store: which one is current, how the next one is made, and what a crash may leave.
#![tactic(auto)]

mod committing;
mod done;
mod error;
mod gates;
mod laws;
mod loading;
mod migrating;
mod names;
mod opening;
mod saved;
mod saving;

pub use committing::commit;
pub use done::{close_done, is_done, open_done};
pub use error::SaveError;
pub use gates::{close_gate, is_open};
pub use laws::{images_law, sound_law, sound_steps_law};
pub use loading::{load_bytes, load_line, load_node, load_tile};
pub use migrating::migrate;
pub use opening::open;
pub use saved::Saved;
pub use saving::{begin, save_tile};
