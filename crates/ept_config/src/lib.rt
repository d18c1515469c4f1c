//! The configuration of a build: what it is, and the ranges that it keeps.
#![tactic(auto)]

mod bounds_range;
mod config;
mod copies;
mod input;
mod kept;
mod laws;
mod limits;
mod source_count;
mod srs;
mod texts;

pub use bounds_range::bounds_known;
pub use config::Config;
pub use input::Input;
pub use kept::Kept;
pub use laws::facts_law;
pub use limits::{
    EXPECT_WIDTH, MAX_CACHE, MAX_CHECKPOINT, MAX_DEPTH, MAX_INPUTS, MAX_NODES, MAX_OFFSET,
    MAX_PATH, MAX_SCALE, MAX_SHIFT, MAX_SRS_TEXT, MAX_STEP, MAX_THREADS, MAX_THRESHOLD,
};
pub use source_count::{MAX_POINTS, SourceCount, total_of};
pub use srs::Srs;
pub use texts::{is_path, is_srs_text};
