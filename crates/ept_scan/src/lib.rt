//! Scans: LAS files that are read one after the other, first whole and then in batches.
#![tactic(auto)]

mod draw;
mod extent;
mod first_reading;
mod inputs;
mod las_file;
mod laws;
mod open;
mod part;
mod queue;
mod read_error;
mod reading;
mod record;
mod scan_done;
mod scan_error;
mod second_reading;
mod window;

pub use first_reading::{scan, whole_extent};
pub use laws::{
    ascending_law, changed_law, file_once_law, file_or_refusal_law, joined_law, kept_law,
    numbered_law, one_cause_law, one_refusal_law, origin_law, placed_law, refused_behind_law,
    scan_once_law, scan_or_refusal_law,
};
pub use open::reader;
pub use read_error::ReadError;
pub use scan_done::ScanDone;
pub use scan_error::ScanError;
pub use second_reading::Reader;
