//! LAS 1.2 to 1.4: the public header block and point data records (LAS 1.4 R15).
#![tactic(auto)]

mod format;
mod header;
mod las_error;
mod laws;
mod place;
mod point_record;
mod pulse;
mod shift;
mod words;

pub use format::{is_format, record_length};
pub use header::{HEAD_LENGTH, Header, SCALE_WIDTH, read_header};
pub use las_error::LasError;
pub use laws::{header_once_law, identity_shift_law, place_law, record_once_law};
pub use place::{OutOfUnits, Place, read_place};
pub use point_record::read_record;
pub use shift::Shift;
