//! Selections of packed points: which points pass by their class and their time, and which of their
//! dimensions are kept.
#![tactic(auto)]

mod classes;
mod dims;
mod laws;
mod layout;
mod reading;
mod rows;
mod sift;
mod sift_error;
mod sifting;
mod time;
mod words;

pub use dims::Dims;
pub use laws::{sift_law, sift_text_law};
pub use reading::read_sift;
pub use sift::Sift;
pub use sift_error::SiftError;
pub use sifting::sift_points;
