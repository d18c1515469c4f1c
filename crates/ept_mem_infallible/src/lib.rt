//! Sources, spill files and a store in memory that never fail.
//!
//! The contents of each object are visible, and its count of faults is always 0. So a call over them can be refused
//! only because memory ran out.
#![tactic(auto)]

mod room;
mod shelf;
mod store;

pub use room::{SureFile, SureRoom};
pub use shelf::{SureShelf, SureSource};
pub use store::SureStore;
