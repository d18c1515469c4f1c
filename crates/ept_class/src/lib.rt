//! Sets of the classes of points (LAS 1.4 R15, "classification").
#![tactic(auto)]

mod class_set;
mod laws;

pub use class_set::{ClassSet, SET_LENGTH};
pub use laws::class_set_law;
