//! The nodes of a table in the order of its slots, as they lie before threads share them and after.
#![tactic(auto)]

mod forest;
mod full;

pub use forest::Forest;
pub use full::Full;
