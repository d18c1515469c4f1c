//! Numbers and their texts: decimals of a fixed number of places, whole numbers with one spelling each,
//! and the generator of the test scans.
//!
//! Nothing here takes memory.
#![tactic(auto)]

mod decimals;
mod generator;
mod whole;

pub use decimals::decimal_text;
pub use generator::lcg;
pub use whole::read_whole;
