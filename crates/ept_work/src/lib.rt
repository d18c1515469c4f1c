//! Workers that insert points into the tree of a table of nodes: each has a seat of the table, and carries flights.
#![tactic(auto)]

mod ahead;
mod error;
mod evicting;
mod inserting;
mod opening;
mod sending;
mod taking;
mod victims;
mod visit;
mod worker;
mod working;

pub use error::WorkError;
pub use inserting::insert_all;
pub use visit::{Landing, Visit};
pub use worker::Worker;
