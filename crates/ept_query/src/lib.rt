//! Queries over a finished dataset: exactly the points of a box, in the nodes of some depths.
#![tactic(auto)]

mod asking;
mod form;
mod hierarchy;
mod laws;
mod listing;
mod notes;
mod plan;
mod planning;
mod query_error;
mod reading;
mod search;
mod start;
mod tile;
mod trimming;
mod walk;
mod writing;

pub use asking::{query, select};
pub use form::is_within;
pub use laws::{complete_law, nodes_law};
pub use listing::{AllNodes, EVERYWHERE, all_nodes};
pub use plan::QueryPlan;
pub use planning::query_plan;
pub use query_error::{QueryError, QueryFile};
pub use tile::{query_tile, tile_points};
