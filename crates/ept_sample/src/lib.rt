//! The sampling of a point cloud: which points each node of the octree keeps.
//!
//! A point given to a node loses if another given point lies in its cell and has a better rank. The losers of an octant
//! go down to the octant's child if they are more than the threshold. Otherwise they stay.
#![tactic(auto)]

mod arrivals;
mod ids;
mod laws;
mod place;
mod rank;
mod tiles;
mod top_down;

pub use arrivals::{
    OCTANTS, child_of, in_octant, is_too_many, leaves, loses, losing, opening, staying,
};
pub use ids::{ids_ascend, in_id_order};
pub use laws::{arrival_law, batch_law, beat_law, id_law, node_law, point_law};
pub use place::{are_in_cube, place_of};
pub use rank::{beats, is_better};
pub use tiles::{Tile, Tiles};
pub use top_down::sample;
