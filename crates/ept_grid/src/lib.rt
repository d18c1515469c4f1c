//! One node of the octree. It takes points one by one, keeps those that stay, and passes on those that leave, by
//! octant.
#![tactic(auto)]

mod by_id;
mod error;
mod grid;
mod lists;
mod lookup;
mod losing;
mod making;
mod octants;
mod outgoing;
mod pool;
mod reserving;
mod seeking;
mod settling;
mod spot;
mod steps;
mod taking;
mod tile;
mod walk;

pub use error::GridError;
pub use grid::Grid;
pub use lists::Lists;
pub use octants::OCTANTS;
pub use outgoing::Outgoing;
pub use steps::Steps;
pub use tile::first_outside;
