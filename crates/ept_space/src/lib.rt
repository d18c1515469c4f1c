//! The space of an octree of points: the cube, its keys, boxes, octants and cells.
//!
//! Places are whole numbers of stored units. A cube has a corner and a side of 2^e units. At depth D the cube is
//! divided into half-open cubes of side 2^(e-D). Each is the box of a key `D-X-Y-Z` (Entwine Point Tile 1.1.0, "Keys").
//! A box is divided into 2^s cells an axis. No call takes memory.

#![tactic(auto)]

mod bounds;
mod box3;
mod cube;
mod groups;
mod key;
mod laws;
mod places;
mod text;

pub use bounds::Bounds;
pub use box3::{Box3, contains, meets, node_box};
pub use cube::{Cube, Rules};
pub use groups::{group, has_groups};
pub use key::{Key, child};
pub use laws::{
    bounds_law, box_law, cell_law, family_law, group_law, order_law, place_law, text_law,
    within_law,
};
pub use places::{cell, centre_distance, octant};
pub use text::{key_text, read_key};
