//! The point of a scan, its packed form, and tiles of packed points.
#![tactic(auto)]

mod id;
mod laws;
mod layout;
mod list;
mod memory;
mod packed;
mod point;
mod text;
mod tile;

pub use id::PointId;
pub use laws::{
    id_order_law, layout_law, old_layout_law, packed_bounds_law, packed_length_law,
    packed_once_law, tile_length_law, tile_once_law,
};
pub use layout::Layout;
pub use list::List;
pub use memory::Memory;
pub use packed::{OLD_LENGTH, PACKED_LENGTH, pack, unpack, unpack_old};
pub use point::{
    GPS_WIDTH, MAX_CHANNEL, MAX_CLASS_FLAGS, MAX_FLAG, MAX_RETURNS, NUMBER_WIDTH, Point,
    PointNumber,
};
pub use text::Text;
pub use tile::{TileError, read_old_tile, read_tile, read_tile_in, tile_bytes};
