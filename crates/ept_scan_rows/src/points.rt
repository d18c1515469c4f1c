//! Points as words.

use crate::bytes::bytes_of;
use crate::row::Row;
use crate::stop::Stop;
use ept_point::{Point, TileError, read_tile};

/// The points of a tile of these bytes.
pub(crate) fn points_of(row: Row<'_>, words: &str) -> Result<Vec<Point>, Stop> {
    let bytes = bytes_of(row, words)?;
    let mut points = Vec::new(row.alloc);
    match read_tile(&bytes, &mut points) {
        Ok(()) => Ok(points),
        Err(TileError::Memory) => Err(Stop::Memory),
        Err(_) => Err(Stop::BadLine),
    }
}
