//! A tile: packed points, one after another.

ghost use Rattle.std.specs.Prelude.{◌≡◌, ◌≢◌, ◌%◌, ◌++◌, ◌+◌, List, Result, OnOk, OnErr, IfOk, IfErr, IfSome, IsNone, Ok, Err, Option, length};
ghost use Rattle.ept_point.specs.declared.point.Point.{Point};
ghost use Rattle.ept_point.specs.declared.tile.TileError.{TileError};
ghost use Rattle.ept_point.specs.declared.layout.Layout.TheVariants.{Old, New};
ghost use Rattle.ept_point.specs.Packed.{tile};
ghost use Rattle.ept_point.specs.Layout.{width_of, FitsIn, HasFieldAboveIn, IsPackedIn};
ghost use Rattle.ept_point.specs.Order.{id, IsBefore};
ghost use Rattle.ept_point.specs.Tile.{ReadsIn, AppendsReading, IsPointFault};

use crate::id::PointId;
use crate::layout::Layout;
use crate::memory::Memory;
use crate::packed::{OLD_LENGTH, PACKED_LENGTH, pack, unpack, unpack_old};
use crate::point::Point;
use std::alloc::{AllocError, AllocFailed};

/// Why bytes are no tile: the first cause in the order of the variants at the first faulty point.
#[derive(Clone, Copy, Debug, PartialEq, Eq)]
pub enum TileError {
    /// The length is not a multiple of a point's.
    Length,
    /// The point of this number in the tile, from 0, has a field above its greatest value.
    Field { at: u64 },
    /// The id of the point of this number in the tile, from 0, is not greater than the one before.
    Order { at: u64 },
    /// Memory ran out.
    Memory,
}

impl From<AllocError> for TileError {
    ghost use Rattle.ept_point.specs.declared.tile.TileError.TheVariants.{Memory};

    ghost from_gives = { λ _ e. e ≡ Memory };

    fn from(_error: AllocError) -> TileError {
        TileError::Memory
    }
}

impl<T: Drop> From<AllocFailed<T>> for TileError {
    ghost use Rattle.ept_point.specs.declared.tile.TileError.TheVariants.{Memory};

    ghost from_gives = { λ _ e. e ≡ Memory };

    fn from(_error: AllocFailed<T>) -> TileError {
        TileError::Memory
    }
}

/// Appends the packed points.
pub fn tile_bytes(points: &[Point], out: &mut Vec<u8>) -> Result<(), Memory>
    ensures ok { OnOk result (out.new.items ≡ out.old.items ++ tile points.now) }
    ensures unchanged { OnErr result (out.new.items ≡ out.old.items) }
{
    let kept = out.len();
    for point in points {
        if out.extend_from_slice(&pack(point)).is_err() {
            out.truncate(kept);
            return Err(Memory);
        }
    }
    Ok(())
}

impl Layout {
    /// How many bytes a point takes.
    fn width(self) -> usize
        ensures { result ≡ width_of self }
    {
        match self {
            Layout::Old => OLD_LENGTH,
            Layout::New => PACKED_LENGTH,
        }
    }

    /// The point whose packed form these bytes are.
    fn unpack(self, bytes: &[u8]) -> Option<Point>
        requires { length bytes.now ≡ width_of self }
        ensures point { IfSome result (IsPackedIn self bytes.now) }
        ensures above { IsNone result → HasFieldAboveIn self bytes.now }
    {
        match self {
            Layout::Old => unpack_old(bytes.as_array().unwrap()),
            Layout::New => unpack(bytes.as_array().unwrap()),
        }
    }
}

// The point in the packed form at the place `at` of a tile, after the point whose id is `last`.
fn next_point(
    layout: Layout,
    bytes: &[u8],
    last: Option<PointId>,
    at: u64,
) -> Result<Point, TileError>
    requires { length bytes.now ≡ width_of layout }
    ensures point { IfOk result (IsPackedIn layout bytes.now) }
    ensures after { IfOk result (λ p. IfSome last (λ a. IsBefore a (id p))) }
    ensures fault { IfErr result (IsPointFault layout bytes.now last at) }
{
    let point = match layout.unpack(bytes) {
        Some(point) => point,
        None => return Err(TileError::Field { at }),
    };
    if let Some(last) = last {
        if !last.is_before(point.id()) {
            return Err(TileError::Order { at });
        }
    }
    Ok(point)
}

// Reads whole points up to the first fault. After an error it leaves what it has read. Room for all of them is made
// once, before the first.
fn read_points(layout: Layout, bytes: &[u8], out: &mut Vec<Point>) -> Result<(), TileError>
    requires { length bytes.now % width_of layout ≡ 0 }
    ensures ok { OnOk result ((points : List Point) × ReadsIn layout bytes.now (Ok points) × (out.new.items ≡ out.old.items ++ points)) }
    ensures fault { IfErr result (λ e. e ≢ TileError.Memory → ReadsIn layout bytes.now (Err e)) }
    ensures kept { (points : List Point) × (out.new.items ≡ out.old.items ++ points) }
{
    let width = layout.width();
    out.reserve(bytes.len() / width)?;
    let mut rest = bytes;
    let mut last = None;
    let mut at = 0;
    while rest.len() >= width {
        let (packed, after) = rest.split_at(width);
        let point = next_point(layout, packed, last, at)?;
        rest = after;
        last = Some(point.id());
        out.push_reserved(point);
        at += 1;
    }
    Ok(())
}

/// Appends the points of a tile in a layout: packed points, one after another, whose ids strictly
/// ascend.
///
/// # Errors
///
/// The reading of the bytes, if they are no tile, and `Memory` if memory runs out. `out` is then as it was.
pub fn read_tile_in(layout: Layout, bytes: &[u8], out: &mut Vec<Point>) -> Result<(), TileError>
    ensures ok { OnOk result ((points : List Point) × ReadsIn layout bytes.now (Ok points) × (out.new.items ≡ out.old.items ++ points)) }
    ensures fault { IfErr result (λ e. e ≢ TileError.Memory → ReadsIn layout bytes.now (Err e)) }
    ensures unchanged { OnErr result (out.new.items ≡ out.old.items) }

    // Bytes read in one way, so this determines the result, unless memory runs out.
    ensures exact { (reading : Result (List Point) TileError) → ReadsIn layout bytes.now reading
        → AppendsReading result out.old.items out.new.items reading }
{
    if bytes.len() % layout.width() != 0 {
        return Err(TileError::Length);
    }
    let kept = out.len();
    let outcome = read_points(layout, bytes, out);
    if outcome.is_err() {
        out.truncate(kept);
    }
    outcome
}

/// Appends the points of a tile, as [`read_tile_in`] does of the new layout.
///
/// # Errors
///
/// As for [`read_tile_in`].
pub fn read_tile(bytes: &[u8], out: &mut Vec<Point>) -> Result<(), TileError>
    ensures ok { OnOk result ((points : List Point) × ReadsIn New bytes.now (Ok points) × (out.new.items ≡ out.old.items ++ points)) }
    ensures fault { IfErr result (λ e. e ≢ TileError.Memory → ReadsIn New bytes.now (Err e)) }
    ensures unchanged { OnErr result (out.new.items ≡ out.old.items) }
    ensures exact { (reading : Result (List Point) TileError) → ReadsIn New bytes.now reading
        → AppendsReading result out.old.items out.new.items reading }
{
    read_tile_in(Layout::New, bytes, out)
}

/// Appends the points of a tile that was written in the old layout, as [`read_tile_in`] does.
///
/// # Errors
///
/// As for [`read_tile_in`].
pub fn read_old_tile(bytes: &[u8], out: &mut Vec<Point>) -> Result<(), TileError>
    ensures ok { OnOk result ((points : List Point) × ReadsIn Old bytes.now (Ok points) × (out.new.items ≡ out.old.items ++ points)) }
    ensures fault { IfErr result (λ e. e ≢ TileError.Memory → ReadsIn Old bytes.now (Err e)) }
    ensures unchanged { OnErr result (out.new.items ≡ out.old.items) }
    ensures exact { (reading : Result (List Point) TileError) → ReadsIn Old bytes.now reading
        → AppendsReading result out.old.items out.new.items reading }
{
    read_tile_in(Layout::Old, bytes, out)
}
