//! The tiles of a plan.

ghost use Rattle.std.specs.Prelude.{◌≡◌, ◌+◌, ◌<◌, ◌≤◌, List, ◌++◌, length, true, IfOk, IfErr, OnErr};
ghost use Rattle.ept_base.specs.Causes.{HasCauseOf};
ghost use Rattle.ept_base.specs.Files.{SameFiles, Tells};
ghost use Rattle.ept_base.specs.Moves.{Moves};
ghost use Rattle.ept_point.specs.declared.point.Point.{Point};
ghost use Rattle.ept_point.specs.Order.{IsAscending};
ghost use Rattle.ept_point.specs.Packed.{tile};
ghost use Rattle.ept_query.specs.Causes.{of_tile};
ghost use Rattle.ept_query.specs.Damage.{HasNoTile, HasTile, IsTileOf, RefusesBytes, RefusesReading};
ghost use Rattle.ept_query.specs.Parts.{IsPartOf, node_at, points_in};
ghost use Rattle.ept_query.specs.Rows.{is_inside};

use crate::plan::QueryPlan;
use crate::query_error::{QueryError, QueryFile};
use crate::reading::read_file;
use ept_base::Store;
use ept_meta::tile_name;
use ept_point::{Memory, PACKED_LENGTH, Point, TileError, read_tile, tile_length_law};
use ept_sample::place_of;
use ept_space::{Box3, Key, contains};
use std::alloc::Global;

/// Makes `into` the packed points in the area of the tile of this number of the plan, in id order, and returns their
/// number. At most one file is read. After a refusal `into` is as it was.
///
/// # Errors
///
/// `Damaged` with the tile if it is missing, malformed, or has another number of points than the plan has from its
/// hierarchy file.
pub fn query_tile<T: Store>(
    alloc: Global,
    store: &mut T,
    plan: &QueryPlan,
    number: usize,
    into: &mut Vec<u8>,
) -> Result<u64, QueryError>
    requires { number < length plan.now.tiles }
    ensures part { IfOk result (λ count. IsPartOf plan.now.area (node_at plan.now number)
        into.new.items count (T.files store.old)) }
    ensures refused { IfErr result (RefusesReading (QueryFile.Tile (node_at plan.now number).0)
        (λ all. HasNoTile all (node_at plan.now number).0 (node_at plan.now number).1) (T.files store.old)) }
    ensures unchanged { OnErr result (into.new.items ≡ into.old.items) }
    ensures any_moment { Moves T.files T.may_leave T.moment T.image_since SameFiles store.old store.new }
    ensures gets { T.gets store.new ≤ T.gets store.old + 1 }
    ensures cause { HasCauseOf QueryError.StoreFault (T.faults store.old) (T.faults store.new) result }
{
    let (key, count) = plan.node(number);
    let (bytes, points) = read_points(alloc, store, &key, count)?;
    let (part, number) = part_in(alloc, &plan.area, bytes, &points)?;
    *into = part;
    Ok(number)
}

/// The points of the tile of a key, in id order; their number is `count`. At most one file is read.
///
/// # Errors
///
/// `Damaged` with the tile if it is missing, malformed, or has another number of points.
pub fn tile_points<T: Store>(
    alloc: Global,
    store: &mut T,
    key: &Key,
    count: u64,
) -> Result<Vec<Point>, QueryError>
    ensures found { IfOk result (λ points. Tells (λ all. HasTile all key.now count points.items) (T.files store.old)) }
    ensures points { IfOk result (λ points. IsAscending points.items × (length points.items ≡ count)) }
    ensures refused { IfErr result (RefusesReading (QueryFile.Tile key.now)
        (λ all. HasNoTile all key.now count) (T.files store.old)) }
    ensures any_moment { Moves T.files T.may_leave T.moment T.image_since SameFiles store.old store.new }
    ensures gets { T.gets store.new ≤ T.gets store.old + 1 }
    ensures cause { HasCauseOf QueryError.StoreFault (T.faults store.old) (T.faults store.new) result }
{
    match read_points(alloc, store, key, count) {
        Ok((_, points)) => Ok(points),
        Err(error) => Err(error),
    }
}

// The bytes of the tile of a key, and the points whose packed form they are.
fn read_points<T: Store>(
    alloc: Global,
    store: &mut T,
    key: &Key,
    count: u64,
) -> Result<(Vec<u8>, Vec<Point>), QueryError>
    ensures found { IfOk result (λ read. Tells (λ all. HasTile all key.now count read.1.items) (T.files store.old)) }
    ensures points { IfOk result (λ read. IsAscending read.1.items × (length read.1.items ≡ count)) }
    ensures bytes { IfOk result (λ read. read.0.items ≡ tile read.1.items) }
    ensures refused { IfErr result (RefusesReading (QueryFile.Tile key.now)
        (λ all. HasNoTile all key.now count) (T.files store.old)) }
    ensures any_moment { Moves T.files T.may_leave T.moment T.image_since SameFiles store.old store.new }
    ensures gets { T.gets store.new ≤ T.gets store.old + 1 }
    ensures cause { HasCauseOf QueryError.StoreFault (T.faults store.old) (T.faults store.new) result }
{
    let name = tile_name(alloc, key)?;
    let bytes = read_file(alloc, store, QueryFile::Tile(*key), name.as_str())?;
    let points = points_of(alloc, &bytes, count, QueryFile::Tile(*key))?;
    Ok((bytes, points))
}

// The points that bytes are read as, if their number is `count`.
fn points_of(
    alloc: Global,
    bytes: &[u8],
    count: u64,
    file: QueryFile,
) -> Result<Vec<Point>, QueryError>
    ensures points { IfOk result (λ points. IsTileOf bytes.now count points.items) }
    ensures refused { IfErr result (RefusesBytes file ((points : List Point) → ¬ IsTileOf bytes.now count points)) }
{
    let mut points = Vec::new(alloc);
    match read_tile(bytes, &mut points) {
        Ok(()) => {}
        Err(error) => return Err(told_of(error, file)),
    }
    if points.len() as u64 == count {
        Ok(points)
    } else {
        Err(QueryError::Damaged { file })
    }
}

// The refusal of a tile.
fn told_of(error: TileError, file: QueryFile) -> QueryError
    ensures { result ≡ of_tile file error }
{
    match error {
        TileError::Length | TileError::Field { .. } | TileError::Order { .. } => {
            QueryError::Damaged { file }
        }
        TileError::Memory => QueryError::Memory,
    }
}

// The packed points that lie in the area, and their number. They are the bytes themselves if all points lie there.
fn part_in(
    alloc: Global,
    area: &Box3,
    bytes: Vec<u8>,
    points: &[Point],
) -> Result<(Vec<u8>, u64), Memory>
    requires { bytes.items ≡ tile points.now }
    ensures bytes { IfOk result (λ part. part.0.items ≡ tile (points_in area.now points.now)) }
    ensures number { IfOk result (λ part. part.1 ≡ length (points_in area.now points.now)) }
{
    if are_inside(area, points) {
        return Ok((bytes, points.len() as u64));
    }
    let mut part = Vec::new(alloc);
    let number = append_inside(area, points, &bytes, &mut part)?;
    Ok((part, number))
}

// Whether all points lie in the area.
fn are_inside(area: &Box3, points: &[Point]) -> bool
    ensures { result ≡ true → points_in area.now points.now ≡ points.now }
{
    for point in points {
        if !is_inside(area, point) {
            return false;
        }
    }
    true
}

// Appends the packed points that lie in the area, run by run, and returns their number.
fn append_inside(
    area: &Box3,
    points: &[Point],
    bytes: &[u8],
    into: &mut Vec<u8>,
) -> Result<u64, Memory>
    requires { bytes.now ≡ tile points.now }
    ensures bytes { IfOk result (λ count. into.new.items ≡ into.old.items ++ tile (points_in area.now points.now)) }
    ensures number { IfOk result (λ count. count ≡ length (points_in area.now points.now)) }
{
    tile_length_law();
    let mut start = 0;
    let mut count = 0;
    for at in 0..points.len() {
        if is_inside(area, &points[at]) {
            count += 1;
        } else {
            into.extend_from_slice(&bytes[start * PACKED_LENGTH..at * PACKED_LENGTH])?;
            start = at + 1;
        }
    }
    into.extend_from_slice(&bytes[start * PACKED_LENGTH..])?;
    Ok(count)
}

// Whether a point lies in the area.
fn is_inside(area: &Box3, point: &Point) -> bool
    ensures { result ≡ is_inside area.now point.now }
{
    contains(area, place_of(point))
}
