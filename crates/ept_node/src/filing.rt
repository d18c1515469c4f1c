//! The points of a node on their way into its spill file and back.

ghost use Rattle.std.specs.Prelude.{◌≡◌, ◌≢◌, ◌⊎◌, ◌*◌, ◌++◌, ℕ, List, Option, Err, IfOk, IfErr, OnOk, OnErr, length};
ghost use Rattle.ept_base.specs.Causes.{HasCauseOf};
ghost use Rattle.ept_base.specs.Devices.{counts_on};
ghost use Rattle.ept_base.specs.Files.{Tells};
ghost use Rattle.ept_point.specs.Packed.{tile};
ghost use Rattle.ept_point.specs.Dimensions.{packed_width};
ghost use Rattle.ept_sample.specs.Ids.{HasDistinctIds};
ghost use Rattle.ept_sample.specs.Place.{AllInBox};
ghost use Rattle.ept_grid.specs.Node.{IsInIdOrder};
ghost use Rattle.ept_node.specs.declared.error.NodeError.TheVariants.{SpillFault, SpillDamaged, Memory};
ghost use Rattle.ept_node.specs.Shown.{bare, filed_node, IsTileOf, DoesTell};
ghost use Rattle.ept_node.specs.Filing.{IsLabelOf, FitsLabel, AreFiled, AppendsAlike};
ghost use Rattle.ept_node.specs.Damage.{IsDamaged, IsWrongAt};

use crate::body::boxed;
use crate::error::NodeError;
use crate::site::{Filed, Site};
use ept_base::{PutError, SpillFile};
use ept_grid::{Grid, GridError, Lists, first_outside};
use ept_point::{
    PACKED_LENGTH, Point, TileError, layout_law, read_tile, tile_bytes, tile_length_law,
    tile_once_law,
};
use std::alloc::Global;

/// Puts the points of a node into a file, as the bytes of its tile. Returns what stays in memory.
pub(crate) fn keep_grid<F: SpillFile>(
    alloc: Global,
    file: &mut F,
    grid: &Grid,
) -> Result<Box<Filed>, NodeError>
    ensures label { IfOk result (λ filed. IsLabelOf grid.now filed.value) }
    ensures told { IfOk result (λ filed. Tells (λ _. filed_node (F.held file.new) filed.value ≡ bare grid.now) (F.held file.new)) }
    ensures filed { IfOk result (λ filed. Tells (IsTileOf (filed_node (F.held file.new) filed.value)) (F.held file.new)) }
    ensures tile { OnOk result (Tells (λ bytes. bytes ≡ tile grid.now.points) (F.held file.new)) }
    ensures telling { DoesTell F.held file.old → DoesTell F.held file.new }
    ensures memory { result ≡ Err Memory → F.held file.new ≡ F.held file.old }
    ensures only { IfErr result (λ e. (e ≡ SpillFault) ⊎ (e ≡ Memory)) }
    ensures counted { result ≢ Err Memory → F.keeps file.new ≡ counts_on (F.keeps file.old) 1 }
    ensures at_most_once { (F.keeps file.new ≡ counts_on (F.keeps file.old) 1) ⊎ (F.keeps file.new ≡ F.keeps file.old) }
    ensures cause { HasCauseOf SpillFault (F.faults file.old) (F.faults file.new) result }
{
    let (filed, bytes) = pack_grid(alloc, grid)?;
    grid.known();
    match file.keep(bytes.as_slice()) {
        Ok(()) => Ok(filed),
        Err(PutError::Failed) => Err(NodeError::SpillFault),
        Err(PutError::Memory) => Err(NodeError::Memory),
    }
}

// What stays in memory of a node whose points go to its file, and the bytes that go there: its tile.
fn pack_grid(alloc: Global, grid: &Grid) -> Result<(Box<Filed>, Vec<u8>), NodeError>
    ensures label { IfOk result (λ made. IsLabelOf grid.now made.0.value) }
    ensures bytes { IfOk result (λ made. made.1.items ≡ tile grid.now.points) }
    ensures in_order { IsInIdOrder grid.now.points }
    ensures only { IfErr result (λ e. e ≡ Memory) }
{
    let mut points = Vec::new(alloc);
    grid.points_into(&mut points)?;
    let mut bytes = Vec::with_capacity(alloc, points.len().saturating_mul(PACKED_LENGTH))?;
    tile_bytes(points.as_slice(), &mut bytes)?;
    let filed = label(grid, points.len() as u64, bytes.as_slice());
    Ok((Box::new(alloc, filed)?, bytes))
}

// What stays in memory of a node with this number of points and these bytes.
fn label(grid: &Grid, count: u64, bytes: &[u8]) -> Filed
    requires count { count ≡ length grid.now.points }
    requires bytes { bytes.now ≡ tile grid.now.points }
    ensures { IsLabelOf grid.now result }
{
    tile_length_law();
    grid.known();
    let rules = *grid.rules();
    rules.cube.known();
    let _length = bytes.len();
    Filed {
        site: Site {
            key: grid.key(),
            rules,
        },
        count,
        mask: grid.open_mask(),
    }
}

/// The node whose points a file returns. The file holds what it held.
pub(crate) fn load_grid<F: SpillFile>(
    alloc: Global,
    file: &mut F,
    filed: &Filed,
) -> Result<Box<Grid>, NodeError>
    ensures fits { IfOk result (λ grid. FitsLabel filed.now grid.value) }
    ensures told { IfOk result (λ grid. Tells (λ _. bare grid.value ≡ filed_node (F.held file.old) filed.now) (F.held file.old)) }
    ensures tile { IfOk result (λ grid. Tells (λ bytes. bytes ≡ tile grid.value.points) (F.held file.old)) }
    ensures kept { (kept found at : ℕ) → result ≡ Err (SpillDamaged kept found at) → kept ≡ packed_width * filed.now.count }
    ensures damaged { (kept found at : ℕ) → result ≡ Err (SpillDamaged kept found at)
        → Tells (IsDamaged (filed_node (F.held file.old) filed.now) kept found at) (F.held file.old) }
    ensures intact { Tells (IsTileOf (filed_node (F.held file.old) filed.now)) (F.held file.old)
        → HasDistinctIds (filed_node (F.held file.old) filed.now).points
        → Tells (λ _. (kept found at : ℕ) → result ≢ Err (SpillDamaged kept found at)) (F.held file.old) }
    ensures held { F.held file.new ≡ F.held file.old }
    ensures counted { F.keeps file.new ≡ F.keeps file.old }
    ensures cause { HasCauseOf SpillFault (F.faults file.old) (F.faults file.new) result }
{
    tile_length_law();
    tile_once_law();
    filed.known();
    let bytes = load_bytes(alloc, file, filed)?;
    let grid = grid_of_bytes(alloc, filed, bytes)?;
    Ok(boxed(alloc, grid)?)
}

/// Appends the points of a node, in id order.
pub(crate) fn append(grid: &Grid, out: &mut Vec<Point>) -> Result<(), NodeError>
    ensures ok { OnOk result (out.new.items ≡ out.old.items ++ grid.now.points) }
    ensures appended { OnOk result (AppendsAlike (bare grid.now) out.old.items out.new.items) }
    ensures in_order { IsInIdOrder grid.now.points }
    ensures unchanged { OnErr result (out.new.items ≡ out.old.items) }
    ensures only { IfErr result (λ e. e ≡ Memory) }
{
    grid.known();
    grid.points_into(out)?;
    Ok(())
}

/// Appends the points that the file of a spilled node returns, in id order, and makes no node of them. The file holds
/// what it held. After a refusal the list is as it was.
pub(crate) fn append_filed<F: SpillFile>(
    alloc: Global,
    file: &mut F,
    filed: &Filed,
    out: &mut Vec<Point>,
) -> Result<(), NodeError>
    ensures appended { OnOk result ((told : Option (List ℕ)) → AppendsAlike (filed_node told filed.now) out.old.items out.new.items) }
    ensures told { OnOk result (Tells (λ _. out.new.items ≡ out.old.items ++ (filed_node (F.held file.old) filed.now).points)
        (F.held file.old)) }
    ensures unchanged { OnErr result (out.new.items ≡ out.old.items) }
    ensures kept { (kept found at : ℕ) → result ≡ Err (SpillDamaged kept found at) → kept ≡ packed_width * filed.now.count }
    ensures damaged { (kept found at : ℕ) → result ≡ Err (SpillDamaged kept found at)
        → Tells (IsDamaged (filed_node (F.held file.old) filed.now) kept found at) (F.held file.old) }
    ensures intact { Tells (IsTileOf (filed_node (F.held file.old) filed.now)) (F.held file.old)
        → HasDistinctIds (filed_node (F.held file.old) filed.now).points
        → Tells (λ _. (kept found at : ℕ) → result ≢ Err (SpillDamaged kept found at)) (F.held file.old) }
    ensures held { F.held file.new ≡ F.held file.old }
    ensures counted { F.keeps file.new ≡ F.keeps file.old }
    ensures cause { HasCauseOf SpillFault (F.faults file.old) (F.faults file.new) result }
{
    tile_length_law();
    tile_once_law();
    filed.known();
    let bytes = load_bytes(alloc, file, filed)?;
    let mut points = points_in_box(alloc, filed, bytes)?;
    out.append(&mut points)?;
    Ok(())
}

// The points whose tile these bytes are, if each lies in the box of the node.
fn points_in_box(alloc: Global, filed: &Filed, bytes: Vec<u8>) -> Result<Vec<Point>, NodeError>
    requires { length bytes.items ≡ packed_width * filed.now.count }
    ensures points { IfOk result (λ points. AreFiled filed.now bytes.items points.items) }
    ensures inside { IfOk result (λ points. AllInBox filed.now.site.rules.cube filed.now.site.key points.items) }
    ensures wrong { IfErr result (λ e. (kept found at : ℕ) → e ≡ SpillDamaged kept found at
        → (kept ≡ length bytes.items) × (found ≡ kept)
        × ((told : Option (List ℕ)) → IsWrongAt (filed_node told filed.now) at bytes.items)) }
    ensures only { IfErr result (λ e. e ≢ SpillFault) }
{
    tile_length_law();
    filed.known();
    let points = points_of_bytes(alloc, filed, bytes)?;
    let site = &filed.site;
    match first_outside(&site.key, &site.rules, points.as_slice()) {
        Some(at) => Err(damaged_at(filed, at as u64)),
        None => Ok(points),
    }
}

// The points whose tile these bytes are. The bytes are freed when it returns.
fn points_of_bytes(alloc: Global, filed: &Filed, bytes: Vec<u8>) -> Result<Vec<Point>, NodeError>
    requires { length bytes.items ≡ packed_width * filed.now.count }
    ensures points { IfOk result (λ points. AreFiled filed.now bytes.items points.items) }
    ensures wrong { IfErr result (λ e. (kept found at : ℕ) → e ≡ SpillDamaged kept found at
        → (kept ≡ length bytes.items) × (found ≡ kept)
        × ((told : Option (List ℕ)) → IsWrongAt (filed_node told filed.now) at bytes.items)) }
    ensures only { IfErr result (λ e. e ≢ SpillFault) }
{
    tile_length_law();
    let mut points = Vec::new(alloc);
    match read_tile(bytes.as_slice(), &mut points) {
        Ok(()) => Ok(points),
        Err(TileError::Length) => unreachable!(),
        Err(TileError::Field { at }) => Err(damaged_at(filed, at)),
        Err(TileError::Order { at }) => Err(damaged_at(filed, at)),
        Err(TileError::Memory) => Err(NodeError::Memory),
    }
}

// The bytes of a node's tile: the number of bytes that the file has kept.
fn load_bytes<F: SpillFile>(
    alloc: Global,
    file: &mut F,
    filed: &Filed,
) -> Result<Vec<u8>, NodeError>
    ensures length { IfOk result (λ bytes. length bytes.items ≡ packed_width * filed.now.count) }
    ensures bytes { IfOk result (λ bytes. Tells (λ held. held ≡ bytes.items) (F.held file.old)) }
    ensures kept { (kept found at : ℕ) → result ≡ Err (SpillDamaged kept found at) → kept ≡ packed_width * filed.now.count }
    ensures damaged { (kept found at : ℕ) → result ≡ Err (SpillDamaged kept found at)
        → Tells (IsDamaged (filed_node (F.held file.old) filed.now) kept found at) (F.held file.old) }
    ensures held { F.held file.new ≡ F.held file.old }
    ensures counted { F.keeps file.new ≡ F.keeps file.old }
    ensures cause { HasCauseOf SpillFault (F.faults file.old) (F.faults file.new) result }
{
    layout_law();
    let kept = PACKED_LENGTH * filed.count as usize;
    let mut bytes = Vec::new(alloc);
    bytes.resize(kept, 0)?;
    let found = file.load(bytes.as_mut_slice())?;
    if found != kept {
        return Err(NodeError::SpillDamaged {
            kept: kept as u64,
            found: found as u64,
            at: (found.min(kept) / PACKED_LENGTH) as u64,
        });
    }
    Ok(bytes)
}

// The node of a key, count and open octants whose tile these bytes are. The bytes are freed before the node is made.
fn grid_of_bytes(alloc: Global, filed: &Filed, bytes: Vec<u8>) -> Result<Grid, NodeError>
    requires { length bytes.items ≡ packed_width * filed.now.count }
    ensures fits { IfOk result (FitsLabel filed.now) }
    ensures bytes { IfOk result (λ grid. bytes.items ≡ tile grid.points) }
    ensures wrong { IfErr result (λ e. (kept found at : ℕ) → e ≡ SpillDamaged kept found at
        → (kept ≡ length bytes.items) × (found ≡ kept)
        × ((told : Option (List ℕ)) → IsWrongAt (filed_node told filed.now) at bytes.items)) }
    ensures only { IfErr result (λ e. e ≢ SpillFault) }
{
    tile_length_law();
    let points = points_of_bytes(alloc, filed, bytes)?;
    let site = &filed.site;
    let lists = Lists::new(alloc);
    match Grid::from_tile(lists, site.key, &site.rules, filed.mask, points.as_slice()) {
        Ok(grid) => Ok(grid),
        Err(GridError::Outside { at }) => Err(damaged_at(filed, at)),
        Err(GridError::OpenLoser { at }) => Err(damaged_at(filed, at)),
        Err(GridError::TooMany { octant: _octant }) => Err(damaged_at(filed, filed.count)),
        Err(GridError::Deep) => unreachable!(),
        Err(GridError::Memory) => Err(NodeError::Memory),
    }
}

// The file returned the number of bytes that it kept, but they are not the node's tile.
fn damaged_at(filed: &Filed, at: u64) -> NodeError
    ensures { result ≡ SpillDamaged (packed_width * filed.now.count) (packed_width * filed.now.count) at }
{
    layout_law();
    let kept = PACKED_LENGTH as u64 * filed.count;
    NodeError::SpillDamaged {
        kept,
        found: kept,
        at,
    }
}
