//! Loading the nodes of the current checkpoint.

ghost use Rattle.std.specs.Prelude.{◌≡◌, ◌≢◌, ◌≤◌, ◌<◌, ◌^◌, ◌*◌, ◌⊎◌, ◌++◌, ◌↔◌, List, length, Some, Err, IsTrue, IfOk, IfErr, OnOk, OnErr};
ghost use Rattle.ept_base.specs.Causes.{HasCauseOf};
ghost use Rattle.ept_base.specs.Files.{Files, SameFiles, Tells};
ghost use Rattle.ept_base.specs.Moves.{Moves, SameImages};
ghost use Rattle.ept_point.specs.declared.layout.Layout.TheVariants.{Old, New};
ghost use Rattle.ept_point.specs.declared.point.Point.{Point};
ghost use Rattle.ept_point.specs.Dimensions.{packed_width};
ghost use Rattle.ept_point.specs.Order.{IsAscending};
ghost use Rattle.ept_point.specs.Layout.{IsTileIn};
ghost use Rattle.ept_point.specs.Packed.{tile};
ghost use Rattle.ept_space.specs.declared.cube.Rules.{Rules};
ghost use Rattle.ept_ckpt.specs.Versions.{layout_of};
ghost use Rattle.ept_grid.specs.Node.{IsNodeOf};
ghost use Rattle.ept_grid.specs.declared.error.GridError.{GridError};
ghost use Rattle.ept_grid.specs.Tile.{IsTileFault};
ghost use Rattle.ept_meta.specs.Output.{rules_of};
ghost use Rattle.ept_save.specs.Errors.{IsStores};
ghost use Rattle.ept_save.specs.Current.{HasCurrent, tile_of_line};
ghost use Rattle.ept_save.specs.Tiles.{HasTileUnder, IsOfLayout};
ghost use Rattle.ept_save.specs.Sound.{IsSound};
ghost use Rattle.ept_save.specs.Loading.{HasLine, AreOfLine, AreFound, HasTile, HasBytes, HasLength, IsNodeFound, AppendsFound, IsWrong, IsDamaged, IsDamagedUnder, IsDamagedLine, IsOfOtherLength, IsOfOtherLengthUnder};
ghost use Rattle.ept_save.specs.View as view;
ghost use Rattle.ept_save.specs.View.{StandsFor};

use crate::error::SaveError;
use crate::names::work_tile_name;
use crate::saved::Saved;
use ept_base::Store;
use ept_ckpt::{Checkpoint, NodeLine};
use ept_grid::{Grid, GridError, Lists};
use ept_meta::{output_once_law, rules_of};
use ept_point::{
    Layout, PACKED_LENGTH, Point, TileError, layout_law, read_tile_in, tile_length_law,
    tile_once_law,
};
use ept_space::{Key, Rules};
use std::alloc::Global;

/// Appends the points of a node of the current checkpoint: those of the tile that it names for the key.
/// Nothing is put.
///
/// # Errors
///
/// `TileDamaged` if that tile is missing, is no tile, or has another number of points than the checkpoint counts. Or its
/// points are those of no node of the key with the open octants that the checkpoint states. `out` is as it was after each
/// refusal.
pub fn load_tile<T: Store>(
    alloc: Global,
    store: &mut T,
    saved: &Saved,
    key: Key,
    out: &mut Vec<Point>,
) -> Result<(), SaveError>
    requires line { HasLine saved.now.current key }
    ensures appended { OnOk result (AppendsFound saved.now.current key (T.files store.old) out.old.items out.new.items) }
    ensures unchanged { OnErr result (out.new.items ≡ out.old.items) }

    // A damaged tile is reported exactly if it is one, unless the store fails or memory runs out. So no tile of sound
    // files is.
    ensures refused { result ≡ Err (SaveError.TileDamaged key) → Tells (IsDamaged saved.now.current key) (T.files store.old) }
    ensures refusal_comes { (all : Files) → T.files store.old ≡ Some all → IsDamaged saved.now.current key all
        → (result ≡ Err (SaveError.TileDamaged key)) ⊎ (result ≡ Err SaveError.StoreFault)
        ⊎ (result ≡ Err SaveError.Memory) }
    ensures only { IfErr result (λ e. (e ≡ SaveError.TileDamaged key) ⊎ IsStores e) }
    ensures sound { (shelf all : Files) → T.files store.old ≡ Some all → IsSound shelf all
        → HasCurrent saved.now.current all → IfErr result IsStores }

    // What is read and every image are as before, and the store still matches what it matched.
    ensures images { SameImages (T.may_leave store.old) (T.may_leave store.new) }
    ensures any_moment { Moves T.files T.may_leave T.moment T.image_since SameFiles store.old store.new }
    ensures stands { (v : view.View) → StandsFor v (T.files store.old) (T.may_leave store.old)
        → StandsFor v (T.files store.new) (T.may_leave store.new) }
    ensures cause { HasCauseOf SaveError.StoreFault (T.faults store.old) (T.faults store.new) result }
{
    load(alloc, store, saved, &key, out)?;
    Ok(())
}

/// A node of the current checkpoint. It has the key and the points of the tile that is named for it. Its open octants are
/// those that the checkpoint states, by the rules that it keeps. Nothing is put.
///
/// # Errors
///
/// `TileDamaged` if that tile is missing, is no tile, or has another number of points than the checkpoint counts. Or its
/// points are those of no node of the key with those open octants.
pub fn load_node<T: Store>(
    alloc: Global,
    store: &mut T,
    saved: &Saved,
    key: Key,
) -> Result<Grid, SaveError>
    requires line { HasLine saved.now.current key }
    ensures node { IfOk result (IsNodeFound saved.now.current key) }
    ensures points { IfOk result (λ node. AreFound saved.now.current key node.points) }
    ensures tile { IfOk result (λ node. Tells (HasTile saved.now.current key node.points) (T.files store.old)) }

    // A damaged tile is reported exactly if it is one, unless the store fails or memory runs out. So no tile of sound
    // files is.
    ensures refused { result ≡ Err (SaveError.TileDamaged key) → Tells (IsDamaged saved.now.current key) (T.files store.old) }
    ensures refusal_comes { (all : Files) → T.files store.old ≡ Some all → IsDamaged saved.now.current key all
        → (result ≡ Err (SaveError.TileDamaged key)) ⊎ (result ≡ Err SaveError.StoreFault)
        ⊎ (result ≡ Err SaveError.Memory) }
    ensures only { IfErr result (λ e. (e ≡ SaveError.TileDamaged key) ⊎ IsStores e) }
    ensures sound { (shelf all : Files) → T.files store.old ≡ Some all → IsSound shelf all
        → HasCurrent saved.now.current all → IfErr result IsStores }

    // What is read and every image are as before, and the store still matches what it matched.
    ensures images { SameImages (T.may_leave store.old) (T.may_leave store.new) }
    ensures any_moment { Moves T.files T.may_leave T.moment T.image_since SameFiles store.old store.new }
    ensures stands { (v : view.View) → StandsFor v (T.files store.old) (T.may_leave store.old)
        → StandsFor v (T.files store.new) (T.may_leave store.new) }
    ensures cause { HasCauseOf SaveError.StoreFault (T.faults store.old) (T.faults store.new) result }
{
    let mut points = Vec::new(alloc);
    load(alloc, store, saved, &key, &mut points)
}

// A node of the current checkpoint, whose points are appended.
fn load<T: Store>(
    alloc: Global,
    store: &mut T,
    saved: &Saved,
    key: &Key,
    out: &mut Vec<Point>,
) -> Result<Grid, SaveError>
    requires line { HasLine saved.now.current key.now }
    ensures appended { IfOk result (λ node. out.new.items ≡ out.old.items ++ node.points) }
    ensures unchanged { OnErr result (out.new.items ≡ out.old.items) }
    ensures node { IfOk result (IsNodeFound saved.now.current key.now) }
    ensures points { IfOk result (λ node. AreFound saved.now.current key.now node.points) }
    ensures tile { IfOk result (λ node. Tells (HasTile saved.now.current key.now node.points) (T.files store.old)) }
    ensures refused { result ≡ Err (SaveError.TileDamaged key.now) → Tells (IsDamaged saved.now.current key.now) (T.files store.old) }
    ensures sound { (shelf all : Files) → IsSound shelf all → HasCurrent saved.now.current all
        → ¬ IsDamaged saved.now.current key.now all }
    ensures intact { OnOk result (Tells (λ all. ¬ IsDamaged saved.now.current key.now all) (T.files store.old)) }
    ensures only { IfErr result (λ e. (e ≡ SaveError.TileDamaged key.now) ⊎ IsStores e) }
    ensures images { SameImages (T.may_leave store.old) (T.may_leave store.new) }
    ensures any_moment { Moves T.files T.may_leave T.moment T.image_since SameFiles store.old store.new }
    ensures cause { HasCauseOf SaveError.StoreFault (T.faults store.old) (T.faults store.new) result }
{
    let (_, checkpoint) = saved.current.as_ref().unwrap();
    let line = checkpoint.line(key).unwrap();
    mask_known(line);
    tile_once_law();
    output_once_law();
    load_saved(alloc, store, checkpoint, line, out)
}

// A mask is a byte. It does nothing at run time.
fn mask_known(line: &NodeLine)
    ensures { line.now.mask < 2 ^ 8 }
{
    let _mask = line.mask;
}

// The node of a line of the current checkpoint, whose points are appended.
fn load_saved<T: Store>(
    alloc: Global,
    store: &mut T,
    checkpoint: &Checkpoint,
    line: &NodeLine,
    out: &mut Vec<Point>,
) -> Result<Grid, SaveError>
    requires low { line.now.key.depth ≤ (rules_of checkpoint.now.kept).cube.depth }
    ensures appended { IfOk result (λ node. out.new.items ≡ out.old.items ++ node.points) }
    ensures unchanged { OnErr result (out.new.items ≡ out.old.items) }
    ensures node { IfOk result (λ node. IsNodeOf line.now.key (rules_of checkpoint.now.kept) line.now.mask node.points node) }
    ensures points { IfOk result (λ node. AreOfLine (rules_of checkpoint.now.kept) line.now node.points) }
    ensures tile { IfOk result (λ node.
        Tells (HasTileUnder (layout_of checkpoint.now.version) (tile_of_line line.now) node.points) (T.files store.old)) }
    ensures refused { result ≡ Err (SaveError.TileDamaged line.now.key)
        → Tells (IsDamagedLine (layout_of checkpoint.now.version) (rules_of checkpoint.now.kept) line.now) (T.files store.old) }
    ensures only { IfErr result (λ e. (e ≡ SaveError.TileDamaged line.now.key) ⊎ IsStores e) }
    ensures images { SameImages (T.may_leave store.old) (T.may_leave store.new) }
    ensures any_moment { Moves T.files T.may_leave T.moment T.image_since SameFiles store.old store.new }
    ensures cause { HasCauseOf SaveError.StoreFault (T.faults store.old) (T.faults store.new) result }
{
    let name = work_tile_name(alloc, line.letter, &line.key)?;
    read_line(alloc, store, name.as_str(), checkpoint, line, out)
}

/// The node of a line of a checkpoint, by its rules, from the file of this name, in the layout of its tiles. Its points are
/// appended. One file is read, and nothing is put.
///
/// # Errors
///
/// `TileDamaged` with the line's key if that file is missing, is no tile, or has another number of points than the
/// line. Or its points are those of no node of the key with the line's open octants. `out` is as it was after each
/// refusal.
pub fn load_line<T: Store>(
    alloc: Global,
    store: &mut T,
    name: &str,
    checkpoint: &Checkpoint,
    line: &NodeLine,
    out: &mut Vec<Point>,
) -> Result<Grid, SaveError>
    requires low { line.now.key.depth ≤ (rules_of checkpoint.now.kept).cube.depth }
    ensures appended { IfOk result (λ node. out.new.items ≡ out.old.items ++ node.points) }
    ensures unchanged { OnErr result (out.new.items ≡ out.old.items) }
    ensures node { IfOk result (λ node. IsNodeOf line.now.key (rules_of checkpoint.now.kept) line.now.mask node.points node) }
    ensures points { IfOk result (λ node. AreOfLine (rules_of checkpoint.now.kept) line.now node.points) }
    ensures tile { IfOk result (λ node. Tells (HasTileUnder (layout_of checkpoint.now.version) name.now node.points) (T.files store.old)) }

    // A damaged tile is reported exactly if it is one, unless the store fails or memory runs out.
    ensures refused { result ≡ Err (SaveError.TileDamaged line.now.key)
        → Tells (IsDamagedUnder (layout_of checkpoint.now.version) (rules_of checkpoint.now.kept) name.now line.now) (T.files store.old) }
    ensures intact { OnOk result (Tells (λ all. ¬ IsDamagedUnder (layout_of checkpoint.now.version) (rules_of checkpoint.now.kept) name.now line.now all)
        (T.files store.old)) }
    ensures only { IfErr result (λ e. (e ≡ SaveError.TileDamaged line.now.key) ⊎ IsStores e) }
    ensures images { SameImages (T.may_leave store.old) (T.may_leave store.new) }
    ensures any_moment { Moves T.files T.may_leave T.moment T.image_since SameFiles store.old store.new }
    ensures cause { HasCauseOf SaveError.StoreFault (T.faults store.old) (T.faults store.new) result }
{
    tile_once_law();
    read_line(alloc, store, name, checkpoint, line, out)
}

// The node of a line, from the file of this name, as `load_line` says.
fn read_line<T: Store>(
    alloc: Global,
    store: &mut T,
    name: &str,
    checkpoint: &Checkpoint,
    line: &NodeLine,
    out: &mut Vec<Point>,
) -> Result<Grid, SaveError>
    requires low { line.now.key.depth ≤ (rules_of checkpoint.now.kept).cube.depth }
    ensures appended { IfOk result (λ node. out.new.items ≡ out.old.items ++ node.points) }
    ensures unchanged { OnErr result (out.new.items ≡ out.old.items) }
    ensures node { IfOk result (λ node. IsNodeOf line.now.key (rules_of checkpoint.now.kept) line.now.mask node.points node) }
    ensures points { IfOk result (λ node. AreOfLine (rules_of checkpoint.now.kept) line.now node.points) }
    ensures tile { IfOk result (λ node. Tells (HasTileUnder (layout_of checkpoint.now.version) name.now node.points) (T.files store.old)) }
    ensures refused { result ≡ Err (SaveError.TileDamaged line.now.key)
        → Tells (IsDamagedUnder (layout_of checkpoint.now.version) (rules_of checkpoint.now.kept) name.now line.now) (T.files store.old) }
    ensures only { IfErr result (λ e. (e ≡ SaveError.TileDamaged line.now.key) ⊎ IsStores e) }
    ensures images { SameImages (T.may_leave store.old) (T.may_leave store.new) }
    ensures any_moment { Moves T.files T.may_leave T.moment T.image_since SameFiles store.old store.new }
    ensures cause { HasCauseOf SaveError.StoreFault (T.faults store.old) (T.faults store.new) result }
{
    let rules = rules_of(&checkpoint.kept);
    let mut bytes = Vec::new(alloc);
    if !store.get(name, &mut bytes)? {
        return Err(SaveError::TileDamaged { key: line.key });
    }
    node_of_bytes(
        alloc,
        checkpoint.version.layout(),
        &rules,
        line,
        &bytes,
        out,
    )
}

// The node that a line describes, from the bytes of its tile. Its points are appended.
fn node_of_bytes(
    alloc: Global,
    layout: Layout,
    rules: &Rules,
    line: &NodeLine,
    bytes: &[u8],
    out: &mut Vec<Point>,
) -> Result<Grid, SaveError>
    requires low { line.now.key.depth ≤ rules.now.cube.depth }
    ensures appended { IfOk result (λ node. out.new.items ≡ out.old.items ++ node.points) }
    ensures unchanged { OnErr result (out.new.items ≡ out.old.items) }
    ensures node { IfOk result (λ node. IsNodeOf line.now.key rules.now line.now.mask node.points node) }
    ensures points { IfOk result (λ node. AreOfLine rules.now line.now node.points) }
    ensures tile { IfOk result (λ node. IsTileIn layout bytes.now node.points) }
    ensures refused { result ≡ Err (SaveError.TileDamaged line.now.key) → IsWrong layout rules.now line.now bytes.now }
    ensures only { IfErr result (λ e. (e ≡ SaveError.TileDamaged line.now.key) ⊎ (e ≡ SaveError.Memory)) }
{
    let kept = out.len();
    match read_tile_in(layout, bytes, out) {
        Ok(()) => {}
        Err(TileError::Memory) => return Err(SaveError::Memory),
        Err(_) => return Err(SaveError::TileDamaged { key: line.key }),
    }
    let outcome = node_of_points(alloc, rules, line, &out.as_slice()[kept..]);
    if outcome.is_err() {
        out.truncate(kept);
    }
    outcome
}

// The node that a line describes, from the points of its tile.
fn node_of_points(
    alloc: Global,
    rules: &Rules,
    line: &NodeLine,
    points: &[Point],
) -> Result<Grid, SaveError>
    requires low { line.now.key.depth ≤ rules.now.cube.depth }
    requires ascend { IsAscending points.now }
    ensures node { IfOk result (IsNodeOf line.now.key rules.now line.now.mask points.now) }
    ensures points { OnOk result (AreOfLine rules.now line.now points.now) }
    ensures refused { result ≡ Err (SaveError.TileDamaged line.now.key) → (length points.now ≢ line.now.count)
        ⊎ ((fault : GridError) × IsTileFault line.now.key rules.now line.now.mask points.now fault) }
    ensures only { IfErr result (λ e. (e ≡ SaveError.TileDamaged line.now.key) ⊎ (e ≡ SaveError.Memory)) }
{
    if points.len() as u64 != line.count {
        return Err(SaveError::TileDamaged { key: line.key });
    }
    match Grid::from_tile(Lists::new(alloc), line.key, rules, line.mask, points) {
        Ok(node) => Ok(node),
        Err(GridError::Memory) => Err(SaveError::Memory),
        Err(_) => Err(SaveError::TileDamaged { key: line.key }),
    }
}

/// The bytes of the tile that the current checkpoint names for a key, as they are. One file is read, and nothing is put.
/// The tile has the new layout. Its length is compared with the number of points that the checkpoint counts. Its points
/// are not read.
///
/// # Errors
///
/// `TileDamaged` if that tile is missing, or has another length.
pub fn load_bytes<T: Store>(
    alloc: Global,
    store: &mut T,
    saved: &Saved,
    key: Key,
) -> Result<Vec<u8>, SaveError>
    requires line { HasLine saved.now.current key }
    requires newest { ¬ IsOfLayout Old saved.now.current }
    ensures bytes { IfOk result (λ bytes. Tells (HasBytes saved.now.current key bytes.items) (T.files store.old)) }
    ensures length { IfOk result (λ bytes. HasLength saved.now.current key bytes.items) }
    ensures tile { IfOk result (λ bytes. (found : List Point)
        → Tells (λ all. HasTile saved.now.current key found all → bytes.items ≡ tile found) (T.files store.old)) }

    // A tile that is reported is damaged: it is missing, or has another length. Each such tile is reported, unless the
    // store fails or memory runs out. So no tile of sound files is. Whatever the store has now, the tile of the key is not
    // damaged in sound files.
    ensures refused { result ≡ Err (SaveError.TileDamaged key) → Tells (IsDamaged saved.now.current key) (T.files store.old) }
    ensures other_length { result ≡ Err (SaveError.TileDamaged key)
        → Tells (IsOfOtherLength saved.now.current key) (T.files store.old) }
    ensures refusal_comes { (all : Files) → T.files store.old ≡ Some all → IsOfOtherLength saved.now.current key all
        → (result ≡ Err (SaveError.TileDamaged key)) ⊎ (result ≡ Err SaveError.StoreFault)
        ⊎ (result ≡ Err SaveError.Memory) }
    ensures only { IfErr result (λ e. (e ≡ SaveError.TileDamaged key) ⊎ IsStores e) }
    ensures sound { (shelf all : Files) → T.files store.old ≡ Some all → IsSound shelf all
        → HasCurrent saved.now.current all → IfErr result IsStores }
    ensures intact { (shelf all : Files) → IsSound shelf all → HasCurrent saved.now.current all
        → ¬ IsDamaged saved.now.current key all }

    // What is read and every image are as before, and the store still matches what it matched.
    ensures images { SameImages (T.may_leave store.old) (T.may_leave store.new) }
    ensures any_moment { Moves T.files T.may_leave T.moment T.image_since SameFiles store.old store.new }
    ensures stands { (v : view.View) → StandsFor v (T.files store.old) (T.may_leave store.old)
        → StandsFor v (T.files store.new) (T.may_leave store.new) }
    ensures cause { HasCauseOf SaveError.StoreFault (T.faults store.old) (T.faults store.new) result }
{
    let (_, checkpoint) = saved.current.as_ref().unwrap();
    let line = checkpoint.line(&key).unwrap();
    mask_known(line);
    tile_once_law();
    output_once_law();
    bytes_of_line(alloc, store, line)
}

// The bytes of the tile that a line names, in the new layout.
fn bytes_of_line<T: Store>(
    alloc: Global,
    store: &mut T,
    line: &NodeLine,
) -> Result<Vec<u8>, SaveError>
    ensures bytes { IfOk result (λ bytes. Tells (λ (all : Files). all (tile_of_line line.now) ≡ Some bytes.items) (T.files store.old)) }
    ensures length { IfOk result (λ bytes. length bytes.items ≡ packed_width * line.now.count) }
    ensures refused { result ≡ Err (SaveError.TileDamaged line.now.key) → (rules : Rules)
        → Tells (IsDamagedUnder New rules (tile_of_line line.now) line.now) (T.files store.old) }
    ensures other_length { result ≡ Err (SaveError.TileDamaged line.now.key)
        → Tells (IsOfOtherLengthUnder (tile_of_line line.now) line.now) (T.files store.old) }
    ensures only { IfErr result (λ e. (e ≡ SaveError.TileDamaged line.now.key) ⊎ IsStores e) }
    ensures images { SameImages (T.may_leave store.old) (T.may_leave store.new) }
    ensures any_moment { Moves T.files T.may_leave T.moment T.image_since SameFiles store.old store.new }
    ensures cause { HasCauseOf SaveError.StoreFault (T.faults store.old) (T.faults store.new) result }
{
    let name = work_tile_name(alloc, line.letter, &line.key)?;
    read_bytes(alloc, store, name.as_str(), line)
}

// The bytes of the file of this name, if they have the length of a tile of the points that a line counts.
fn read_bytes<T: Store>(
    alloc: Global,
    store: &mut T,
    name: &str,
    line: &NodeLine,
) -> Result<Vec<u8>, SaveError>
    ensures bytes { IfOk result (λ bytes. Tells (λ (all : Files). all name.now ≡ Some bytes.items) (T.files store.old)) }
    ensures length { IfOk result (λ bytes. length bytes.items ≡ packed_width * line.now.count) }
    ensures refused { result ≡ Err (SaveError.TileDamaged line.now.key) → (rules : Rules)
        → Tells (IsDamagedUnder New rules name.now line.now) (T.files store.old) }
    ensures other_length { result ≡ Err (SaveError.TileDamaged line.now.key)
        → Tells (IsOfOtherLengthUnder name.now line.now) (T.files store.old) }
    ensures only { IfErr result (λ e. (e ≡ SaveError.TileDamaged line.now.key) ⊎ IsStores e) }
    ensures images { SameImages (T.may_leave store.old) (T.may_leave store.new) }
    ensures any_moment { Moves T.files T.may_leave T.moment T.image_since SameFiles store.old store.new }
    ensures cause { HasCauseOf SaveError.StoreFault (T.faults store.old) (T.faults store.new) result }
{
    let mut bytes = Vec::new(alloc);
    if !store.get(name, &mut bytes)? {
        return Err(SaveError::TileDamaged { key: line.key });
    }
    if !has_length(line, &bytes) {
        return Err(of_other_length(alloc, line, &bytes));
    }
    Ok(bytes)
}

// Whether bytes have the length of a tile of the points that a line counts.
fn has_length(line: &NodeLine, bytes: &[u8]) -> bool
    ensures { IsTrue result ↔ (length bytes.now ≡ packed_width * line.now.count) }
{
    layout_law();
    let length = bytes.len();
    length % PACKED_LENGTH == 0 && (length / PACKED_LENGTH) as u64 == line.count
}

// Why bytes of another length are not the tile of a line: they are no tile, or one with another number of points. To
// know which of the two, they are read.
fn of_other_length(alloc: Global, line: &NodeLine, bytes: &[u8]) -> SaveError
    requires { length bytes.now ≢ packed_width * line.now.count }
    ensures refused { result ≡ SaveError.TileDamaged line.now.key → (rules : Rules) → IsWrong New rules line.now bytes.now }
    ensures only { (result ≡ SaveError.TileDamaged line.now.key) ⊎ (result ≡ SaveError.Memory) }
{
    tile_length_law();
    let mut points = Vec::new(alloc);
    match read_tile_in(Layout::New, bytes, &mut points) {
        Err(TileError::Memory) => SaveError::Memory,
        _ => SaveError::TileDamaged { key: line.key },
    }
}
