//! The tiles of the output, copied from those of the current checkpoint.

ghost use Rattle.std.specs.Prelude.{◌≡◌, ◌≢◌, List, Some, Err, IfOk, OnOk, map};
ghost use Rattle.ept_base.specs.Causes.{HasCauseOf};
ghost use Rattle.ept_base.specs.Files.{Files, SameBut, SameFiles, Puts, StepsBy, Tells};
ghost use Rattle.ept_base.specs.Moves.{Moves};
ghost use Rattle.ept_point.specs.declared.layout.Layout.TheVariants.{Old};
ghost use Rattle.ept_point.specs.declared.point.Point.{Point};
ghost use Rattle.ept_point.specs.Packed.{tile};
ghost use Rattle.ept_space.specs.VoxelKey.{VoxelKey};
ghost use Rattle.ept_sample.specs.declared.tiles.Tile.{Tile};
ghost use Rattle.ept_hier.specs.Hierarchy.{KeysAscend};
ghost use Rattle.ept_meta.specs.Output.{tile_name, tile_file};
ghost use Rattle.ept_save.specs.Current.{HasCurrent};
ghost use Rattle.ept_save.specs.Loading.{HasLine, HasTile, IsDamaged};
ghost use Rattle.ept_save.specs.Opening.{lines_of};
ghost use Rattle.ept_save.specs.Sound.{IsSound};
ghost use Rattle.ept_save.specs.Tiles.{IsOfLayout};
ghost use Rattle.ept_publish.specs.Lines.{counted_by, named_by, NamesTiles};
ghost use Rattle.ept_publish.specs.Publishing.{PutsAll, SameButThese};

use crate::error::PublishError;
use ept_base::{PutError, Store};
use ept_ckpt::NodeLine;
use ept_meta::{output_names_law, tile_name};
use ept_save::{SaveError, Saved, load_bytes};
use ept_space::Key;
use std::alloc::Global;

/// Puts the tiles of the current checkpoint under the names of the output. It returns the keys of these tiles, and how
/// many points each has.
pub(crate) fn put_tiles<T: Store>(
    alloc: Global,
    store: &mut T,
    saved: &Saved,
) -> Result<Vec<(Key, u64)>, PublishError>
    requires newest { ¬ IsOfLayout Old saved.now.current }
    ensures counts { IfOk result (λ counts. counts.items ≡ map counted_by (lines_of saved.now.current)) }
    ensures ascend { IfOk result (λ counts. KeysAscend counts.items) }
    ensures ok { (start : Files) (tiles : List Tile) → T.files store.old ≡ Some start
        → NamesTiles start saved.now.current tiles
        → OnOk result (StepsBy (PutsAll (map tile_file tiles)) (T.files store.old) (T.files store.new)) }
    ensures any_moment { Moves T.files T.may_leave T.moment T.image_since
        (SameButThese (map named_by (lines_of saved.now.current))) store.old store.new }
    ensures cause { HasCauseOf PublishError.StoreFault (T.faults store.old) (T.faults store.new) result }
    ensures damaged { (key : VoxelKey) → result ≡ Err (PublishError.TileDamaged key)
        → HasLine saved.now.current key × Tells (IsDamaged saved.now.current key) (T.files store.old) }
    ensures sound { (shelf start : Files) → T.files store.old ≡ Some start → IsSound shelf start
        → HasCurrent saved.now.current start → (key : VoxelKey) → result ≢ Err (PublishError.TileDamaged key) }
{
    output_names_law();
    let lines = lines_in(saved);
    let mut counts = Vec::with_capacity(alloc, lines.len())?;
    for line in lines {
        copy_tile(alloc, store, saved, &line.key)?;
        counts.push((line.key, line.count))?;
    }
    Ok(counts)
}

// The lines of the current checkpoint.
fn lines_in(saved: &Saved) -> &[NodeLine]
    ensures { result.now ≡ lines_of saved.now.current }
{
    match saved.current() {
        Some(checkpoint) => checkpoint.nodes.as_slice(),
        None => &[],
    }
}

// Puts the tile that the current checkpoint names for a key under its name in the output.
fn copy_tile<T: Store>(
    alloc: Global,
    store: &mut T,
    saved: &Saved,
    key: &Key,
) -> Result<(), PublishError>
    requires line { HasLine saved.now.current key.now }
    requires newest { ¬ IsOfLayout Old saved.now.current }
    ensures ok { (points : List Point) → Tells (λ all. HasTile saved.now.current key.now points all
        → OnOk result (StepsBy (Puts (tile_name key.now) (tile points)) (T.files store.old) (T.files store.new))) (T.files store.old) }
    ensures any_moment { Moves T.files T.may_leave T.moment T.image_since
        (SameBut (tile_name key.now)) store.old store.new }
    ensures cause { HasCauseOf PublishError.StoreFault (T.faults store.old) (T.faults store.new) result }
    ensures damaged { (other : VoxelKey) → result ≡ Err (PublishError.TileDamaged other)
        → (key.now ≡ other) × Tells (IsDamaged saved.now.current key.now) (T.files store.old) }
    ensures intact { (shelf all : Files) → IsSound shelf all → HasCurrent saved.now.current all
        → ¬ IsDamaged saved.now.current key.now all }
{
    let bytes = saved_bytes(alloc, store, saved, key)?;
    put_tile(alloc, store, key, &bytes)?;
    Ok(())
}

// The bytes of the tile that the current checkpoint names for a key.
fn saved_bytes<T: Store>(
    alloc: Global,
    store: &mut T,
    saved: &Saved,
    key: &Key,
) -> Result<Vec<u8>, PublishError>
    requires line { HasLine saved.now.current key.now }
    requires newest { ¬ IsOfLayout Old saved.now.current }
    ensures tile { IfOk result (λ bytes. (points : List Point)
        → Tells (λ all. HasTile saved.now.current key.now points all → bytes.items ≡ tile points) (T.files store.old)) }
    ensures any_moment { Moves T.files T.may_leave T.moment T.image_since SameFiles store.old store.new }
    ensures cause { HasCauseOf PublishError.StoreFault (T.faults store.old) (T.faults store.new) result }
    ensures damaged { (other : VoxelKey) → result ≡ Err (PublishError.TileDamaged other)
        → (key.now ≡ other) × Tells (IsDamaged saved.now.current key.now) (T.files store.old) }
    ensures intact { (shelf all : Files) → IsSound shelf all → HasCurrent saved.now.current all
        → ¬ IsDamaged saved.now.current key.now all }
{
    match load_bytes(alloc, store, saved, *key) {
        Ok(bytes) => Ok(bytes),
        Err(SaveError::StoreFault) => Err(PublishError::StoreFault),
        Err(SaveError::TileDamaged { .. }) => Err(PublishError::TileDamaged { key: *key }),
        Err(SaveError::Memory) => Err(PublishError::Memory),
        Err(SaveError::BadCheckpoint { .. }) => unreachable!(),
    }
}

// Puts these bytes as the tile of a key.
fn put_tile<T: Store>(alloc: Global, store: &mut T, key: &Key, bytes: &[u8]) -> Result<(), PutError>
    ensures ok { OnOk result (StepsBy (Puts (tile_name key.now) bytes.now)
        (T.files store.old) (T.files store.new)) }
    ensures any_moment { Moves T.files T.may_leave T.moment T.image_since
        (SameBut (tile_name key.now)) store.old store.new }
    ensures cause { HasCauseOf PutError.Failed (T.faults store.old) (T.faults store.new) result }
{
    let Ok(name) = tile_name(alloc, key) else {
        return Err(PutError::Memory);
    };
    store.put(name.as_str(), bytes)
}
