//! All files of the output.

ghost use Rattle.std.specs.Prelude.{◌≡◌, ◌≢◌, List, Some, Err, IfErr, OnOk, length};
ghost use Rattle.ept_base.specs.Causes.{HasCauseOf};
ghost use Rattle.ept_base.specs.Files.{Files, StepsBy, Tells};
ghost use Rattle.ept_base.specs.Moves.{IsSettled, Moves};
ghost use Rattle.ept_point.specs.declared.layout.Layout.TheVariants.{Old};
ghost use Rattle.ept_space.specs.VoxelKey.{VoxelKey};
ghost use Rattle.ept_sample.specs.declared.tiles.Tile.{Tile};
ghost use Rattle.ept_meta.specs.Output.{files_of};
ghost use Rattle.ept_save.specs.Current.{HasCurrent};
ghost use Rattle.ept_save.specs.Loading.{HasLine, IsDamaged, HasNoDamage};
ghost use Rattle.ept_save.specs.Opening.{lines_of};
ghost use Rattle.ept_save.specs.Sound.{IsSound};
ghost use Rattle.ept_save.specs.Tiles.{IsOfLayout};
ghost use Rattle.ept_publish.specs.Errors.{IsStores, IsFault};
ghost use Rattle.ept_publish.specs.Lines.{output_names, NamesTiles};
ghost use Rattle.ept_publish.specs.Publishing.{PutsAll, SameButThese};

use crate::error::PublishError;
use crate::hierarchy::put_hierarchy;
use crate::texts::{put_texts, texts_of};
use crate::tiles::put_tiles;
use ept_base::Store;
use ept_config::{Kept, SourceCount};
use ept_save::Saved;
use ept_space::Bounds;
use std::alloc::Global;

/// Puts the files of the output, and syncs: the tile of each node, the hierarchy, the metadata, the manifest
/// and the build file. The nodes are those of the current checkpoint. Its tiles have the new layout and are copied as
/// they are: their lengths are compared, and their points are not read.
///
/// `counts` is what was found of each input, `extent` that of all points in stored units, and `points` their
/// number. After a refusal some of the files may be there, and one of them in part.
///
/// # Errors
///
/// `StoreFault` if the store fails. `TileDamaged` if a tile of the current checkpoint is missing, or has another length
/// than the points that its line counts.
pub fn publish<T: Store>(
    alloc: Global,
    store: &mut T,
    saved: &Saved,
    kept: &Kept,
    counts: &[SourceCount],
    extent: &Option<Bounds>,
    points: u64,
) -> Result<(), PublishError>
    requires each { length counts.now ≡ length kept.now.inputs }
    requires newest { ¬ IsOfLayout Old saved.now.current }
    // What is put, if the contents of the store are visible. It is the tiles that the current checkpoint's lines name,
    // and the texts that follow from them.
    ensures puts { (start : Files) (tiles : List Tile) → T.files store.old ≡ Some start
        → NamesTiles start saved.now.current tiles → OnOk result (StepsBy (PutsAll (files_of
        kept.now counts.now extent.now points tiles)) (T.files store.old) (T.files store.new)) }
    ensures settled { OnOk result (IsSettled (T.files store.new) (T.may_leave store.new)) }
    // At every moment only names of these files change. They follow from what is kept and from the lines.
    ensures any_moment { Moves T.files T.may_leave T.moment T.image_since
        (SameButThese (output_names kept.now (lines_of saved.now.current))) store.old store.new }
    ensures cause { HasCauseOf PublishError.StoreFault (T.faults store.old) (T.faults store.new) result }
    // A tile that is reported is one of the current checkpoint's, and is damaged. If no tile is damaged, no tile is
    // reported. No tile of sound files is.
    ensures only { IfErr result (IsFault saved.now.current) }
    ensures damaged { (key : VoxelKey) → result ≡ Err (PublishError.TileDamaged key)
        → HasLine saved.now.current key × Tells (IsDamaged saved.now.current key) (T.files store.old) }
    ensures undamaged { (all : Files) → T.files store.old ≡ Some all → HasNoDamage saved.now.current all
        → IfErr result IsStores }
    ensures sound { (shelf all : Files) → T.files store.old ≡ Some all → IsSound shelf all
        → HasCurrent saved.now.current all → IfErr result IsStores }
{
    put_files(alloc, store, saved, kept, counts, extent, points)?;
    store.sync()?;
    Ok(())
}

// Puts the files of the output.
fn put_files<T: Store>(
    alloc: Global,
    store: &mut T,
    saved: &Saved,
    kept: &Kept,
    counts: &[SourceCount],
    extent: &Option<Bounds>,
    points: u64,
) -> Result<(), PublishError>
    requires each { length counts.now ≡ length kept.now.inputs }
    requires newest { ¬ IsOfLayout Old saved.now.current }
    ensures puts { (start : Files) (tiles : List Tile) → T.files store.old ≡ Some start
        → NamesTiles start saved.now.current tiles → OnOk result (StepsBy (PutsAll (files_of
        kept.now counts.now extent.now points tiles)) (T.files store.old) (T.files store.new)) }
    ensures any_moment { Moves T.files T.may_leave T.moment T.image_since
        (SameButThese (output_names kept.now (lines_of saved.now.current))) store.old store.new }
    ensures cause { HasCauseOf PublishError.StoreFault (T.faults store.old) (T.faults store.new) result }
    ensures damaged { (key : VoxelKey) → result ≡ Err (PublishError.TileDamaged key)
        → HasLine saved.now.current key × Tells (IsDamaged saved.now.current key) (T.files store.old) }
    ensures sound { (shelf start : Files) → T.files store.old ≡ Some start → IsSound shelf start
        → HasCurrent saved.now.current start → (key : VoxelKey) → result ≢ Err (PublishError.TileDamaged key) }
{
    let nodes = put_tiles(alloc, store, saved)?;
    let texts = texts_of(alloc, kept, counts, extent, points, &nodes)?;
    put_hierarchy(alloc, store, &texts.hierarchy)?;
    put_texts(store, &texts)?;
    Ok(())
}
