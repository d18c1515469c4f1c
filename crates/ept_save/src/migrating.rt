//! Taking over a checkpoint of the old layout.

ghost use Rattle.std.specs.Prelude.{◌≡◌, ◌⊎◌, true, map, Some, Err, IfErr, OnOk, OnErr};
ghost use Rattle.ept_base.specs.Causes.{HasCauseOf};
ghost use Rattle.ept_base.specs.Files.{Files, Tells};
ghost use Rattle.ept_base.specs.Moves.{Moves, IsSettled};
ghost use Rattle.ept_space.specs.VoxelKey.{VoxelKey};
ghost use Rattle.ept_point.specs.declared.layout.Layout.TheVariants.{Old};
ghost use Rattle.ept_ckpt.specs.declared.letter.Letter as letters;
ghost use Rattle.ept_ckpt.specs.declared.checkpoint.Checkpoint as c;
ghost use Rattle.ept_save.specs.Names.{other};
ghost use Rattle.ept_save.specs.Current.{Keeps, Commits};
ghost use Rattle.ept_save.specs.Errors.{IsStores};
ghost use Rattle.ept_save.specs.Loading.{HasLine, IsDamaged, HasNoDamage};
ghost use Rattle.ept_save.specs.Migrating.{turned, IsTurnOf, ArePutAgain, Migrates, HasMigrated};
ghost use Rattle.ept_save.specs.Opening.{lines_of};
ghost use Rattle.ept_save.specs.Tiles.{IsOfLayout};
ghost use Rattle.ept_save.specs.View.{StandsFor};

use crate::committing::commit_checkpoint;
use crate::error::SaveError;
use crate::loading::load_tile;
use crate::saved::Saved;
use crate::saving::{begin, save_points};
use ept_base::Store;
use std::alloc::Global;

/// Takes over the current checkpoint, whose tiles are of the old layout. It puts each of them again in the new one, under
/// the version that the checkpoint does not name. Then it commits a checkpoint of the same points that names these.
///
/// # Errors
///
/// Those of [`load_tile`] for a node of the checkpoint, and of [`commit`](crate::commit). What is known of the checkpoints
/// is then of no use: open the store again.
pub fn migrate<T: Store>(alloc: Global, store: &mut T, saved: &mut Saved) -> Result<(), SaveError>
    requires old { IsOfLayout Old saved.old.current }
    requires fresh { saved.old.lines ≡ lines_of saved.old.current }
    ensures migrated { OnOk result (HasMigrated saved.old saved.new) }
    ensures refused { OnErr result (saved.new.current ≡ saved.old.current) }

    // Whatever the moment, the current checkpoint is kept with its tiles, or the next one is the current one with its own.
    ensures migrates { (letter : letters.Letter) (c next : c.Checkpoint) → saved.old.current ≡ Some (letter, c) → IsTurnOf c next
        → (stands : StandsFor saved.old (T.files store.old) (T.may_leave store.old))
        → Moves T.files T.may_leave T.moment T.image_since (Migrates letter c next stands.all) store.old store.new }
    ensures stands { OnOk result (StandsFor saved.old (T.files store.old) (T.may_leave store.old)
        → StandsFor saved.new (T.files store.new) (T.may_leave store.new)) }
    ensures settled { OnOk result (IsSettled (T.files store.new) (T.may_leave store.new)) }

    // A tile is reported as damaged only if it is, and on success no tile was.
    ensures only { IfErr result (λ e. ((key : VoxelKey) × (e ≡ SaveError.TileDamaged key)) ⊎ IsStores e) }
    ensures damaged { (key : VoxelKey) → result ≡ Err (SaveError.TileDamaged key) → HasLine saved.old.current key
        × Tells (IsDamaged saved.old.current key) (T.files store.old) }
    ensures intact { OnOk result (Tells (HasNoDamage saved.old.current) (T.files store.old)) }
    ensures undamaged { (all : Files) → T.files store.old ≡ Some all → HasNoDamage saved.old.current all
        → IfErr result IsStores }
    ensures cause { HasCauseOf SaveError.StoreFault (T.faults store.old) (T.faults store.new) result }
{
    begin(alloc, store, saved)?;
    put_again(alloc, store, saved)?;
    commit_again(alloc, store, saved)
}

// Puts the tile of each line again, in the new layout, under the version that the current checkpoint does not name.
fn put_again<T: Store>(alloc: Global, store: &mut T, saved: &mut Saved) -> Result<(), SaveError>
    requires old { IsOfLayout Old saved.old.current }
    requires fresh { saved.old.lines ≡ lines_of saved.old.current }
    ensures lines { OnOk result (saved.new ≡ record saved.old { lines = map turned (lines_of saved.old.current) }) }
    ensures current { saved.new.current ≡ saved.old.current }
    ensures again { OnOk result ((all : Files) → T.files store.old ≡ Some all
        → Tells (λ now. ArePutAgain all now (lines_of saved.old.current)) (T.files store.new)) }
    ensures keeps { Moves T.files T.may_leave T.moment T.image_since (Keeps saved.old.current) store.old store.new }
    ensures stands { StandsFor saved.old (T.files store.old) (T.may_leave store.old)
        → StandsFor saved.new (T.files store.new) (T.may_leave store.new) }
    ensures only { IfErr result (λ e. ((key : VoxelKey) × (e ≡ SaveError.TileDamaged key)) ⊎ IsStores e) }
    ensures damaged { (key : VoxelKey) → result ≡ Err (SaveError.TileDamaged key) → HasLine saved.old.current key
        × Tells (IsDamaged saved.old.current key) (T.files store.old) }
    ensures intact { OnOk result (Tells (HasNoDamage saved.old.current) (T.files store.old)) }
    ensures cause { HasCauseOf SaveError.StoreFault (T.faults store.old) (T.faults store.new) result }
{
    let lines = saved.nodes(alloc)?;
    let mut points = Vec::new(alloc);
    for line in &lines {
        points.clear();
        load_tile(alloc, store, saved, line.key, &mut points)?;
        save_points(alloc, store, saved, line.key, line.mask, &points)?;
    }
    Ok(())
}

// Commits the checkpoint of the same points, whose nodes are the turned lines.
fn commit_again<T: Store>(alloc: Global, store: &mut T, saved: &mut Saved) -> Result<(), SaveError>
    requires begun { saved.old.begun ≡ true }
    requires old { IsOfLayout Old saved.old.current }
    requires turned { saved.old.lines ≡ map turned (lines_of saved.old.current) }
    ensures migrated { OnOk result (HasMigrated saved.old saved.new) }
    ensures unchanged { OnErr result (saved.new ≡ saved.old) }
    ensures commits { (letter : letters.Letter) (c next : c.Checkpoint) → saved.old.current ≡ Some (letter, c) → IsTurnOf c next
        → (stands : StandsFor saved.old (T.files store.old) (T.may_leave store.old))
        → Moves T.files T.may_leave T.moment T.image_since (Commits (Some (letter, c)) (other letter) next stands.all)
        store.old store.new }
    ensures stands { OnOk result (StandsFor saved.old (T.files store.old) (T.may_leave store.old)
        → StandsFor saved.new (T.files store.new) (T.may_leave store.new)) }
    ensures settled { OnOk result (IsSettled (T.files store.new) (T.may_leave store.new)) }
    ensures only { IfErr result IsStores }
    ensures cause { HasCauseOf SaveError.StoreFault (T.faults store.old) (T.faults store.new) result }
{
    let checkpoint = saved.next_turned(alloc)?;
    commit_checkpoint(alloc, store, saved, checkpoint)
}
