//! The end of a phase.

ghost use Rattle.std.specs.Prelude.{◌≡◌, ◌≢◌, ◌<◌, ℕ, List, Some, Err, length, IfErr, OnOk, OnErr};
ghost use Rattle.ept_base.specs.Causes.{HasCauseOf};
ghost use Rattle.ept_base.specs.Files.{Files, StepsBy, Tells};
ghost use Rattle.ept_base.specs.Moves.{IsSettled, Moves};
ghost use Rattle.ept_ckpt.specs.declared.checkpoint.Checkpoint as c;
ghost use Rattle.ept_forest.specs.Slots as trees;
ghost use Rattle.ept_meta.specs.Output as meta;
ghost use Rattle.ept_node.specs.Shown.{IsTelling};
ghost use Rattle.ept_point.specs.declared.layout.Layout.TheVariants.{Old, New};
ghost use Rattle.ept_point.specs.declared.point.Point as p;
ghost use Rattle.ept_sample.specs.SamplingLaws.{CanBeSampled};
ghost use Rattle.ept_space.specs.VoxelKey.{VoxelKey};
ghost use Rattle.ept_save.specs.declared.error.SaveError.TheVariants as save;
ghost use Rattle.ept_save.specs.Current.{Keeps};
ghost use Rattle.ept_save.specs.Loading.{HasLine, IsDamaged, HasNoDamage};
ghost use Rattle.ept_save.specs.Opening.{lines_of};
ghost use Rattle.ept_save.specs.Sound as sound;
ghost use Rattle.ept_save.specs.Tiles.{IsOfLayout};
ghost use Rattle.ept_save.specs.View.{StandsFor};
ghost use Rattle.ept_table.specs.Octree.{AreSampled};
ghost use Rattle.ept_octree.specs.Octree.{forest_of, rules_of, most_of, cache_of, nodes_of, points_of, IsWhole, IsLinked, IsUnbroken, AgreesWithFiles};
ghost use Rattle.ept_octree_ckpt.specs.Errors.{IsDevices};
ghost use Rattle.ept_octree_ckpt.specs.Lines.{NameTiles};
ghost use Rattle.ept_octree_ckpt.specs.Loaded.{OfCurrent};
ghost use Rattle.ept_octree_ckpt.specs.Phase.{AreGiven, GoesFurther, GoesOn, IsSaved};
ghost use Rattle.ept_octree_ckpt.specs.Saving.{StillAreSame, HasEachNodeOf, SavesChanged, IsSaveFault};

use crate::error::PhaseError;
use crate::laws::lines_law;
use crate::saving::save_nodes;
use ept_base::{SpillFile, Store};
use ept_ckpt::body_once_law;
use ept_config::{Kept, SourceCount};
use ept_octree::Octree;
use ept_point::tile_once_law;
use ept_save::{Saved, begin, commit, sound_steps_law};
use std::alloc::Global;

/// Makes an octree the next checkpoint: begins it, saves the nodes that are not as the current checkpoint has
/// them, and commits. The octree holds `inserted` points, and no node of the current checkpoint is gone. A node whose points are in its spill file is read there, and stays there.
///
/// A node is still if the current checkpoint states its open octants and number of points, and those of each node below.
/// Neither its points nor its tile are read then, and its line stays. A point that comes to an octree stays in the node
/// where it arrives or below it. So no point has come to a still node. If a still node had other points than its tile all
/// the same, the next checkpoint would name that tile. So what is promised of tiles holds if still nodes are the same.
///
/// # Errors
///
/// Those of [`save_node`](crate::save_node) and of [`commit`], and `SpillFault` and `SpillDamaged` if a spill file does
/// not return the points of its node. What is known of the checkpoints is then of no use: open the store again.
pub fn save_octree<T: Store, F: SpillFile>(
    alloc: Global,
    store: &mut T,
    saved: &mut Saved,
    octree: &mut Octree<F>,
    kept: &Kept,
    counts: &[SourceCount],
    inserted: u64,
) -> Result<(), PhaseError>
    requires fresh { saved.old.lines ≡ lines_of saved.old.current }
    requires newest { ¬ IsOfLayout Old saved.old.current }
    requires each { HasEachNodeOf saved.old.current (nodes_of F.held octree.old) }
    requires whole { IsWhole F.held octree.old }
    requires agrees { AgreesWithFiles F.held F.faults F.keeps octree.old }
    requires rules { rules_of octree.old ≡ meta.rules_of kept.now }
    requires holds { length (points_of F.held octree.old) ≡ inserted }
    requires given { AreGiven kept.now counts.now inserted }
    requires further { GoesFurther saved.old.current inserted (length kept.now.inputs) }
    ensures saved { OnOk result
        (IsSaved saved.old saved.new kept.now counts.now inserted (nodes_of F.held octree.old)) }
    ensures refused { OnErr result (saved.new.current ≡ saved.old.current) }

    // On success, if spill files report their contents and still nodes are the same, the checkpoint names the tiles of the
    // octree's nodes. If these are the nodes of some points' sampling, none of its tiles is damaged.
    ensures tiles { IsTelling F.held → (all : Files) → T.files store.old ≡ Some all
        → StillAreSame saved.old.current (nodes_of F.held octree.old) all
        → OnOk result (Tells (λ now. OfCurrent saved.new.current
        (λ (c : c.Checkpoint). NameTiles New now (nodes_of F.held octree.old) c.nodes)) (T.files store.new)) }
    ensures intact { IsTelling F.held → (all : Files) → T.files store.old ≡ Some all
        → StillAreSame saved.old.current (nodes_of F.held octree.old) all
        → (points : List p.Point) → CanBeSampled (meta.rules_of kept.now) points
        → AreSampled (meta.rules_of kept.now) points (nodes_of F.held octree.old)
        → OnOk result (Tells (HasNoDamage saved.new.current) (T.files store.new)) }

    // At every moment the current checkpoint is kept with its tiles, or the next one is the current one. That one names
    // the tiles of the octree's nodes, if still nodes are the same at the start.
    ensures goes_on { IsTelling F.held → StandsFor saved.old (T.files store.old) (T.may_leave store.old)
        → Moves T.files T.may_leave T.moment T.image_since
        (GoesOn saved.old kept.now counts.now inserted (nodes_of F.held octree.old)) store.old store.new }
    ensures stands { OnOk result (StandsFor saved.old (T.files store.old) (T.may_leave store.old)
        → StandsFor saved.new (T.files store.new) (T.may_leave store.new)) }

    // Only tiles of nodes are put that the current checkpoint does not have as they are.
    ensures only_changed { IsTelling F.held → (stands : StandsFor saved.old (T.files store.old) (T.may_leave store.old))
        → Moves T.files T.may_leave T.moment T.image_since
        (SavesChanged saved.old.current (nodes_of F.held octree.old) stands.all) store.old store.new }
    ensures settled { OnOk result (IsSettled (T.files store.new) (T.may_leave store.new)) }

    // A tile is reported as damaged only if the current checkpoint, which is kept, names it, and it is damaged. If no tile
    // is, the call is refused only for the store itself or for a spill file. No tile of sound files is damaged.
    ensures only { IfErr result IsSaveFault }
    ensures damaged { (key : VoxelKey) → result ≡ Err (PhaseError.Save (save.TileDamaged key))
        → StandsFor saved.old (T.files store.old) (T.may_leave store.old)
        → StepsBy (Keeps saved.old.current) (T.files store.old) (T.files store.new)
        × HasLine saved.old.current key × Tells (IsDamaged saved.old.current key) (T.files store.new) }
    ensures undamaged { (all : Files) → T.files store.old ≡ Some all → HasNoDamage saved.old.current all
        → IfErr result IsDevices }
    ensures sound { (shelf all : Files) → T.files store.old ≡ Some all → sound.IsSound shelf all
        → StandsFor saved.old (T.files store.old) (T.may_leave store.old) → IfErr result IsDevices }
    ensures cause { HasCauseOf (PhaseError.Save save.StoreFault) (T.faults store.old) (T.faults store.new) result }

    // A spill file is reported as failed only if one has. If they report their contents, none of an unbroken octree of
    // some points' sampling is reported as damaged.
    ensures spill { result ≡ Err PhaseError.SpillFault
        → 0 < trees.faults_of F.faults (trees.nodes_of (forest_of octree.new)) }
    ensures no_damage { (points : List p.Point) → CanBeSampled (meta.rules_of kept.now) points
        → AreSampled (meta.rules_of kept.now) points (nodes_of F.held octree.old) → IsUnbroken octree.old
        → IsTelling F.held → (kept found at : ℕ) → result ≢ Err (PhaseError.SpillDamaged kept found at) }

    // The octree is read, and its nodes stay as they are.
    ensures same { nodes_of F.held octree.new ≡ nodes_of F.held octree.old }
    ensures linked { IsLinked F.held octree.old → IsLinked F.held octree.new }
    ensures agrees { AgreesWithFiles F.held F.faults F.keeps octree.new }
    ensures unbroken { OnOk result (IsUnbroken octree.old → IsUnbroken octree.new) }
    ensures rules { rules_of octree.new ≡ rules_of octree.old }
    ensures most { most_of octree.new ≡ most_of octree.old }
    ensures cache { cache_of octree.new ≡ cache_of octree.old }
{
    sound_steps_law();
    octree.len();
    begin(alloc, store, saved)?;
    save_nodes(alloc, store, saved, octree)?;
    lines_law();
    body_once_law();
    tile_once_law();
    commit(alloc, store, saved, kept, counts, inserted)?;
    Ok(())
}
