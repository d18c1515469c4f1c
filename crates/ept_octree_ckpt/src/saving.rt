//! An octree as the next checkpoint.

ghost use Rattle.std.specs.Prelude.{◌≡◌, ◌≢◌, ◌<◌, ◌⊎◌, ℕ, List, true, false, Some, Err, Ok, IfErr, OnOk, OnErr};
ghost use Rattle.ept_base.specs.Causes.{HasCauseOf};
ghost use Rattle.ept_base.specs.Files.{Files, SameFiles, SameBut, Tells};
ghost use Rattle.ept_base.specs.Moves.{Moves, SameImages};
ghost use Rattle.ept_point.specs.declared.point.Point as p;
ghost use Rattle.ept_space.specs.VoxelKey.{VoxelKey};
ghost use Rattle.ept_sample.specs.SamplingLaws.{CanBeSampled};
ghost use Rattle.ept_node.specs.Shown.{IsTelling};
ghost use Rattle.ept_save.specs.declared.error.SaveError.TheVariants as save;
ghost use Rattle.ept_save.specs.Names.{work_tile_name};
ghost use Rattle.ept_save.specs.Current.{HasCurrent, Keeps};
ghost use Rattle.ept_save.specs.Errors.{IsStores};
ghost use Rattle.ept_save.specs.Lines.{free_letter};
ghost use Rattle.ept_point.specs.declared.layout.Layout.TheVariants.{Old, New};
ghost use Rattle.ept_save.specs.Tiles.{IsOfLayout};
ghost use Rattle.ept_save.specs.Loading.{HasLine, HasTile, IsDamaged, HasNoDamage};
ghost use Rattle.ept_save.specs.Opening.{lines_of};
ghost use Rattle.ept_save.specs.Sound.{IsSound};
ghost use Rattle.ept_save.specs.View as view;
ghost use Rattle.ept_save.specs.View.{StandsFor};
ghost use Rattle.ept_octree_ckpt.specs.Lines.{TellNodes, NameTiles};
ghost use Rattle.ept_forest.specs.Slots as trees;
ghost use Rattle.ept_table.specs.Octree.{AreSampled};
ghost use Rattle.ept_octree.specs.Octree.{forest_of, rules_of, most_of, cache_of, nodes_of, IsLinked, IsUnbroken, AgreesWithFiles};
ghost use Rattle.ept_octree_ckpt.specs.Errors.{IsDevices};
ghost use Rattle.ept_octree_ckpt.specs.Saving.{HasNode, IsTold, SavesNode, StillAreSame, AreKnown, HasEachNodeOf, PutsChanged, IsSaveFault};

use crate::error::PhaseError;
use crate::still::grown_keys;
use ept_base::{SpillFile, Store};
use ept_octree::Octree;
use ept_point::Point;
use ept_save::{SaveError, Saved, load_tile, save_tile, sound_steps_law};
use ept_space::Key;
use std::alloc::Global;

/// Saves a node for the next checkpoint: notes its line and puts its tile, unless the current checkpoint has the node as
/// it is. The number of points and the open octants are compared for that, and the tile if these are equal.
///
/// # Errors
///
/// Those of [`load_tile`] and of [`save_tile`].
pub fn save_node<T: Store>(
    alloc: Global,
    store: &mut T,
    saved: &mut Saved,
    key: Key,
    mask: u8,
    points: &[Point],
) -> Result<(), SaveError>
    requires newest { ¬ IsOfLayout Old saved.old.current }
    ensures node { OnOk result (SavesNode saved.old saved.new key mask points.now (T.files store.new)) }
    ensures unchanged { OnErr result (saved.new ≡ saved.old) }

    // Nothing is put, or the current checkpoint does not have the node as it is. At every moment only a version of the
    // tile changes, and the current checkpoint stays.
    ensures puts { (all : Files) → T.files store.old ≡ Some all
        → Moves T.files T.may_leave T.moment T.image_since SameFiles store.old store.new
        ⊎ (¬ HasNode saved.old.current key mask points.now all × Moves T.files T.may_leave T.moment T.image_since
        (SameBut (work_tile_name (free_letter saved.old.current key) key)) store.old store.new) }
    ensures one_tile { Moves T.files T.may_leave T.moment T.image_since
        (SameBut (work_tile_name (free_letter saved.old.current key) key)) store.old store.new }
    ensures keeps { Moves T.files T.may_leave T.moment T.image_since
        (Keeps saved.old.current) store.old store.new }
    ensures stands { StandsFor saved.old (T.files store.old) (T.may_leave store.old)
        → StandsFor saved.new (T.files store.new) (T.may_leave store.new) }

    // If no tile that the current checkpoint names is damaged, the call is refused only for the store itself. No tile of
    // sound files is damaged.
    ensures only { IfErr result (λ e. (e ≡ SaveError.TileDamaged key) ⊎ IsStores e) }
    ensures damaged { result ≡ Err (SaveError.TileDamaged key)
        → HasLine saved.old.current key × Tells (IsDamaged saved.old.current key) (T.files store.old) }
    ensures undamaged { (all : Files) → T.files store.old ≡ Some all → HasNoDamage saved.old.current all
        → IfErr result IsStores }
    ensures sound { (shelf all : Files) → T.files store.old ≡ Some all → IsSound shelf all
        → HasCurrent saved.old.current all → IfErr result IsStores }
    ensures cause { HasCauseOf SaveError.StoreFault (T.faults store.old) (T.faults store.new) result }
{
    if has_node(alloc, store, saved, key, mask, points)? {
        return Ok(());
    }
    save_tile(alloc, store, saved, key, mask, points)
}

// Whether the current checkpoint has the node as it is.
fn has_node<T: Store>(
    alloc: Global,
    store: &mut T,
    saved: &Saved,
    key: Key,
    mask: u8,
    points: &[Point],
) -> Result<bool, SaveError>
    requires newest { ¬ IsOfLayout Old saved.now.current }
    ensures told { result ≡ Ok true → IsTold saved.now.current key mask points.now }
    ensures has { result ≡ Ok true → Tells (HasNode saved.now.current key mask points.now) (T.files store.old) }
    ensures has_not { result ≡ Ok false → (all : Files) → T.files store.old ≡ Some all
        → ¬ HasNode saved.now.current key mask points.now all }
    ensures images { SameImages (T.may_leave store.old) (T.may_leave store.new) }
    ensures any_moment { Moves T.files T.may_leave T.moment T.image_since SameFiles store.old store.new }
    ensures stands { (v : view.View) → StandsFor v (T.files store.old) (T.may_leave store.old)
        → StandsFor v (T.files store.new) (T.may_leave store.new) }
    ensures only { IfErr result (λ e. (e ≡ SaveError.TileDamaged key) ⊎ IsStores e) }
    ensures damaged { result ≡ Err (SaveError.TileDamaged key)
        → HasLine saved.now.current key × Tells (IsDamaged saved.now.current key) (T.files store.old) }
    ensures undamaged { (all : Files) → T.files store.old ≡ Some all → HasNoDamage saved.now.current all
        → IfErr result IsStores }
    ensures sound { (shelf all : Files) → T.files store.old ≡ Some all → IsSound shelf all
        → HasCurrent saved.now.current all → IfErr result IsStores }
    ensures cause { HasCauseOf SaveError.StoreFault (T.faults store.old) (T.faults store.new) result }
{
    let Some(line) = saved.line(&key) else {
        return Ok(false);
    };
    if line.mask != mask || line.count != points.len() as u64 {
        return Ok(false);
    }
    has_points(alloc, store, saved, key, points)
}

// Whether the tile that the current checkpoint names for the key has these points.
fn has_points<T: Store>(
    alloc: Global,
    store: &mut T,
    saved: &Saved,
    key: Key,
    points: &[Point],
) -> Result<bool, SaveError>
    requires line { HasLine saved.now.current key }
    requires newest { ¬ IsOfLayout Old saved.now.current }
    ensures has { result ≡ Ok true → Tells (HasTile saved.now.current key points.now) (T.files store.old) }
    ensures has_not { result ≡ Ok false → (all : Files) → T.files store.old ≡ Some all
        → ¬ HasTile saved.now.current key points.now all }
    ensures images { SameImages (T.may_leave store.old) (T.may_leave store.new) }
    ensures any_moment { Moves T.files T.may_leave T.moment T.image_since SameFiles store.old store.new }
    ensures stands { (v : view.View) → StandsFor v (T.files store.old) (T.may_leave store.old)
        → StandsFor v (T.files store.new) (T.may_leave store.new) }
    ensures only { IfErr result (λ e. (e ≡ SaveError.TileDamaged key) ⊎ IsStores e) }
    ensures damaged { result ≡ Err (SaveError.TileDamaged key)
        → HasLine saved.now.current key × Tells (IsDamaged saved.now.current key) (T.files store.old) }
    ensures undamaged { (all : Files) → T.files store.old ≡ Some all → HasNoDamage saved.now.current all
        → IfErr result IsStores }
    ensures sound { (shelf all : Files) → T.files store.old ≡ Some all → IsSound shelf all
        → HasCurrent saved.now.current all → IfErr result IsStores }
    ensures cause { HasCauseOf SaveError.StoreFault (T.faults store.old) (T.faults store.new) result }
{
    let mut found = Vec::new(alloc);
    load_tile(alloc, store, saved, key, &mut found)?;
    Ok(found.as_slice() == points)
}

// Saves the nodes of an octree, among which is each that the current checkpoint has. Neither the points nor the tile of
// a still node are read: its line stays.
pub(crate) fn save_nodes<T: Store, F: SpillFile>(
    alloc: Global,
    store: &mut T,
    saved: &mut Saved,
    octree: &mut Octree<F>,
) -> Result<(), PhaseError>
    requires fresh { saved.old.lines ≡ lines_of saved.old.current }
    requires newest { ¬ IsOfLayout Old saved.old.current }
    requires each { HasEachNodeOf saved.old.current (nodes_of F.held octree.old) }
    requires agrees { AgreesWithFiles F.held F.faults F.keeps octree.old }
    ensures told { OnOk result (TellNodes (nodes_of F.held octree.old) saved.new.lines) }
    ensures tiles { IsTelling F.held → (all : Files) → T.files store.old ≡ Some all
        → StillAreSame saved.old.current (nodes_of F.held octree.old) all
        → OnOk result (Tells (λ now. NameTiles New now (nodes_of F.held octree.old) saved.new.lines) (T.files store.new)) }
    ensures known { OnOk result (AreKnown (nodes_of F.held octree.old)) }
    ensures lines { saved.new ≡ record saved.old { lines = saved.new.lines } }
    ensures only_changed { IsTelling F.held → (all : Files) → T.files store.old ≡ Some all
        → Moves T.files T.may_leave T.moment T.image_since
        (PutsChanged saved.old.current (nodes_of F.held octree.old) all) store.old store.new }
    ensures keeps { Moves T.files T.may_leave T.moment T.image_since
        (Keeps saved.old.current) store.old store.new }
    ensures stands { StandsFor saved.old (T.files store.old) (T.may_leave store.old)
        → StandsFor saved.new (T.files store.new) (T.may_leave store.new) }
    ensures only { IfErr result IsSaveFault }
    ensures damaged { (key : VoxelKey) → result ≡ Err (PhaseError.Save (save.TileDamaged key))
        → HasLine saved.old.current key × Tells (IsDamaged saved.old.current key) (T.files store.new) }
    ensures undamaged { (all : Files) → T.files store.old ≡ Some all → HasNoDamage saved.old.current all
        → IfErr result IsDevices }
    ensures sound { (shelf all : Files) → T.files store.old ≡ Some all → IsSound shelf all
        → HasCurrent saved.old.current all → IfErr result IsDevices }
    ensures spill { result ≡ Err PhaseError.SpillFault
        → 0 < trees.faults_of F.faults (trees.nodes_of (forest_of octree.new)) }
    ensures no_damage { (points : List p.Point) → CanBeSampled (rules_of octree.old) points
        → AreSampled (rules_of octree.old) points (nodes_of F.held octree.old) → IsUnbroken octree.old
        → IsTelling F.held → (kept found at : ℕ) → result ≢ Err (PhaseError.SpillDamaged kept found at) }
    ensures cause { HasCauseOf (PhaseError.Save save.StoreFault) (T.faults store.old) (T.faults store.new) result }
    ensures same { nodes_of F.held octree.new ≡ nodes_of F.held octree.old }
    ensures linked { IsLinked F.held octree.old → IsLinked F.held octree.new }
    ensures agrees { AgreesWithFiles F.held F.faults F.keeps octree.new }
    ensures unbroken { OnOk result (IsUnbroken octree.old → IsUnbroken octree.new) }
    ensures rules { rules_of octree.new ≡ rules_of octree.old }
    ensures most { most_of octree.new ≡ most_of octree.old }
    ensures cache { cache_of octree.new ≡ cache_of octree.old }
{
    sound_steps_law();
    octree.len();
    let keys = octree.keys(alloc)?;
    let grown = grown_keys(alloc, saved, octree, keys.as_slice())?;
    let mut points = Vec::new(alloc);
    for key in &keys {
        key.known();
        let mask = octree.open_mask(key);
        if !grown.contains(key) {
            continue;
        }
        points.clear();
        octree.points_into(alloc, key, &mut points)?;
        save_node(alloc, store, saved, *key, mask, &points)?;
    }
    Ok(())
}
