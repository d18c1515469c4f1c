//! The octree of the current checkpoint.

ghost use Rattle.std.specs.Prelude.{◌≡◌, ◌≢◌, ◌≤◌, ◌<◌, ◌⊎◌, ◌∷◌, [], ℕ, Some, None, Err, IfErr, OnOk, true, false, take, length};
ghost use Rattle.std.specs.Option.{option_map};
ghost use Rattle.std.specs.BTreeMap.{insert_entry};
ghost use Rattle.ept_base.specs.Causes.{HasCauseOf};
ghost use Rattle.ept_base.specs.Files.{Files, SameFiles, Tells};
ghost use Rattle.ept_base.specs.Moves.{Moves, SameImages};
ghost use Rattle.ept_space.specs.VoxelKey.{VoxelKey, root, key_cmp};
ghost use Rattle.ept_ckpt.specs.declared.letter.Letter as l;
ghost use Rattle.ept_ckpt.specs.declared.checkpoint.Checkpoint as c;
ghost use Rattle.ept_ckpt.specs.Versions.{layout_of};
ghost use Rattle.ept_forest.specs.Slots as trees;
ghost use Rattle.ept_meta.specs.Output as meta;
ghost use Rattle.ept_node.specs.Shown.{empty_node, IsTelling};
ghost use Rattle.ept_save.specs.declared.error.SaveError.TheVariants as save;
ghost use Rattle.ept_save.specs.Current.{HasCurrent};
ghost use Rattle.ept_save.specs.Loading.{HasLine, AreOfLine, HasNoDamage};
ghost use Rattle.ept_save.specs.Opening.{lines_of};
ghost use Rattle.ept_save.specs.Sound.{IsSound};
ghost use Rattle.ept_save.specs.View as view;
ghost use Rattle.ept_save.specs.View.{StandsFor};
ghost use Rattle.ept_octree.specs.Adding.{filled, IsFree, HasRoomFor};
ghost use Rattle.ept_octree.specs.Octree.{forest_of, rules_of, most_of, cache_of, residents_of, nodes_of, IsWhole, IsLinked, IsUnbroken, AgreesWithFiles, AreAlike};
ghost use Rattle.ept_octree_ckpt.specs.Loaded.{OfCurrent, AreIntact, IsFirstDamaged, IsLoadFault};
ghost use Rattle.ept_octree_ckpt.specs.Lines.{TellNodes, NameTiles};

use crate::error::PhaseError;
use crate::laws::lines_law;
use ept_base::{SpillFile, Store};
use ept_ckpt::{Checkpoint, NodeLine};
use ept_octree::{AddError, Octree};
use ept_point::Point;
use ept_save::{SaveError, Saved, load_tile, sound_steps_law};
use ept_space::Key;
use std::alloc::Global;

/// Brings the nodes of the current checkpoint into an octree of no points, whose root is in memory, and links them. If
/// there is no current checkpoint, it stays that of no points. Nothing is put into the store. Nodes past those that may be
/// in memory go to their spill files.
///
/// # Errors
///
/// The nodes are taken in key order, the slot of each before its tile is read. `TooManyNodes` comes at the first for which
/// there is no slot. Then there are the refusals of [`load_tile`](ept_save::load_tile), and `SpillFault` if the spill file
/// of a node fails.
/// The octree is of no use then.
pub fn load_octree<T: Store, F: SpillFile>(
    alloc: Global,
    store: &mut T,
    saved: &Saved,
    octree: &mut Octree<F>,
) -> Result<(), PhaseError>
    requires new { nodes_of F.held octree.old ≡ (root, empty_node root (rules_of octree.old)) ∷ [] }
    requires rules { OfCurrent saved.now.current (λ (c : c.Checkpoint). rules_of octree.old ≡ meta.rules_of c.kept) }
    requires agrees { AgreesWithFiles F.held F.faults F.keeps octree.old }
    requires here { 0 < residents_of octree.old }
    requires unbroken { IsUnbroken octree.old }
    ensures rules { rules_of octree.new ≡ rules_of octree.old }
    ensures most { most_of octree.new ≡ most_of octree.old }
    ensures cache { cache_of octree.new ≡ cache_of octree.old }
    ensures whole { OnOk result (IsWhole F.held octree.new) }
    ensures linked { OnOk result (IsLinked F.held octree.new) }
    ensures agrees { AgreesWithFiles F.held F.faults F.keeps octree.new }
    ensures unbroken { OnOk result (IsUnbroken octree.new) }

    // Whatever the store and the spill files report, the lines describe the nodes. If both report their contents, the
    // lines name their tiles, in the layout of the checkpoint.
    ensures told { OnOk result (OfCurrent saved.now.current
        (λ (c : c.Checkpoint). TellNodes (nodes_of F.held octree.new) c.nodes)) }
    ensures tiles { IsTelling F.held → OnOk result (OfCurrent saved.now.current
        (λ (c : c.Checkpoint). Tells (λ all. NameTiles (layout_of c.version) all (nodes_of F.held octree.new) c.nodes) (T.files store.old))) }
    ensures begun { saved.now.current ≡ None → OnOk result (nodes_of F.held octree.new ≡ nodes_of F.held octree.old) }

    // On success each line has a slot, and no tile is damaged. A tile is reported as damaged only if its line is the first
    // that names a damaged one, among those that have slots. `TooManyNodes` comes only if a line has no slot and none of
    // those names a damaged tile. So each of the three comes just then, unless a device fails or memory runs out. No tile
    // of sound files is damaged. No spill file is read.
    ensures few { OnOk result (length (lines_of saved.now.current) ≤ most_of octree.old) }
    ensures too_many { result ≡ Err PhaseError.TooManyNodes → (most_of octree.old < length (lines_of saved.now.current))
        × Tells (AreIntact saved.now.current (take (most_of octree.old) (lines_of saved.now.current))) (T.files store.old) }
    ensures spill { result ≡ Err PhaseError.SpillFault
        → 0 < trees.faults_of F.faults (trees.nodes_of (forest_of octree.new)) }
    ensures no_damage { (kept found at : ℕ) → result ≢ Err (PhaseError.SpillDamaged kept found at) }
    ensures damaged { (key : VoxelKey) → result ≡ Err (PhaseError.Save (save.TileDamaged key))
        → HasLine saved.now.current key
        × Tells (IsFirstDamaged saved.now.current (most_of octree.old) key) (T.files store.old) }
    ensures undamaged { OnOk result (Tells (HasNoDamage saved.now.current) (T.files store.old)) }
    ensures only { IfErr result IsLoadFault }
    ensures sound { (shelf all : Files) → T.files store.old ≡ Some all → IsSound shelf all
        → HasCurrent saved.now.current all → (key : VoxelKey) → result ≢ Err (PhaseError.Save (save.TileDamaged key)) }
    ensures cause { HasCauseOf (PhaseError.Save save.StoreFault) (T.faults store.old) (T.faults store.new) result }

    // What is read and every image are as before, and the store still matches what it matched.
    ensures images { SameImages (T.may_leave store.old) (T.may_leave store.new) }
    ensures any_moment { Moves T.files T.may_leave T.moment T.image_since SameFiles store.old store.new }
    ensures stands { (v : view.View) → StandsFor v (T.files store.old) (T.may_leave store.old)
        → StandsFor v (T.files store.new) (T.may_leave store.new) }
{
    match saved.current() {
        Some(checkpoint) => {
            add_nodes(alloc, store, saved, checkpoint, octree)?;
            lines_law();
            octree.link();
            Ok(())
        }
        None => {
            octree.link();
            Ok(())
        }
    }
}

// Adds the nodes of this checkpoint, which is the current one, to an octree of no points.
fn add_nodes<T: Store, F: SpillFile>(
    alloc: Global,
    store: &mut T,
    saved: &Saved,
    checkpoint: &Checkpoint,
    octree: &mut Octree<F>,
) -> Result<(), PhaseError>
    requires current { option_map (λ (at : l.Letter × c.Checkpoint). at.1) saved.now.current ≡ Some checkpoint.now }
    requires new { nodes_of F.held octree.old ≡ (root, empty_node root (rules_of octree.old)) ∷ [] }
    requires rules { rules_of octree.old ≡ meta.rules_of checkpoint.now.kept }
    requires agrees { AgreesWithFiles F.held F.faults F.keeps octree.old }
    requires here { 0 < residents_of octree.old }
    requires unbroken { IsUnbroken octree.old }
    ensures rules { rules_of octree.new ≡ rules_of octree.old }
    ensures most { most_of octree.new ≡ most_of octree.old }
    ensures cache { cache_of octree.new ≡ cache_of octree.old }
    ensures agrees { AgreesWithFiles F.held F.faults F.keeps octree.new }
    ensures unbroken { OnOk result (IsUnbroken octree.new) }
    ensures told { OnOk result (TellNodes (nodes_of F.held octree.new) checkpoint.now.nodes) }
    ensures tiles { OnOk result (IsTelling F.held → Tells
        (λ all. NameTiles (layout_of checkpoint.now.version) all (nodes_of F.held octree.new) checkpoint.now.nodes) (T.files store.old)) }
    ensures few { OnOk result (length checkpoint.now.nodes ≤ most_of octree.old) }
    ensures too_many { result ≡ Err PhaseError.TooManyNodes → (most_of octree.old < length checkpoint.now.nodes)
        × Tells (AreIntact saved.now.current (take (most_of octree.old) checkpoint.now.nodes)) (T.files store.old) }
    ensures spill { result ≡ Err PhaseError.SpillFault
        → 0 < trees.faults_of F.faults (trees.nodes_of (forest_of octree.new)) }
    ensures damaged { (key : VoxelKey) → result ≡ Err (PhaseError.Save (save.TileDamaged key))
        → HasLine saved.now.current key
        × Tells (IsFirstDamaged saved.now.current (most_of octree.old) key) (T.files store.old) }
    ensures undamaged { OnOk result (Tells (HasNoDamage saved.now.current) (T.files store.old)) }
    ensures only { IfErr result IsLoadFault }
    ensures sound { (shelf all : Files) → T.files store.old ≡ Some all → IsSound shelf all
        → HasCurrent saved.now.current all → (key : VoxelKey) → result ≢ Err (PhaseError.Save (save.TileDamaged key)) }
    ensures cause { HasCauseOf (PhaseError.Save save.StoreFault) (T.faults store.old) (T.faults store.new) result }
    ensures images { SameImages (T.may_leave store.old) (T.may_leave store.new) }
    ensures any_moment { Moves T.files T.may_leave T.moment T.image_since SameFiles store.old store.new }
{
    sound_steps_law();
    // The root has a slot.
    octree.len();
    let mut points = Vec::new(alloc);
    for line in checkpoint.nodes.as_slice() {
        if lacks_slot(octree, &line.key) {
            return Err(PhaseError::TooManyNodes);
        }
        points.clear();
        load_tile(alloc, store, saved, line.key, &mut points)?;
        add_node(alloc, octree, line, &points)?;
    }
    Ok(())
}

// Whether there is no slot for the node of a key, of which there is none yet. That of the root is there from the beginning.
fn lacks_slot<F: SpillFile>(octree: &Octree<F>, key: &Key) -> bool
    ensures full { result ≡ true → (key.now ≢ root) × (most_of octree.now ≤ length (nodes_of F.held octree.now)) }
    ensures room { result ≡ false → key.now ≢ root → length (nodes_of F.held octree.now) < most_of octree.now }
    ensures few { length (nodes_of F.held octree.now) ≤ most_of octree.now }
{
    let count = octree.len();
    *key != Key::ROOT && count == u64::from(octree.most())
}

// Adds the node of a line, of which these are the points.
fn add_node<F: SpillFile>(
    alloc: Global,
    octree: &mut Octree<F>,
    line: &NodeLine,
    points: &[Point],
) -> Result<(), PhaseError>
    requires low { line.now.key.depth ≤ (rules_of octree.old).cube.depth }
    requires free { IsFree line.now.key (nodes_of F.held octree.old) }
    requires room { HasRoomFor line.now.key octree.old }
    requires are { AreOfLine (rules_of octree.old) line.now points.now }
    requires agrees { AgreesWithFiles F.held F.faults F.keeps octree.old }
    requires here { line.now.key ≡ root → 0 < residents_of octree.old }
    requires unbroken { IsUnbroken octree.old }
    ensures ok { OnOk result (AreAlike (insert_entry key_cmp (nodes_of F.held octree.old) line.now.key
        (filled line.now.key (rules_of octree.old) line.now.mask points.now)) (nodes_of F.held octree.new)) }
    ensures told { OnOk result (IsTelling F.held → nodes_of F.held octree.new ≡ insert_entry key_cmp (nodes_of F.held octree.old)
        line.now.key (filled line.now.key (rules_of octree.old) line.now.mask points.now)) }
    ensures room { OnOk result (residents_of octree.new < cache_of octree.new) }
    ensures agrees { AgreesWithFiles F.held F.faults F.keeps octree.new }
    ensures unbroken { OnOk result (IsUnbroken octree.new) }
    ensures only { IfErr result (λ e. (e ≡ PhaseError.TooManyNodes) ⊎ (e ≡ PhaseError.SpillFault)
        ⊎ (e ≡ PhaseError.Save save.Memory)) }
    ensures too_many { result ≡ Err PhaseError.TooManyNodes
        → (line.now.key ≢ root) × (most_of octree.old ≤ length (nodes_of F.held octree.old)) }
    ensures spill { result ≡ Err PhaseError.SpillFault
        → 0 < trees.faults_of F.faults (trees.nodes_of (forest_of octree.new)) }
    ensures rules { rules_of octree.new ≡ rules_of octree.old }
    ensures most { most_of octree.new ≡ most_of octree.old }
    ensures cache { cache_of octree.new ≡ cache_of octree.old }
{
    match octree.add(alloc, line.key, line.mask, points) {
        Ok(()) => Ok(()),
        Err(AddError::Full) => Err(PhaseError::TooManyNodes),
        Err(AddError::SpillFault) => Err(PhaseError::SpillFault),
        Err(AddError::Memory) => Err(PhaseError::Save(SaveError::Memory)),
        Err(AddError::Damaged(_)) => unreachable!(),
    }
}
