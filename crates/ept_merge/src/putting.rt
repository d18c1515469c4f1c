//! The nodes of the parts, put for the next checkpoint.

ghost use Rattle.std.specs.Prelude.{◌≡◌, ◌≢◌, ◌<◌, ◌++◌, ◌∷◌, [], None, Some, IfErr, OnOk, OnErr, map};
ghost use Rattle.ept_base.specs.Causes.{HasCauseOf};
ghost use Rattle.ept_base.specs.Files.{Files, SameFiles, Tells};
ghost use Rattle.ept_base.specs.Moves.{Moves};
ghost use Rattle.ept_point.specs.declared.layout.Layout.TheVariants.{New};
ghost use Rattle.ept_space.specs.VoxelKey.{root, AreAscending};
ghost use Rattle.ept_meta.specs.Output as meta;
ghost use Rattle.ept_save.specs.Current.{Keeps};
ghost use Rattle.ept_save.specs.Lines.{with_line};
ghost use Rattle.ept_save.specs.View.{StandsFor};
ghost use Rattle.ept_ckpt.specs.Octree as octree;
ghost use Rattle.ept_ckpt.specs.Versions.{layout_of};
ghost use Rattle.ept_merge.specs.Errors.{IsOfTiles};
ghost use Rattle.ept_merge.specs.Joining.{keys_of, roots_of};
ghost use Rattle.ept_merge.specs.Putting.{merged_line, AreIntact, IsLow, AreLow, AreOfRules, IsNodesFault, ChangesTiles, PutsRoot, PutsAll, IsTaken, AreTaken, LoadsAll};

use crate::bodies::PartBody;
use crate::error::MergeError;
use crate::joining::PartNode;
use crate::root::{in_order, open_octants, root_of};
use crate::tiles::load_node;
use ept_base::Store;
use ept_ckpt::Checkpoint;
use ept_point::Point;
use ept_save::{Saved, save_tile};
use ept_space::{Key, Rules};
use std::alloc::Global;

/// Judges the tiles of all nodes. Nothing is put.
///
/// # Errors
///
/// `PartDamaged` for the first damaged tile: of the roots in the order of the parts, and then of the other nodes.
pub(crate) fn judge<T: Store>(
    alloc: Global,
    store: &mut T,
    rules: &Rules,
    parts: &[PartBody],
    nodes: &[PartNode],
) -> Result<(), MergeError>
    requires some { parts.now ≢ [] }
    requires rules { AreOfRules rules.now parts.now }
    requires deep { 0 < rules.now.cube.depth }
    requires low { AreLow rules.now nodes.now }
    ensures intact { OnOk result (Tells (λ all. AreIntact rules.now all (roots_of parts.now ++ nodes.now)) (T.files store.old)) }
    ensures refused { IfErr result (λ e. Tells (λ all. IsNodesFault rules.now all (roots_of parts.now ++ nodes.now) e)
        (T.files store.old)) }
    ensures any_moment { Moves T.files T.may_leave T.moment T.image_since SameFiles store.old store.new }
    ensures only { IfErr result IsOfTiles }
    ensures cause { HasCauseOf MergeError.StoreFault (T.faults store.old) (T.faults store.new) result }
{
    let like = &parts[0].body;
    let mut points = Vec::new(alloc);
    load_roots(alloc, store, like, rules, parts, &mut points)?;
    judge_below(alloc, store, like, rules, nodes)
}

// Judges the tiles of the nodes below the root.
fn judge_below<T: Store>(
    alloc: Global,
    store: &mut T,
    like: &Checkpoint,
    rules: &Rules,
    nodes: &[PartNode],
) -> Result<(), MergeError>
    requires newest { layout_of like.now.version ≡ New }
    requires rules { rules.now ≡ meta.rules_of like.now.kept }
    requires deep { 0 < rules.now.cube.depth }
    requires low { AreLow rules.now nodes.now }
    ensures intact { OnOk result (Tells (λ all. AreIntact rules.now all nodes.now) (T.files store.old)) }
    ensures refused { IfErr result (λ e. Tells (λ all. IsNodesFault rules.now all nodes.now e) (T.files store.old)) }
    ensures any_moment { Moves T.files T.may_leave T.moment T.image_since SameFiles store.old store.new }
    ensures only { IfErr result IsOfTiles }
    ensures cause { HasCauseOf MergeError.StoreFault (T.faults store.old) (T.faults store.new) result }
{
    let mut points = Vec::new(alloc);
    for node in nodes {
        points.clear();
        load_node(alloc, store, like, rules, node, &mut points)?;
    }
    Ok(())
}

/// Puts all nodes of the parts: the root, joined from those of the parts, and the nodes below it, one at a time.
pub(crate) fn put_nodes<T: Store>(
    alloc: Global,
    store: &mut T,
    saved: &mut Saved,
    rules: &Rules,
    parts: &[PartBody],
    nodes: &[PartNode],
) -> Result<(), MergeError>
    requires some { parts.now ≢ [] }
    requires rules { AreOfRules rules.now parts.now }
    requires deep { 0 < rules.now.cube.depth }
    requires low { AreLow rules.now nodes.now }
    requires ascend { AreAscending (root ∷ keys_of nodes.now) }
    requires none { saved.old.current ≡ None }
    requires first { saved.old.lines ≡ [] }
    ensures puts { OnOk result (PutsAll rules.now parts.now nodes.now (T.files store.old) (T.files store.new) saved.new.lines) }
    ensures stays { OnOk result (saved.new ≡ record saved.old { lines = saved.new.lines }) }
    ensures intact { OnOk result (Tells (λ all. AreIntact rules.now all (roots_of parts.now ++ nodes.now)) (T.files store.old)) }
    ensures refused { IfErr result (λ e. Tells (λ all. IsNodesFault rules.now all (roots_of parts.now ++ nodes.now) e)
        (T.files store.old)) }
    ensures keeps { Moves T.files T.may_leave T.moment T.image_since (Keeps None) store.old store.new }
    ensures stands { StandsFor saved.old (T.files store.old) (T.may_leave store.old)
        → StandsFor saved.new (T.files store.new) (T.may_leave store.new) }
    ensures only { IfErr result IsOfTiles }
    ensures cause { HasCauseOf MergeError.StoreFault (T.faults store.old) (T.faults store.new) result }
{
    put_root(alloc, store, saved, rules, parts)?;
    put_below(alloc, store, saved, &parts[0].body, rules, nodes)?;
    Ok(())
}

// Puts the root, joined from those of the parts.
fn put_root<T: Store>(
    alloc: Global,
    store: &mut T,
    saved: &mut Saved,
    rules: &Rules,
    parts: &[PartBody],
) -> Result<(), MergeError>
    requires some { parts.now ≢ [] }
    requires rules { AreOfRules rules.now parts.now }
    requires deep { 0 < rules.now.cube.depth }
    requires none { saved.old.current ≡ None }
    requires first { saved.old.lines ≡ [] }
    ensures puts { OnOk result (PutsRoot rules.now parts.now (T.files store.old) saved.old saved.new (T.files store.new)) }
    ensures intact { OnOk result (Tells (λ all. AreIntact rules.now all (roots_of parts.now)) (T.files store.old)) }
    ensures refused { IfErr result (λ e. Tells (λ all. IsNodesFault rules.now all (roots_of parts.now) e) (T.files store.old)) }
    ensures unchanged { OnErr result (saved.new ≡ saved.old) }
    ensures tiles { Moves T.files T.may_leave T.moment T.image_since (ChangesTiles (root ∷ [])) store.old store.new }
    ensures keeps { Moves T.files T.may_leave T.moment T.image_since (Keeps None) store.old store.new }
    ensures stands { StandsFor saved.old (T.files store.old) (T.may_leave store.old)
        → StandsFor saved.new (T.files store.new) (T.may_leave store.new) }
    ensures only { IfErr result IsOfTiles }
    ensures cause { HasCauseOf MergeError.StoreFault (T.faults store.old) (T.faults store.new) result }
{
    let like = &parts[0].body;
    let mut points = Vec::new(alloc);
    load_roots(alloc, store, like, rules, parts, &mut points)?;
    let points = in_order(points)?;
    let mask = open_octants(parts);
    save_tile(alloc, store, saved, Key::ROOT, mask, points.as_slice())?;
    Ok(())
}

// Puts the nodes below the root, one at a time.
fn put_below<T: Store>(
    alloc: Global,
    store: &mut T,
    saved: &mut Saved,
    like: &Checkpoint,
    rules: &Rules,
    nodes: &[PartNode],
) -> Result<(), MergeError>
    requires newest { layout_of like.now.version ≡ New }
    requires rules { rules.now ≡ meta.rules_of like.now.kept }
    requires deep { 0 < rules.now.cube.depth }
    requires low { AreLow rules.now nodes.now }
    requires none { saved.old.current ≡ None }
    requires ascend { AreAscending (octree.keys_of saved.old.lines ++ keys_of nodes.now) }
    ensures lines { OnOk result (saved.new ≡ record saved.old { lines = saved.old.lines ++ map merged_line nodes.now }) }
    ensures taken { OnOk result ((start : Files) → T.files store.old ≡ Some start
        → Tells (λ now. AreTaken start now nodes.now) (T.files store.new)) }
    ensures intact { OnOk result (Tells (λ all. AreIntact rules.now all nodes.now) (T.files store.old)) }
    ensures refused { IfErr result (λ e. Tells (λ all. IsNodesFault rules.now all nodes.now e) (T.files store.old)) }
    ensures tiles { Moves T.files T.may_leave T.moment T.image_since (ChangesTiles (keys_of nodes.now)) store.old store.new }
    ensures keeps { Moves T.files T.may_leave T.moment T.image_since (Keeps None) store.old store.new }
    ensures stands { StandsFor saved.old (T.files store.old) (T.may_leave store.old)
        → StandsFor saved.new (T.files store.new) (T.may_leave store.new) }
    ensures only { IfErr result IsOfTiles }
    ensures cause { HasCauseOf MergeError.StoreFault (T.faults store.old) (T.faults store.new) result }
{
    let mut points = Vec::new(alloc);
    for node in nodes {
        points.clear();
        put_node(alloc, store, saved, like, rules, node, &mut points)?;
    }
    Ok(())
}

// Puts a node below the root.
fn put_node<T: Store>(
    alloc: Global,
    store: &mut T,
    saved: &mut Saved,
    like: &Checkpoint,
    rules: &Rules,
    node: &PartNode,
    points: &mut Vec<Point>,
) -> Result<(), MergeError>
    requires newest { layout_of like.now.version ≡ New }
    requires rules { rules.now ≡ meta.rules_of like.now.kept }
    requires deep { 0 < rules.now.cube.depth }
    requires low { IsLow rules.now node.now }
    requires none { saved.old.current ≡ None }
    requires empty { points.old.items ≡ [] }
    ensures line { OnOk result (saved.new ≡ record saved.old { lines = with_line (merged_line node.now) saved.old.lines }) }
    ensures taken { OnOk result ((start : Files) → T.files store.old ≡ Some start
        → Tells (λ now. IsTaken start now node.now) (T.files store.new)) }
    ensures intact { OnOk result (Tells (λ all. AreIntact rules.now all (node.now ∷ [])) (T.files store.old)) }
    ensures refused { IfErr result (λ e. Tells (λ all. IsNodesFault rules.now all (node.now ∷ []) e) (T.files store.old)) }
    ensures unchanged { OnErr result (saved.new ≡ saved.old) }
    ensures tiles { Moves T.files T.may_leave T.moment T.image_since
        (ChangesTiles (node.now.line.key ∷ [])) store.old store.new }
    ensures keeps { Moves T.files T.may_leave T.moment T.image_since (Keeps None) store.old store.new }
    ensures stands { StandsFor saved.old (T.files store.old) (T.may_leave store.old)
        → StandsFor saved.new (T.files store.new) (T.may_leave store.new) }
    ensures only { IfErr result IsOfTiles }
    ensures cause { HasCauseOf MergeError.StoreFault (T.faults store.old) (T.faults store.new) result }
{
    load_node(alloc, store, like, rules, node, points)?;
    save_tile(
        alloc,
        store,
        saved,
        node.line.key,
        node.line.mask,
        points.as_slice(),
    )?;
    Ok(())
}

// Appends the points of the parts' roots.
fn load_roots<T: Store>(
    alloc: Global,
    store: &mut T,
    like: &Checkpoint,
    rules: &Rules,
    parts: &[PartBody],
    out: &mut Vec<Point>,
) -> Result<(), MergeError>
    requires newest { layout_of like.now.version ≡ New }
    requires rules { rules.now ≡ meta.rules_of like.now.kept }
    requires deep { 0 < rules.now.cube.depth }
    ensures loads { OnOk result (LoadsAll rules.now (roots_of parts.now) (T.files store.old) out.old.items out.new.items) }
    ensures intact { OnOk result (Tells (λ all. AreIntact rules.now all (roots_of parts.now)) (T.files store.old)) }
    ensures refused { IfErr result (λ e. Tells (λ all. IsNodesFault rules.now all (roots_of parts.now) e) (T.files store.old)) }
    ensures any_moment { Moves T.files T.may_leave T.moment T.image_since SameFiles store.old store.new }
    ensures only { IfErr result IsOfTiles }
    ensures cause { HasCauseOf MergeError.StoreFault (T.faults store.old) (T.faults store.new) result }
{
    for part in parts {
        let root = root_of(part);
        load_node(alloc, store, like, rules, &root, out)?;
    }
    Ok(())
}
