//! The tiles of the parts.

ghost use Rattle.std.specs.Prelude.{◌≡◌, ◌<◌, ◌≤◌, ◌^◌, ◌∷◌, ◌↔◌, [], Some, IfErr, OnOk, IsTrue, true};
ghost use Rattle.std.specs.List.{All};
ghost use Rattle.ept_base.specs.Causes.{HasCauseOf};
ghost use Rattle.ept_base.specs.Files.{SameFiles, Tells};
ghost use Rattle.ept_base.specs.Moves.{Moves};
ghost use Rattle.ept_point.specs.declared.layout.Layout.TheVariants.{New};
ghost use Rattle.ept_point.specs.declared.point.Point as p;
ghost use Rattle.ept_ckpt.specs.Versions.{layout_of};
ghost use Rattle.ept_sample.specs.Arrivals.{octant};
ghost use Rattle.ept_sample.specs.Place.{AllInCube};
ghost use Rattle.ept_grid.specs.Mask.{opened};
ghost use Rattle.ept_meta.specs.Output as meta;
ghost use Rattle.ept_save.specs.Loading.{IsDamagedUnder};
ghost use Rattle.ept_part.specs.Names.{part_tile};
ghost use Rattle.ept_merge.specs.Errors.{IsOfTiles};
ghost use Rattle.ept_merge.specs.Merging.{IsTileDamaged};
ghost use Rattle.ept_merge.specs.Putting.{IsNodesFault, Loads};

use crate::error::MergeError;
use crate::joining::PartNode;
use ept_base::Store;
use ept_ckpt::Checkpoint;
use ept_part::{is_of_part, part_tile};
use ept_point::Point;
use ept_save::{SaveError, load_line};
use ept_space::Rules;
use std::alloc::Global;

/// Appends the points of a node of a part, from its tile. One file is read, and nothing is put. The rules are those of
/// `like`, the body of one of the parts, which all keep the same.
///
/// # Errors
///
/// `PartDamaged` with the node's key if that tile is missing, malformed, or has another number of points than the
/// node's line. Or its points are those of no node of the key, or one of them lies outside the part.
pub(crate) fn load_node<T: Store>(
    alloc: Global,
    store: &mut T,
    like: &Checkpoint,
    rules: &Rules,
    node: &PartNode,
    out: &mut Vec<Point>,
) -> Result<(), MergeError>
    requires newest { layout_of like.now.version ≡ New }
    requires rules { rules.now ≡ meta.rules_of like.now.kept }
    requires deep { 0 < rules.now.cube.depth }
    requires low { node.now.line.key.depth ≤ rules.now.cube.depth }
    ensures loads { OnOk result (Loads rules.now node.now (T.files store.old) out.old.items out.new.items) }
    ensures intact { OnOk result (Tells (λ all. ¬ IsTileDamaged rules.now all node.now.octants node.now.line)
        (T.files store.old)) }
    ensures refused { IfErr result (λ e. Tells (λ all. IsNodesFault rules.now all (node.now ∷ []) e) (T.files store.old)) }
    ensures any_moment { Moves T.files T.may_leave T.moment T.image_since SameFiles store.old store.new }
    ensures only { IfErr result IsOfTiles }
    ensures cause { HasCauseOf MergeError.StoreFault (T.faults store.old) (T.faults store.new) result }
{
    rules.cube.known();
    node.line.key.known();
    let before = out.len();
    load_tile(alloc, store, like, node, out)?;
    if are_of_part(rules, node.octants, &out.as_slice()[before..]) {
        Ok(())
    } else {
        Err(damaged(node))
    }
}

// The refusal of a node's tile.
fn damaged(node: &PartNode) -> MergeError
    ensures tile { result ≡ MergeError.PartDamaged node.now.octants (Some node.now.line.key) }
    ensures byte { node.now.line.mask < 2 ^ 8 }
{
    let _mask = node.line.mask;
    MergeError::PartDamaged {
        octants: node.octants,
        key: Some(node.line.key),
    }
}

// Appends the points of a node's tile, as a build loads it.
fn load_tile<T: Store>(
    alloc: Global,
    store: &mut T,
    like: &Checkpoint,
    node: &PartNode,
    out: &mut Vec<Point>,
) -> Result<(), MergeError>
    requires newest { layout_of like.now.version ≡ New }
    requires low { node.now.line.key.depth ≤ (meta.rules_of like.now.kept).cube.depth }
    ensures loads { OnOk result (Loads (meta.rules_of like.now.kept) node.now (T.files store.old) out.old.items out.new.items) }
    ensures intact { OnOk result (Tells (λ all. ¬ IsDamagedUnder New (meta.rules_of like.now.kept)
        (part_tile node.now.octants node.now.line.key) node.now.line all) (T.files store.old)) }
    ensures refused { IfErr result (λ e. Tells (λ all. IsNodesFault (meta.rules_of like.now.kept) all (node.now ∷ []) e)
        (T.files store.old)) }
    ensures any_moment { Moves T.files T.may_leave T.moment T.image_since SameFiles store.old store.new }
    ensures only { IfErr result IsOfTiles }
    ensures cause { HasCauseOf MergeError.StoreFault (T.faults store.old) (T.faults store.new) result }
{
    let name = part_tile(alloc, node.octants, &node.line.key)?;
    match load_line(alloc, store, name.as_str(), like, &node.line, out) {
        Ok(_) => Ok(()),
        Err(SaveError::StoreFault) => Err(MergeError::StoreFault),
        Err(SaveError::TileDamaged { key: _ }) => Err(damaged(node)),
        Err(_) => Err(MergeError::Memory),
    }
}

// Whether all points lie in these octants of the root's box.
fn are_of_part(rules: &Rules, octants: u8, points: &[Point]) -> bool
    requires deep { 0 < rules.now.cube.depth }
    requires inside { AllInCube rules.now.cube points.now }
    ensures { IsTrue result ↔ All (λ (q : p.Point). opened octants (octant rules.now 0 q) ≡ true) points.now }
{
    for point in points {
        if !is_of_part(rules, octants, point) {
            return false;
        }
    }
    true
}
