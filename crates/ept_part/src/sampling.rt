//! The sampling of a part, on one thread and in memory.

ghost use Rattle.std.specs.Prelude.{◌≡◌, ◌≢◌, ◌≤◌, ◌<◌, ◌+◌, ◌++◌, ℕ, List, Err, IfOk, IfErr, OnOk, length, take, drop};
ghost use Rattle.ept_point.specs.declared.point.Point as p;
ghost use Rattle.ept_space.specs.OctreeCube.{InCube};
ghost use Rattle.ept_sample.specs.Place.{place, AllInCube};
ghost use Rattle.ept_sample.specs.Arrivals.{octant};
ghost use Rattle.ept_sample.specs.Nodes.{sampled};
ghost use Rattle.ept_grid.specs.Mask.{opened};
ghost use Rattle.ept_scan.specs.Reader.{HasFault, IsRest};
ghost use Rattle.ept_table.specs.Octree.{AreSampled};
ghost use Rattle.ept_tree.specs.Grown.{nodes_of};
ghost use Rattle.ept_parts.specs.Parts.{part_of};
ghost use Rattle.ept_part.specs.Errors.{IsOfSampling};
ghost use Rattle.ept_part.specs.Sampling.{IsAhead, IsGrown, IsToGive};

use crate::error::PartError;
use crate::names::has_octant;
use ept_base::Source;
use ept_point::{Memory, Point};
use ept_sample::place_of;
use ept_scan::Reader;
use ept_space::{Key, Rules, octant};
use ept_tree::{Tree, sampled_law};
use std::alloc::Global;

// How many records are drawn at a time.
const BATCH: usize = 1024;

/// The sampling of a part, and how many points it has.
#[derive(Drop)]
pub(crate) struct Sampled {
    pub(crate) tree: Tree,
    pub(crate) inserted: u64,
}

// The records that were drawn last, and those of the part among them.
#[derive(Drop)]
struct Batch {
    drawn: Vec<Point>,
    mine: Vec<Point>,
}

/// Draws all records, `points` of them, and samples those that lie in these octants of the root's box.
pub(crate) fn sample_part<S: Source>(
    alloc: Global,
    reader: &mut Reader<S>,
    rules: &Rules,
    octants: u8,
    points: u64,
    most: u64,
) -> Result<Sampled, PartError>
    requires deep { 0 < rules.now.cube.depth }
    requires room { 1 ≤ most }
    requires ahead { IsAhead S.whole S.left S.given S.faults rules.now points reader.old }
    ensures grown { IfOk result (λ s. IsGrown rules.now most s.inserted s.tree) }
    ensures number { IfOk result (λ s. s.inserted ≤ points) }

    // If the sources hold the bytes that were scanned, the tree is the sampling of the part, or that has too many nodes.
    ensures sampled { IfOk result (λ s. (all : List p.Point) → IsToGive S.whole rules.now points reader.old all
        → AreSampled rules.now (part_of rules.now (opened octants) all) (nodes_of s.tree)) }
    ensures too_many { result ≡ Err PartError.TooManyNodes → (all : List p.Point)
        → IsToGive S.whole rules.now points reader.old all
        → most < length (sampled rules.now (part_of rules.now (opened octants) all)) }
    ensures no_change { (source number : ℕ) → result ≡ Err (PartError.SourceChanged source number)
        → (all : List p.Point) → IsToGive S.whole rules.now points reader.old all → ⊥ }
    ensures fault { result ≡ Err PartError.SourceFault → HasFault S.faults reader.new }
    ensures only { IfErr result IsOfSampling }
{
    sampled_law();
    let mut tree = Tree::new(alloc, rules)?;
    let mut batch = Batch {
        drawn: Vec::new(alloc),
        mine: Vec::new(alloc),
    };
    let mut inserted = 0;
    let mut to_come = points;
    while to_come > 0 {
        let drawn = draw(reader, rules, octants, to_come, &mut batch)?;
        tree.insert_all(&batch.mine, most)?;
        inserted += batch.mine.len() as u64;
        to_come -= drawn;
    }
    Ok(Sampled { tree, inserted })
}

// Draws some of the records that are to come, and returns how many. Of these, the batch has the points of the part.
fn draw<S: Source>(
    reader: &mut Reader<S>,
    rules: &Rules,
    octants: u8,
    to_come: u64,
    batch: &mut Batch,
) -> Result<u64, PartError>
    requires deep { 0 < rules.now.cube.depth }
    requires some { 0 < to_come }
    requires ahead { IsAhead S.whole S.left S.given S.faults rules.now to_come reader.old }
    ensures some { IfOk result (λ n. 0 < n) }
    ensures most { IfOk result (λ n. n ≤ to_come) }
    ensures few { IfOk result (λ n. length batch.new.mine.items ≤ n) }
    ensures ahead { IfOk result (λ n. (left : ℕ) → n + left ≡ to_come
        → IsAhead S.whole S.left S.given S.faults rules.now left reader.new) }
    ensures inside { OnOk result (AllInCube rules.now.cube batch.new.mine.items) }
    ensures mine { IfOk result (λ n. (points : List p.Point) → IsRest S.whole reader.old points
        → batch.new.mine.items ≡ part_of rules.now (opened octants) (take n points)) }
    ensures rest { IfOk result (λ n. (points : List p.Point) → IsRest S.whole reader.old points
        → IsRest S.whole reader.new (drop n points)) }
    ensures no_change { (source number : ℕ) → result ≡ Err (PartError.SourceChanged source number)
        → (points : List p.Point) → IsRest S.whole reader.old points → ⊥ }
    ensures fault { result ≡ Err PartError.SourceFault → HasFault S.faults reader.new }
    ensures only { IfErr result (λ e. IsOfSampling e × (e ≢ PartError.TooManyNodes)) }
{
    batch.drawn.clear();
    batch.mine.clear();
    reader.next_batch(BATCH, &mut batch.drawn)?;
    select(rules, octants, &batch.drawn, &mut batch.mine)?;
    Ok(batch.drawn.len() as u64)
}

// Appends those of the points that lie in these octants of the root's box.
fn select(rules: &Rules, octants: u8, points: &[Point], out: &mut Vec<Point>) -> Result<(), Memory>
    requires deep { 0 < rules.now.cube.depth }
    requires inside { AllInCube rules.now.cube points.now }
    ensures { OnOk result (out.new.items ≡ out.old.items ++ part_of rules.now (opened octants) points.now) }
{
    for point in points {
        if is_of_part(rules, octants, point) {
            out.push(*point)?;
        }
    }
    Ok(())
}

/// Whether a point lies in one of these octants of the root's box.
pub fn is_of_part(rules: &Rules, octants: u8, point: &Point) -> bool
    requires deep { 0 < rules.now.cube.depth }
    requires inside { InCube rules.now.cube (place point.now) }
    ensures { result ≡ opened octants (octant rules.now 0 point.now) }
{
    has_octant(octants, octant(&rules.cube, &Key::ROOT, place_of(point)))
}
