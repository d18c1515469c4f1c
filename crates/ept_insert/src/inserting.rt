//! Inserts the next records into an octree.

ghost use Rattle.std.specs.Prelude.{◌≡◌, ◌≢◌, ◌≤◌, ◌<◌, ◌+◌, ◌++◌, ℕ, List, Some, None, IfOk, IfErr, length, take, drop, map};
ghost use Rattle.std.specs.List.{All, Any};
ghost use Rattle.ept_point.specs.declared.point.Point.{Point};
ghost use Rattle.ept_space.specs.OctreeCube.{InCube};
ghost use Rattle.ept_sample.specs.Place.{place};
ghost use Rattle.ept_sample.specs.Nodes.{sampled};
ghost use Rattle.ept_scan.specs.declared.read_error.ReadError.TheVariants as read;
ghost use Rattle.ept_scan.specs.Queue.{LiesIn};
ghost use Rattle.ept_scan.specs.Reader.{drawn_of, left_of, refusal_of, files_of, IsRest, HasFault, IsReader};
ghost use Rattle.ept_node.specs.declared.error.NodeError.TheVariants as node;
ghost use Rattle.ept_node.specs.Shown.{file_of, fault_of};
ghost use Rattle.ept_table.specs.Octree.{AreSampled, KeepsNodes, entry_of};
ghost use Rattle.ept_forest.specs.Slots as trees;
ghost use Rattle.ept_octree.specs.Octree.{rules_of, most_of, cache_of, nodes_of, points_of, IsWhole, IsLinked, IsUnbroken, AgreesWithFiles};
ghost use Rattle.ept_insert.specs.Between.{StandsBetween};
ghost use Rattle.ept_insert.specs.Inserting.{MayInsert, HasInserted, IsRefused};

use crate::error::InsertError;
use ept_base::{Gate, Source, SpillFile};
use ept_forest::Forest;
use ept_octree::{Octree, rest_law};
use ept_scan::Reader;
use ept_table::{NodeTable, Scan, Unmade, landed_law};
use ept_work::insert_all;
use std::alloc::Global;
use std::marker::Brand;
use std::sync::Wait;
use std::thread::Threads;

/// What is left if records are not inserted: the nodes and the reader, to be retired, and why.
pub struct Refused<F, S> {
    /// The nodes, with the points that were inserted until then.
    pub forest: Forest<F>,
    /// The reader, which may have drawn some records.
    pub reader: Reader<S>,
    /// Why.
    pub error: InsertError,
}

/// Draws the next `count` records, and inserts their points into the octree with `workers` workers.
///
/// # Errors
///
/// `TooManyNodes` if the octree would have more nodes than it may have, the refusals of the reader, and those of the
/// spill files. The nodes are then those of no octree.
pub fn insert<
    F: SpillFile + Send + Sync,
    S: Source + Send,
    G: Gate + Sync,
    R: Threads + Wait + Sync,
>(
    rt: &R,
    alloc: Global,
    octree: Octree<F>,
    mut reader: Reader<S>,
    count: u64,
    workers: u32,
    gate: &G,
) -> Result<(Octree<F>, Reader<S>), Refused<F, S>>
    requires reader { IsReader S.whole S.left S.given S.faults reader }
    requires fresh { refusal_of reader ≡ None }
    requires enough { count ≤ left_of reader }
    requires inside { (p : Point) → LiesIn (files_of S.whole reader) p → InCube (rules_of octree).cube (place p) }
    requires whole { IsWhole F.held octree }
    requires linked { IsLinked F.held octree }
    requires agrees { AgreesWithFiles F.held F.faults F.keeps octree }
    requires unbroken { IsUnbroken octree }
    requires number { length (points_of F.held octree) ≡ drawn_of reader }
    requires workers { (1 ≤ workers) × (workers ≤ 64) }

    // Whatever the sources hold, the octree has `count` points more, is whole, and has lost no node.
    ensures rules { IfOk result (λ r. rules_of r.0 ≡ rules_of octree) }
    ensures most { IfOk result (λ r. most_of r.0 ≡ most_of octree) }
    ensures cache { IfOk result (λ r. cache_of r.0 ≡ cache_of octree) }
    ensures number { IfOk result (λ r. length (points_of F.held r.0) ≡ drawn_of reader + count) }
    ensures whole { IfOk result (λ r. IsWhole F.held r.0) }
    ensures kept { IfOk result (λ r. KeepsNodes (map entry_of (nodes_of F.held octree)) (map entry_of (nodes_of F.held r.0))) }
    ensures linked { IfOk result (λ r. IsLinked F.held r.0) }
    ensures agrees { IfOk result (λ r. AgreesWithFiles F.held F.faults F.keeps r.0) }
    ensures unbroken { IfOk result (λ r. IsUnbroken r.0) }

    // If the sources hold the bytes that were scanned, the octree of the first points becomes that of these and the
    // next ones. Or it is refused, since these have too many nodes.
    ensures sampled { IfOk result (λ r. (first left : List Point) → StandsBetween F.held S.whole octree reader first left
        → AreSampled (rules_of octree) (first ++ take count left) (nodes_of F.held r.0)) }
    ensures too_many { IfErr result (λ r. r.error ≡ InsertError.TooManyNodes → (first left : List Point)
        → StandsBetween F.held S.whole octree reader first left
        → most_of octree < length (sampled (rules_of octree) (first ++ take count left))) }
    ensures no_change { IfErr result (λ r. (source number : ℕ) → r.error ≡ InsertError.SourceChanged source number
        → (first left : List Point) → StandsBetween F.held S.whole octree reader first left → ⊥) }
    ensures no_damage { IfErr result (λ r. (was found at : ℕ) → r.error ≡ InsertError.SpillDamaged was found at
        → (first left : List Point) → StandsBetween F.held S.whole octree reader first left → ⊥) }

    // The reader afterwards.
    ensures drawn { IfOk result (λ r. drawn_of r.1 ≡ drawn_of reader + count) }
    ensures left { IfOk result (λ r. left_of r.1 + count ≡ left_of reader) }
    ensures rest_left { IfOk result (λ r. (first left : List Point) → StandsBetween F.held S.whole octree reader first left
        → IsRest S.whole r.1 (drop count left)) }
    ensures fresh { IfOk result (λ r. refusal_of r.1 ≡ None) }
    ensures inside { IfOk result (λ r. (p : Point) → LiesIn (files_of S.whole r.1) p
        → InCube (rules_of octree).cube (place p)) }
    ensures reader { IfOk result (λ r. IsReader S.whole S.left S.given S.faults r.1) }

    // The cause of a refusal: the reader's refusal, or that of a node that is broken by it. At `SpillFault` the file of
    // the node has failed. Unless the refusal is of a broken node, no node is broken.
    ensures fault { IfErr result (λ r. r.error ≡ InsertError.SourceFault → HasFault S.faults r.reader) }
    ensures changed { IfErr result (λ r. (source number : ℕ) → r.error ≡ InsertError.SourceChanged source number
        → refusal_of r.reader ≡ Some (read.SourceChanged source number)) }
    ensures spill { IfErr result (λ r. r.error ≡ InsertError.SpillFault
        → Any (λ n. (fault_of n ≡ Some node.SpillFault) × (0 < F.faults (file_of n))) (trees.nodes_of r.forest)) }
    ensures damaged { IfErr result (λ r. (was found at : ℕ) → r.error ≡ InsertError.SpillDamaged was found at
        → Any (λ n. fault_of n ≡ Some (node.SpillDamaged was found at)) (trees.nodes_of r.forest)) }
    ensures none_broken { IfErr result (λ r. r.error ≢ InsertError.SpillFault
        → ((was found at : ℕ) → r.error ≢ InsertError.SpillDamaged was found at)
        → All (λ n. fault_of n ≡ None) (trees.nodes_of r.forest)) }
{
    reader.allow(count);
    insert_told::<F, S, Brand, G, R>(rt, alloc, octree, reader, workers, gate)
}

// Inserts the points of the reader's allowance into the octree with `workers` workers. The number of nodes that may be
// in memory stays as it is.
fn insert_told<F, S, J, G, R>(
    rt: &R,
    alloc: Global,
    octree: Octree<F>,
    reader: Reader<S>,
    workers: u32,
    gate: &G,
) -> Result<(Octree<F>, Reader<S>), Refused<F, S>>
where
    F: SpillFile + Send + Sync,
    S: Source + Send,
    J: Scan + Sync,
    G: Gate + Sync,
    R: Threads + Wait + Sync,
    requires may { MayInsert J.told F.held F.faults F.keeps S.whole S.left S.given S.faults octree reader }
    requires workers { (1 ≤ workers) × (workers ≤ 64) }
    ensures inserted { IfOk result (λ r. HasInserted J.told F.held F.faults F.keeps S.whole S.left S.given S.faults octree r.0 r.1) }
    ensures refused { IfErr result (λ r. IsRefused J.told F.faults S.faults r.forest r.reader r.error) }
{
    let rules = *octree.rules();
    let cache = octree.cache();
    rest_law::<F, S, J>(&octree, &reader);
    landed_law();
    let forest = octree.into_forest();
    let (table, seat) = match NodeTable::<F, S, J>::make(alloc, forest, reader, &rules, cache) {
        Ok(made) => made,
        Err(unmade) => {
            let Unmade { forest, reader } = unmade;
            return Err(Refused {
                forest,
                reader,
                error: InsertError::Memory,
            });
        }
    };
    let (forest, reader, result) = insert_all(rt, alloc, table, seat, workers, gate);
    if let Err(error) = result {
        return Err(Refused {
            forest,
            reader,
            error: InsertError::from(error),
        });
    }
    match Octree::from_forest::<S, J>(alloc, forest, &reader, &rules, cache) {
        Ok(octree) => Ok((octree, reader)),
        Err(forest) => Err(Refused {
            forest,
            reader,
            error: InsertError::Memory,
        }),
    }
}
