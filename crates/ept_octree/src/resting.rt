//! An octree and what a table of nodes has left.

ghost use Rattle.std.specs.Prelude.{◌≡◌, ◌<◌, ◌≤◌, ◌+◌, true, None, IfOk, IfErr, length, take};
ghost use Rattle.ept_scan.specs.Reader.{drawn_of, refusal_of};
ghost use Rattle.ept_sample.specs.SamplingLaws.{CanBeSampled};
ghost use Rattle.ept_forest.specs.Slots as trees;
ghost use Rattle.ept_node.specs.declared.state.NodeState.TheVariants as states;
ghost use Rattle.ept_node.specs.Shown.{state_of};
ghost use Rattle.ept_table.specs.Shown.{IsTold, FitsReader};
ghost use Rattle.ept_table.specs.Tells.{IsLanded};
ghost use Rattle.ept_table.specs.Item.{seen_reader};
ghost use Rattle.ept_table.specs.Row.{row};
ghost use Rattle.ept_table.specs.Octree.{AreSampled};
ghost use Rattle.ept_octree.specs.Index.{in_slots, AreSites};
ghost use Rattle.ept_octree.specs.Resting.{StandApart};
ghost use Rattle.ept_octree.specs.Octree.{forest_of, rules_of, most_of, cache_of, nodes_of, points_of, begun_of, IsWhole, IsLinked};

use crate::octree::Octree;
use ept_base::{Source, SpillFile};
use ept_forest::Forest;
use ept_node::Node;
use ept_point::Memory;
use ept_scan::Reader;
use ept_space::{Key, Rules};
use ept_table::{Scan, landed_law, resume_law};
use std::alloc::Global;
use std::collections::BTreeMap;

/// A whole and linked octree, with a reader that has drawn its points, is what a table may be made of.
pub fn rest_law<F: SpillFile, S: Source, J: Scan>(octree: &Octree<F>, reader: &Reader<S>)
    requires told { IsTold J.told }
    requires rules { rules_of octree.now ≡ J.told.rules }
    requires most { most_of octree.now ≡ J.told.most }
    requires begun { J.told.begun ≡ begun_of F.held octree.now }
    requires whole { IsWhole F.held octree.now }
    requires linked { IsLinked F.held octree.now }
    requires fits { FitsReader J.told (seen_reader S.whole reader.now) }
    requires sound { refusal_of reader.now ≡ None }
    requires number { length (points_of F.held octree.now) ≡ drawn_of reader.now }
    requires points { J.told.tells ≡ true → CanBeSampled J.told.rules J.told.points
        × (length J.told.points ≡ J.told.total) }
    requires sampled { J.told.tells ≡ true
        → AreSampled J.told.rules (take (drawn_of reader.now) J.told.points) (nodes_of F.held octree.now) }
    ensures { IsLanded J.told (trees.used_of (forest_of octree.now))
        (row F.held S.whole reader.now (trees.nodes_of (forest_of octree.now))) }
{
    resume_law();
}

impl<F: SpillFile> Octree<F> {
    /// The octree of what a table has left: its forest, with the reader that has drawn the points. At most `cache` of
    /// its nodes may be in memory.
    ///
    /// # Errors
    ///
    /// If there is no memory, the forest is returned.
    pub fn from_forest<S: Source, J: Scan>(
        alloc: Global,
        forest: Forest<F>,
        reader: &Reader<S>,
        rules: &Rules,
        cache: u32,
    ) -> Result<Octree<F>, Forest<F>>
        requires landed { IsLanded J.told (trees.used_of forest) (row F.held S.whole reader.now (trees.nodes_of forest)) }
        requires rules { rules.now ≡ J.told.rules }
        requires cache { (1 ≤ cache) × (trees.residents_of (trees.nodes_of forest) ≤ cache) }
        ensures rules { IfOk result (λ octree. rules_of octree ≡ rules.now) }
        ensures nodes { IfOk result (λ octree. trees.nodes_of (forest_of octree) ≡ trees.nodes_of forest) }
        ensures cache { IfOk result (λ octree. cache_of octree ≡ cache) }
        ensures whole { IfOk result (IsWhole F.held) }
        ensures linked { IfOk result (IsLinked F.held) }
        ensures number { IfOk result (λ octree. length (points_of F.held octree) ≡ drawn_of reader.now) }
        ensures sampled { IfOk result (λ octree. J.told.tells ≡ true
            → AreSampled J.told.rules (take (drawn_of reader.now) J.told.points) (nodes_of F.held octree)) }
        ensures refused { IfErr result (λ back. (trees.nodes_of back ≡ trees.nodes_of forest)
            × (trees.used_of back ≡ trees.used_of forest)) }
    {
        landed_law();
        let here = forest.residents() as u32;
        let (nodes, used) = forest.into_nodes();
        let Ok(most) = u32::try_from(nodes.len()) else {
            return Err(Forest::from_nodes(nodes, used));
        };
        match slots_of(alloc, &nodes, used) {
            Ok(slots) => Ok(Octree {
                forest: Forest::from_nodes(nodes, used),
                slots,
                rules: *rules,
                most,
                cache,
                here,
            }),
            Err(_) => Err(Forest::from_nodes(nodes, used)),
        }
    }
}

// The slots of the keys of the first `used` nodes, no two of which have one key.
fn slots_of<F: SpillFile>(
    alloc: Global,
    nodes: &[Node<F>],
    used: u32,
) -> Result<BTreeMap<Key, u32>, Memory>
    requires { StandApart used (in_slots F.held nodes.now) }
    ensures { IfOk result (λ slots. AreSites used (in_slots F.held nodes.now) slots.entries) }
{
    let mut slots = BTreeMap::new(alloc);
    for place in 0..used {
        let key = nodes[place as usize].key();
        slots.insert(key, place + 1)?;
    }
    Ok(slots)
}
