//! How a table of nodes is made, and how it is closed.

ghost use Rattle.std.specs.Prelude.{true, Some, None, ◌≡◌, ◌+◌, ◌≤◌, ℕ, [], ◌∷◌, List, length, min, vec_len, vec_capacity, IfOk, IfErr};
ghost use Rattle.ept_scan.specs.declared.second_reading.Reader as reader_of;
ghost use Rattle.ept_node.specs.declared.node.Node as node_of;
ghost use Rattle.ept_slots.specs.Views.{HoldsNothing, first_view, whole};
ghost use Rattle.ept_slots.specs.Seating.{view};
ghost use Rattle.ept_forest.specs.Slots.{nodes_of, used_of, residents_of, IsPlanted};
ghost use Rattle.ept_space.specs.VoxelKey.{root};
ghost use Rattle.ept_sample.specs.SamplingLaws.{CanBeSampled};
ghost use Rattle.ept_scan.specs.Reader.{drawn_of, refusal_of};
ghost use Rattle.ept_table.specs.Shown.{IsTold, FitsReader};
ghost use Rattle.ept_table.specs.declared.item.Item.TheVariants as items;
ghost use Rattle.ept_table.specs.Steps.{first_note};
ghost use Rattle.ept_table.specs.Tells.{IsLanded, IsEnded};
ghost use Rattle.ept_table.specs.Item.{seen_reader, IsFiled, IsFiledNode};
ghost use Rattle.ept_table.specs.Row.{items_of, row};
ghost use Rattle.std.specs.List.{All, Any};
ghost use Rattle.ept_sample.specs.Members.{IsMember};
ghost use Rattle.ept_node.specs.declared.error.NodeError.{NodeError};
ghost use Rattle.ept_node.specs.Shown.{fault_of, IsTelling};
ghost use Rattle.ept_table.specs.Standing.{known};

use crate::item::Item;
use crate::rule::Scan;
use crate::table::{NodeTable, Seat};
use ept_base::{Source, SpillFile};
use ept_forest::Forest;
use ept_node::Node;
use ept_scan::Reader;
use ept_slots::Slots;
use ept_space::Rules;
use std::alloc::Global;

/// Memory ran out while a table was made. The forest and the reader are returned.
pub struct Unmade<F, S> {
    pub forest: Forest<F>,
    pub reader: Reader<S>,
}

// A reader and nodes that are in no table.
struct Apart<F, S> {
    nodes: Vec<Node<F>>,
    reader: Reader<S>,
}

// Items in the order of their slots, and the list that their nodes were in.
struct Laid<F, S> {
    items: Vec<Item<F, S>>,
    spare: Vec<Node<F>>,
}

impl<F: SpillFile, S: Source, J: Scan> NodeTable<F, S, J> {
    ghost use Rattle.ept_table.specs.Table.{slots_of, rules_of, cache_of, IsSeat};

    /// Makes a table of the nodes of a forest and a reader, and its first seat. Nothing flies, and no slot is held. At
    /// most `cache` nodes may be in memory at a time: a node that is not in memory needs a permit to come into it.
    ///
    /// # Errors
    ///
    /// If memory runs out, the forest and the reader are returned.
    pub fn make(
        alloc: Global,
        forest: Forest<F>,
        reader: Reader<S>,
        rules: &Rules,
        cache: u32,
    ) -> Result<(NodeTable<F, S, J>, Seat<F, S>), Unmade<F, S>>
        requires landed { IsLanded J.told (used_of forest) (row F.held S.whole reader (nodes_of forest)) }
        requires filed { IsFiled S.whole S.left S.given S.faults J.told reader }
        requires nodes { All (IsFiledNode F.held F.faults F.keeps J.told) (nodes_of forest) }
        requires rules { rules.now ≡ J.told.rules }
        requires cache { (cache ≡ J.told.cache) × (residents_of (nodes_of forest) ≤ J.told.cache) }
        ensures seat { IfOk result (λ r. IsSeat J.told r.0 r.1) }
        ensures first { IfOk result (λ r. view r.1 ≡ first_view J.told.most (first_note J.told)) }
        ensures slots { IfOk result (λ r. slots_of r.0 ≡ J.told.most + 1) }
        ensures rules { IfOk result (λ r. rules_of r.0 ≡ J.told.rules) }
        ensures cache { IfOk result (λ r. cache_of r.0 ≡ J.told.cache) }
        ensures forest { IfErr result (λ r. (nodes_of r.forest ≡ nodes_of forest) × (used_of r.forest ≡ used_of forest)) }
        ensures reader { IfErr result (λ r. r.reader ≡ reader) }
    {
        let free = u64::from(cache) - forest.residents();
        let (nodes, used) = forest.into_nodes();
        let Ok(most) = u32::try_from(nodes.len()) else {
            return Err(Unmade {
                forest: Forest::from_nodes(nodes, used),
                reader,
            });
        };
        let laid = match lay(alloc, nodes, reader) {
            Ok(laid) => laid,
            Err(apart) => return Err(given_up(apart, used)),
        };
        let Laid { items, spare } = laid;
        match Slots::new(alloc, items, used, most, free, &()) {
            Ok((slots, seat)) => {
                let table = NodeTable {
                    slots,
                    spare,
                    most,
                    cache,
                    rules: *rules,
                };
                Ok((table, seat))
            }
            Err(refused) => {
                let ept_slots::Refused { items } = refused;
                Err(given_up(take_apart(Laid { items, spare }), used))
            }
        }
    }

    /// Ends a table, of which this is the last seat, and returns the forest and the reader. It allocates no memory.
    pub fn close(self, seat: Seat<F, S>) -> (Forest<F>, Reader<S>)
        requires seat { IsSeat J.told self seat }
        requires idle { HoldsNothing (view seat) × ((view seat).parts ≡ whole) }
        requires slots { slots_of self ≡ J.told.most + 1 }
        ensures ended { (drawn : ℕ) × (used_of result.0 ≡ min drawn J.told.most)
            × IsEnded J.told drawn (row F.held S.whole result.1 (nodes_of result.0)) (known F.held S.whole (view seat)) }
        ensures filed { IsFiled S.whole S.left S.given S.faults J.told result.1 }
        ensures nodes { All (IsFiledNode F.held F.faults F.keeps J.told) (nodes_of result.0) }
        ensures cached { residents_of (nodes_of result.0) + (view seat).permits ≤ J.told.cache }
        ensures broken { (why : NodeError) → IsMember why (view seat).note.broken
            → Any (λ node. fault_of node ≡ Some why) (nodes_of result.0) }
    {
        let NodeTable {
            slots,
            spare,
            most,
            cache: _cache,
            rules: _rules,
        } = self;
        let ending = slots.close(seat);
        let ept_slots::Ending {
            items,
            drawn,
            free: _free,
        } = ending;
        let used = if drawn < u64::from(most) {
            drawn as u32
        } else {
            most
        };
        let Apart { nodes, reader } = take_apart(Laid { items, spare });
        (Forest::from_nodes(nodes, used), reader)
    }
}

/// With a new forest, and a reader of all points that has drawn none, a table may be made. If contents are visible,
/// those of each spill file are too.
pub fn plant_law<F: SpillFile, S: Source, J: Scan>(forest: &Forest<F>, reader: &Reader<S>)
    requires told { IsTold J.told }
    requires points { J.told.tells ≡ true → CanBeSampled J.told.rules J.told.points
        × (length J.told.points ≡ J.told.total) }
    requires begun { J.told.begun ≡ root ∷ [] }
    requires planted { IsPlanted F.held F.faults F.keeps J.told.most J.told.rules forest.now }
    requires fits { FitsReader J.told (seen_reader S.whole reader.now) }
    requires undrawn { drawn_of reader.now ≡ 0 }
    requires sound { refusal_of reader.now ≡ None }
    requires telling { J.told.tells ≡ true → IsTelling F.held }
    ensures landed { IsLanded J.told (used_of forest.now) (row F.held S.whole reader.now (nodes_of forest.now)) }
    ensures nodes { All (IsFiledNode F.held F.faults F.keeps J.told) (nodes_of forest.now) }
    ensures few { residents_of (nodes_of forest.now) ≤ 1 }
{}

// The forest of nodes of which `used` slots are drawn, and the reader.
fn given_up<F: SpillFile, S>(apart: Apart<F, S>, used: u32) -> Unmade<F, S>
    ensures forest { (nodes_of result.forest ≡ apart.nodes.items) × (used_of result.forest ≡ used) }
    ensures reader { result.reader ≡ apart.reader }
{
    let Apart { nodes, reader } = apart;
    Unmade {
        forest: Forest::from_nodes(nodes, used),
        reader,
    }
}

// The items of a table, or all arguments if memory runs out.
fn lay<F, S>(
    alloc: Global,
    mut nodes: Vec<Node<F>>,
    reader: Reader<S>,
) -> Result<Laid<F, S>, Apart<F, S>>
    ensures items { IfOk result (λ laid. laid.items.items ≡ items_of reader nodes.items) }
    ensures spare { IfOk result (λ laid. (laid.spare.items ≡ []) × (length nodes.items ≤ vec_capacity laid.spare)) }
    ensures refused { IfErr result (λ apart. (apart.nodes.items ≡ nodes.items) × (apart.reader ≡ reader)) }
{
    let Some(count) = nodes.len().checked_add(1) else {
        return Err(Apart { nodes, reader });
    };
    let Ok(mut items) = Vec::with_capacity(alloc, count) else {
        return Err(Apart { nodes, reader });
    };
    items.push_reserved(Item::Reader(reader));
    nodes.reverse();
    while let Some(node) = nodes.pop() {
        items.push_reserved(Item::Node(node));
    }
    Ok(Laid {
        items,
        spare: nodes,
    })
}

// The reader and the nodes of a table, in the list that the nodes were in.
fn take_apart<F, S>(laid: Laid<F, S>) -> Apart<F, S>
    requires items { (reader : reader_of.Reader S) × (nodes : List (node_of.Node F))
        × (laid.items.items ≡ items_of reader nodes) × (length nodes ≤ vec_capacity laid.spare) }
    requires spare { laid.spare.items ≡ [] }
    ensures { laid.items.items ≡ items_of result.reader result.nodes.items }
{
    let Laid {
        mut items,
        spare: mut nodes,
    } = laid;
    items.reverse();
    let first = items.pop();
    let Some(first) = first else { unreachable!() };
    let reader = reader_in(first);
    while let Some(item) = items.pop() {
        nodes.push_reserved(node_in(item));
    }
    items.destroy_empty();
    Apart { nodes, reader }
}

// The node of an item.
fn node_in<F, S>(item: Item<F, S>) -> Node<F>
    requires { (node : node_of.Node F) × (item ≡ items.Node node) }
    ensures { item ≡ items.Node result }
{
    let Item::Node(node) = item else {
        unreachable!()
    };
    node
}

// The reader of an item.
fn reader_in<F, S>(item: Item<F, S>) -> Reader<S>
    requires { (reader : reader_of.Reader S) × (item ≡ items.Reader reader) }
    ensures { item ≡ items.Reader result }
{
    let Item::Reader(reader) = item else {
        unreachable!()
    };
    reader
}
