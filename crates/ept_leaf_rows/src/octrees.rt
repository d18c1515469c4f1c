//! Calls of `ept_octree`: a new octree, and one of three nodes.

ghost use Rattle.std.specs.Prelude.{◌≡◌, ◌≤◌, ◌<◌, ◌∷◌, [], true, OnOk};
ghost use Rattle.ept_grid.specs.Node as grid;
ghost use Rattle.ept_octree.specs.Octree.{rules_of, residents_of, cache_of, nodes_of, IsUnbroken, AgreesWithFiles};
ghost use Rattle.ept_octree.specs.Adding.{IsFree};
ghost use Rattle.ept_octree.specs.Walking.{HasKey};
ghost use Rattle.ept_space.specs.VoxelKey.{root};

use crate::notation::{calls_of, points_of};
use crate::sampling::rules_of;
use crate::words::{Miss, Words};
use crate::writing::{part, write_ids, write_key, write_refusal};
use ept_base::{PutError, SpillFile};
use ept_mem::MemRoom;
use ept_node::NodeError;
use ept_octree::{AddError, Octree};
use ept_point::Point;
use ept_space::{Key, child};
use std::alloc::Global;
use std::fmt::Write;

/// Carries out a call, and writes its result.
pub(crate) fn answer(
    alloc: Global,
    call: &str,
    words: &mut Words<'_>,
    out: &mut String,
) -> Result<(), Miss> {
    match call {
        "new" => new(alloc, words, out),
        "three" => three(alloc, words, out),
        _ => Err(Miss::Form),
    }
}

// `octree new CUBE THRESHOLD MOST CACHE`: how many nodes a new octree has, how many of them may be in memory, and their
// keys.
fn new(alloc: Global, words: &mut Words<'_>, out: &mut String) -> Result<(), Miss> {
    let rules = rules_of(words)?;
    let most = words.number::<u32>()?;
    let cache = words.number::<u32>()?;
    if most < 1 || cache < 1 {
        return Err(Miss::Form);
    }
    let mut room = MemRoom::new(alloc, Vec::new(alloc), Vec::new(alloc));
    match Octree::new(alloc, &mut room, most, cache, &rules) {
        Ok(mut octree) => {
            octree.link();
            let done = write_octree(alloc, &octree, out);
            octree.retire_all(&mut room);
            done
        }
        Err(PutError::Memory) => Err(Miss::Memory),
        Err(refused) => write_refusal(&refused, out),
    }
}

fn write_octree<F: SpillFile>(
    alloc: Global,
    octree: &Octree<F>,
    out: &mut String,
) -> Result<(), Miss> {
    write!(out, "{} of {}", octree.len(), octree.cache())?;
    for key in octree.keys(alloc)?.iter() {
        out.push(' ')?;
        write_key(key, out)?;
    }
    Ok(())
}

// `octree three CUBE THRESHOLD FAILS POINT POINT POINT`: the results of adding three nodes to an octree of which one
// may be in memory. They are the root, with its octants 0 and 1 open, and the nodes of these, each with one of the
// points. Then the point that comes from the root, from the root once more, and from the others. At last how many nodes
// are in memory at the end. The calls of each file with the numbers FAILS fail.
fn three(alloc: Global, words: &mut Words<'_>, out: &mut String) -> Result<(), Miss> {
    let rules = rules_of(words)?;
    let fails = calls_of(alloc, words.word()?)?;
    let points = points_of(alloc, words.rest())?;
    let points = points.first_chunk::<3>().ok_or(Miss::Form)?;
    if rules.cube.depth < 1 {
        return Err(Miss::Form);
    }
    let mut room = MemRoom::new(alloc, Vec::new(alloc), fails);
    match Octree::new(alloc, &mut room, 3, 1, &rules) {
        Ok(mut octree) => {
            let added = put_three(alloc, &mut octree, points);
            let done = write_three(alloc, added, &mut octree, out);
            let forest = octree.into_forest();
            let residents = forest.residents();
            forest.retire_all(&mut room);
            done?;
            part(out)?;
            Ok(write!(out, "{residents}")?)
        }
        Err(PutError::Memory) => Err(Miss::Memory),
        Err(refused) => write_refusal(&refused, out),
    }
}

// The result of the adding, and then what comes from each node.
fn write_three<F: SpillFile>(
    alloc: Global,
    added: Result<(), AddError>,
    octree: &mut Octree<F>,
    out: &mut String,
) -> Result<(), Miss>
    requires { AgreesWithFiles F.held F.faults F.keeps octree.old }
{
    match added {
        Ok(()) => out.push_str("ok")?,
        Err(AddError::Memory) => return Err(Miss::Memory),
        Err(refused) => write_refusal(&refused, out)?,
    }
    write_point_at(alloc, octree, &Key::ROOT, out)?;
    write_point_at(alloc, octree, &Key::ROOT, out)?;
    write_point_at(alloc, octree, &child(&Key::ROOT, 0), out)?;
    write_point_at(alloc, octree, &child(&Key::ROOT, 1), out)
}

// Whether no node has the key.
fn is_new<F: SpillFile>(octree: &Octree<F>, alloc: Global, key: &Key) -> bool
    ensures { result ≡ true → IsFree key.now (nodes_of F.held octree.now) }
{
    match octree.keys(alloc) {
        Ok(keys) => !keys.contains(key),
        Err(_) => false,
    }
}

// Whether some node has the key.
fn is_there<F: SpillFile>(octree: &Octree<F>, alloc: Global, key: &Key) -> bool
    ensures { result ≡ true → HasKey (nodes_of F.held octree.now) key.now }
{
    match octree.keys(alloc) {
        Ok(keys) => keys.contains(key),
        Err(_) => false,
    }
}

// Puts three nodes into an octree of no points: the root, with two open octants, and the nodes of these.
fn put_three<F: SpillFile>(
    alloc: Global,
    octree: &mut Octree<F>,
    points: &[Point; 3],
) -> Result<(), AddError>
    requires alone { (g : grid.Node) × (nodes_of F.held octree.old ≡ (root, g) ∷ []) × (g.points ≡ []) }
    requires here { residents_of octree.old ≡ 1 }
    requires deep { 1 ≤ (rules_of octree.old).cube.depth }
    requires agrees { AgreesWithFiles F.held F.faults F.keeps octree.old }
    requires unbroken { IsUnbroken octree.old }
    ensures few { OnOk result (residents_of octree.new < cache_of octree.new) }
    ensures agrees { AgreesWithFiles F.held F.faults F.keeps octree.new }
{
    let first = child(&Key::ROOT, 0);
    let second = child(&Key::ROOT, 1);
    octree.add(alloc, Key::ROOT, 3, &[points[0]])?;
    if !is_new(octree, alloc, &first) {
        return Err(AddError::Memory);
    }
    octree.add(alloc, first, 0, &[points[1]])?;
    if !is_new(octree, alloc, &second) {
        return Err(AddError::Memory);
    }
    octree.add(alloc, second, 0, &[points[2]])
}

// The number of the one point of a node, or why it does not come.
fn write_point_at<F: SpillFile>(
    alloc: Global,
    octree: &mut Octree<F>,
    key: &Key,
    out: &mut String,
) -> Result<(), Miss>
    requires { AgreesWithFiles F.held F.faults F.keeps octree.old }
    ensures { AgreesWithFiles F.held F.faults F.keeps octree.new }
{
    part(out)?;
    if !is_there(octree, alloc, key) {
        return Ok(out.push_str("none")?);
    }
    let mut there = Vec::new(alloc);
    match octree.points_into(alloc, key, &mut there) {
        Ok(()) => write_ids(there.as_slice(), out),
        Err(NodeError::Memory) => Err(Miss::Memory),
        Err(refused) => write_refusal(&refused, out),
    }
}
