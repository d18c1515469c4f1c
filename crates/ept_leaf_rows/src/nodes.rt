//! Calls of `ept_node`.

ghost use Rattle.std.specs.Prelude.{◌≡◌, ◌≤◌, ◌↔◌, IsTrue};
ghost use Rattle.ept_sample.specs.Place.{AllInBox};
ghost use Rattle.ept_node.specs.declared.state.NodeState.TheVariants.{Blank};
ghost use Rattle.ept_node.specs.Shown.{state_of};

use crate::grids::write_leaving;
use crate::lying::Lying;
use crate::notation::{calls_of, key_of, points_of};
use crate::sampling::rules_of;
use crate::words::{Miss, Words, parted};
use crate::writing::{part, write_ids, write_key, write_refusal};
use ept_base::SpillFile;
use ept_grid::{Grid, GridError, Outgoing};
use ept_mem::MemSpill;
use ept_node::{Node, NodeError, NodeState};
use ept_point::Point;
use ept_sample::ids_ascend;
use ept_space::{Key, Rules};
use std::alloc::Global;
use std::fmt::Write;

/// Carries out a call, and writes its result.
pub(crate) fn answer(
    alloc: Global,
    call: &str,
    words: &mut Words<'_>,
    out: &mut String,
) -> Result<(), Miss> {
    match call {
        "batch" => batch(alloc, words, out),
        "life" => life(alloc, words, out),
        "kept" => kept(alloc, words, out),
        "lied" => lied(alloc, words, out),
        _ => Err(Miss::Form),
    }
}

// Where a node is.
#[derive(Drop)]
struct Site {
    rules: Rules,
    key: Key,
    ghost low: { key.depth ≤ rules.cube.depth },
}

// The site whose cube, threshold and key are the next three words.
fn site_of(words: &mut Words<'_>) -> Result<Site, Miss> {
    let rules = rules_of(words)?;
    let key = key_of(words.word()?)?;
    if key.depth > rules.cube.depth {
        return Err(Miss::Form);
    }
    Ok(Site { rules, key })
}

fn file_of(alloc: Global) -> MemSpill {
    MemSpill::new(alloc, Vec::new(alloc))
}

// `node batch CUBE THRESHOLD KEY POINT POINT ..`: the points of a new node once these have arrived together, what it
// shows then, and the points that left.
fn batch(alloc: Global, words: &mut Words<'_>, out: &mut String) -> Result<(), Miss> {
    let site = site_of(words)?;
    let points = points_of(alloc, words.rest())?;
    let mut node = Node::blank(file_of(alloc));
    let done = arrive(alloc, &site, points.as_slice(), &mut node, out);
    let _file = node.into_file();
    done
}

fn arrive<F: SpillFile>(
    alloc: Global,
    site: &Site,
    points: &[Point],
    node: &mut Node<F>,
    out: &mut String,
) -> Result<(), Miss>
    requires { state_of node.old ≡ Blank }
{
    let grid = Grid::new(alloc, site.key, &site.rules);
    if !are_inside(points, &grid) {
        return Err(Miss::Form);
    }
    let mut leaving = Outgoing::new(alloc);
    node.begin(site.key, &site.rules);
    node.arrive_batch(alloc, points, &mut leaving)?;
    tell(alloc, node, out)?;
    write_node(node, out)?;
    write_leaving(&leaving, out)
}

fn are_inside(points: &[Point], grid: &Grid) -> bool
    ensures { IsTrue result ↔ AllInBox grid.now.rules.cube grid.now.key points.now }
{
    points.iter().all(|point| grid.is_inside(point))
}

// `node life CUBE THRESHOLD KEY MASK POINT POINT .. / POINT POINT ..`: what a node shows when it is blank, begun, blank
// again, and begun again with a child in octant 7. Then it is filled with the points before the stroke, and with those
// after it.
fn life(alloc: Global, words: &mut Words<'_>, out: &mut String) -> Result<(), Miss> {
    let site = site_of(words)?;
    let mask = words.number()?;
    let (first, second) = parted(words.rest(), " /")?;
    let first = points_of(alloc, first)?;
    let second = points_of(alloc, second)?;
    let mut node = Node::blank(file_of(alloc));
    let done = live(
        alloc,
        &site,
        mask,
        (first.as_slice(), second.as_slice()),
        &mut node,
        out,
    );
    let _file = node.into_file();
    done
}

fn live<F: SpillFile>(
    alloc: Global,
    site: &Site,
    mask: u8,
    points: (&[Point], &[Point]),
    node: &mut Node<F>,
    out: &mut String,
) -> Result<(), Miss>
    requires { state_of node.old ≡ Blank }
{
    if !ids_ascend(points.0) || !ids_ascend(points.1) {
        return Err(Miss::Form);
    }
    write_node(node, out)?;
    node.begin(site.key, &site.rules);
    write_node(node, out)?;
    node.unbegin();
    write_node(node, out)?;
    node.begin(site.key, &site.rules);
    node.set_child(7, 5);
    let first = node.fill(alloc, mask, points.0);
    if first.is_ok() {
        return Err(Miss::Form);
    }
    write_filled(first, out)?;
    write_node(node, out)?;
    let second = node.fill(alloc, mask, points.1);
    write_filled(second, out)?;
    write_node(node, out)
}

fn write_filled(filled: Result<(), GridError>, out: &mut String) -> Result<(), Miss> {
    part(out)?;
    match filled {
        Ok(()) => Ok(out.push_str("filled")?),
        Err(GridError::Memory) => Err(Miss::Memory),
        Err(refused) => write_refusal(&refused, out),
    }
}

// What a node shows: its state and its fault. If it is not blank, also its key, count, open octants and children.
fn write_node<F: SpillFile>(node: &Node<F>, out: &mut String) -> Result<(), Miss> {
    let state = node.state();
    part(out)?;
    write!(out, "{state:?}")?;
    if state == NodeState::Blank {
        return Ok(());
    }
    out.push(' ')?;
    write_key(&node.key(), out)?;
    write!(out, " count {} open {}", node.count(), node.open_mask())?;
    for octant in 0..8 {
        let child = node.child(octant);
        if child != 0 {
            write!(out, " child {octant}>{child}")?;
        }
    }
    match node.fault() {
        Some(fault) => write!(out, " fault {fault:?}")?,
        None => {}
    }
    Ok(())
}

// `node kept FAILS CUBE THRESHOLD KEY STEP STEP .. / POINT POINT ..`: what each step does to a node with these points
// and a child in octant 3. The calls of its file with the numbers FAILS fail. A step is `spill`, `reload` or `tell`.
fn kept(alloc: Global, words: &mut Words<'_>, out: &mut String) -> Result<(), Miss> {
    let fails = calls_of(alloc, words.word()?)?;
    pass(alloc, MemSpill::new(alloc, fails), words, out)
}

// `node lied LENGTH BYTE CUBE THRESHOLD KEY STEP STEP .. / POINT POINT ..`: the same over a file that reports LENGTH
// bytes and returns BYTE in place of each.
fn lied(alloc: Global, words: &mut Words<'_>, out: &mut String) -> Result<(), Miss> {
    let length = words.number()?;
    let byte = words.number()?;
    pass(alloc, Lying::new(length, byte), words, out)
}

fn pass<F: SpillFile + Drop>(
    alloc: Global,
    file: F,
    words: &mut Words<'_>,
    out: &mut String,
) -> Result<(), Miss> {
    let site = site_of(words)?;
    let (steps, points) = parted(words.rest(), " /")?;
    let points = points_of(alloc, points)?;
    let mut node = Node::blank(file);
    let done = walk(alloc, &site, steps, points.as_slice(), &mut node, out);
    let _file = node.into_file();
    done
}

fn walk<F: SpillFile>(
    alloc: Global,
    site: &Site,
    steps: &str,
    points: &[Point],
    node: &mut Node<F>,
    out: &mut String,
) -> Result<(), Miss>
    requires { state_of node.old ≡ Blank }
{
    if !ids_ascend(points) {
        return Err(Miss::Form);
    }
    node.begin(site.key, &site.rules);
    node.set_child(3, 7);
    write_filled(node.fill(alloc, 0, points), out)?;
    for step in steps.split_whitespace() {
        take_step(alloc, step, node, out)?;
        write_node(node, out)?;
    }
    Ok(())
}

fn take_step<F: SpillFile>(
    alloc: Global,
    step: &str,
    node: &mut Node<F>,
    out: &mut String,
) -> Result<(), Miss> {
    part(out)?;
    write!(out, "{step} ")?;
    match step {
        "spill" => spill(alloc, node, out),
        "reload" => reload(alloc, node, out),
        "tell" => tell(alloc, node, out),
        _ => Err(Miss::Form),
    }
}

fn spill<F: SpillFile>(alloc: Global, node: &mut Node<F>, out: &mut String) -> Result<(), Miss> {
    if node.state() != NodeState::Resident {
        return Err(Miss::Form);
    }
    write_outcome(node.spill(alloc), out)
}

fn reload<F: SpillFile>(alloc: Global, node: &mut Node<F>, out: &mut String) -> Result<(), Miss> {
    if node.state() != NodeState::Spilled {
        return Err(Miss::Form);
    }
    write_outcome(node.reload(alloc), out)
}

// The points of a node in memory or in its file.
fn tell<F: SpillFile>(alloc: Global, node: &mut Node<F>, out: &mut String) -> Result<(), Miss> {
    let state = node.state();
    if state != NodeState::Resident && state != NodeState::Spilled {
        return Err(Miss::Form);
    }
    let mut points = Vec::new(alloc);
    let told = node.points_into(alloc, &mut points);
    write_outcome(told, out)?;
    out.push(' ')?;
    write_ids(points.as_slice(), out)
}

// `ok`, or why a node did not go to its file or come back.
fn write_outcome(outcome: Result<(), NodeError>, out: &mut String) -> Result<(), Miss> {
    match outcome {
        Ok(()) => Ok(out.push_str("ok")?),
        Err(NodeError::Memory) => Err(Miss::Memory),
        Err(refused) => write_refusal(&refused, out),
    }
}
