//! What workers leave, next to the sampling of the points.

ghost use Rattle.std.specs.Prelude.{◌≤◌};

use crate::plans::{Crew, Limits, Plan, Worked, work};
use ept_base::{Gate, OpenGate, SpillFile};
use ept_forest::Forest;
use ept_mem::{MemRoom, MemSource, MemSpill};
use ept_node::{Node, NodeError, NodeState};
use ept_num::lcg;
use ept_point::{Memory, Point, PointNumber};
use ept_rendezvous::MeetGate;
use ept_sample::{Tiles, are_in_cube, ids_ascend, sample};
use ept_space::{Key, Rules};
use ept_table_fixtures::{Known, read_known, shelf_of};
use ept_work::WorkError;
use std::alloc::{AllocError, Global};
use std::marker::Brand;
use std::process::Abort;
use std::sync::Wait;
use std::test::Fail;
use std::thread::Threads;

// The places 0 to 7 on each axis, and 0 to 31.
const SMALL: &str =
    r#"{"input":"a.las","scale":0,"bounds":[0,0,0,7,7,7],"span":2,"minNodeSize":0,"maxDepth":2}"#;

const WIDE: &str =
    r#"{"input":"a.las","scale":0,"bounds":[0,0,0,31,31,31],"span":2,"minNodeSize":3,"maxDepth":4}"#;

// A node that is in a slot.
#[derive(Drop)]
struct Standing {
    key: Key,
    points: Vec<Point>,
}

// All points and their rules, and, if no node is broken, the nodes that are there then. Also how many nodes are in
// memory, why one is broken, and why the workers were refused.
#[derive(Drop)]
struct Built {
    rules: Rules,
    points: Vec<Point>,
    standing: Vec<Standing>,
    used: u32,
    residents: u64,
    fault: Option<NodeError>,
    refused: [Option<WorkError>; 2],
}

// The nodes that are not blank, slot by slot.
fn standing_in<F: SpillFile>(
    alloc: Global,
    nodes: &mut [Node<F>],
) -> Result<Vec<Standing>, NodeError> {
    let mut standing = Vec::new(alloc);
    for node in nodes.iter_mut() {
        let state = node.state();
        if state == NodeState::Resident || state == NodeState::Spilled {
            let mut points = Vec::new(alloc);
            node.points_into(alloc, &mut points)?;
            let key = node.key();
            standing.push(Standing { key, points })?;
        }
    }
    Ok(standing)
}

// Points, and the table that they are inserted into.
#[derive(Clone, Copy)]
struct Case<'a> {
    config: &'a str,
    places: &'a [[i32; 3]],
    limits: Limits,
    // Which calls of each node's spill file fail.
    fails: &'a [u64],
}

// Workers insert the points of a case.
fn build_case<G: Gate + Sync, R: Threads + Wait + Sync>(
    rt: &R,
    alloc: Global,
    case: Case<'_>,
    plan: Plan<'_>,
    gate: &G,
) -> Result<Built, Fail> {
    let limits = case.limits;
    let mut shelf = shelf_of(alloc, case.places)?;
    let fails = Vec::from_slice(alloc, case.fails)?;
    let mut room = MemRoom::new(alloc, Vec::new(alloc), fails);
    let Some(known) = read_known(alloc, &mut shelf, case.config, 100_000) else {
        return Err(Fail::new("no reader"));
    };
    let rules = known.rules;
    let points = Vec::from_slice(alloc, &known.points);
    let forest = match Forest::new(alloc, &mut room, limits.most, &rules) {
        Ok(forest) => forest,
        Err(refused) => {
            let Known {
                reader,
                rules: _,
                kept: _,
                counts: _,
                points: _,
            } = known;
            reader.retire_all(&mut shelf);
            return Err(refused.into());
        }
    };
    let Worked {
        forest,
        reader,
        refused,
    } = work::<MemSpill, MemSource, Brand, G, R>(rt, alloc, forest, known, limits, plan, gate);
    reader.retire_all(&mut shelf);
    let residents = forest.residents();
    let fault = forest.fault();
    let (mut nodes, used) = forest.into_nodes();
    let standing = if fault.is_none() {
        standing_in(alloc, &mut nodes)
    } else {
        Ok(Vec::new(alloc))
    };
    Forest::from_nodes(nodes, used).retire_all(&mut room);
    Ok(Built {
        rules,
        points: points?,
        standing: standing?,
        used,
        residents,
        fault,
        refused,
    })
}

// Workers insert the points at these places into at most `most` nodes, all of which may be in memory.
fn build<G: Gate + Sync, R: Threads + Wait + Sync>(
    rt: &R,
    alloc: Global,
    config: &str,
    places: &[[i32; 3]],
    most: u32,
    plan: Plan<'_>,
    gate: &G,
) -> Result<Built, Fail>
    requires { 1 ≤ most }
{
    let limits = Limits { most, cache: most };
    let case = Case {
        config,
        places,
        limits,
        fails: &[],
    };
    build_case(rt, alloc, case, plan, gate)
}

// Whether the node of a key is there, with the points of these numbers.
fn stands(built: &Built, key: Key, numbers: &[PointNumber]) -> bool {
    built.standing.iter().any(|node| {
        node.key == key
            && node.points.len() == numbers.len()
            && node
                .points
                .iter()
                .zip(numbers.iter())
                .all(|(point, number)| point.number == *number)
    })
}

// The worked example of points that make three nodes.
const PLACES: [[i32; 3]; 5] = [[1, 1, 1], [2, 2, 2], [3, 3, 3], [6, 6, 6], [5, 5, 5]];

// The ways in which few points are inserted.
const PLANS: [Plan<'static>; 4] = [
    Plan::Turns(&[true; 40]),
    Plan::Visits(40),
    Plan::Threads(Crew { workers: 1 }),
    Plan::Threads(Crew { workers: 2 }),
];

// The first two of them: the second displaces the first, which goes down.
#[test]
fn a_displaced_point_goes_down_to_the_second_slot(rt: HostRuntime) -> Result<(), Fail> {
    let places = [[1, 1, 1], [2, 2, 2]];
    for plan in PLANS {
        let built = build(&rt, rt.alloc(), SMALL, &places, 3, plan, &OpenGate)?;
        let low = Key {
            depth: 1,
            x: 0,
            y: 0,
            z: 0,
        };
        assert!(rt; (built.used, built.standing.len()) == (2, 2));
        let is_built = stands(&built, Key::ROOT, &[1]) && stands(&built, low, &[0]);
        assert!(rt; is_built);
    }
    Ok(())
}

// Whether the worked example has its three nodes.
fn is_worked_example(built: &Built) -> bool {
    let low = Key {
        depth: 1,
        x: 0,
        y: 0,
        z: 0,
    };
    let high = Key {
        depth: 1,
        x: 1,
        y: 1,
        z: 1,
    };
    built.used == 3
        && built.standing.len() == 3
        && stands(built, Key::ROOT, &[1, 3])
        && stands(built, low, &[0, 2])
        && stands(built, high, &[4])
}

#[test]
fn a_worked_example_has_its_nodes_or_too_many(rt: HostRuntime) -> Result<(), Fail> {
    let alloc = rt.alloc();
    for plan in PLANS {
        for most in [3, 4] {
            let built = build(&rt, alloc, SMALL, &PLACES, most, plan, &OpenGate)?;
            assert!(rt; built.refused == [None, None]);
            assert!(rt; is_worked_example(&built));
        }
        for most in [1, 2] {
            let built = build(&rt, alloc, SMALL, &PLACES, most, plan, &OpenGate)?;
            assert!(rt; built.refused == [Some(WorkError::TooManyNodes), None]);
            assert!(rt; built.used == most);
        }
    }
    Ok(())
}

// Numbers that look random, the same in each run.
#[derive(Drop)]
struct Lot {
    state: u64,
}

impl Lot {
    fn next(&mut self) -> u64 {
        self.state = lcg(self.state);
        self.state >> 33
    }

    fn places(&mut self, alloc: Global, count: u32) -> Result<Vec<[i32; 3]>, AllocError> {
        let mut places = Vec::new(alloc);
        for _ in 0..count {
            let mut place = [0; 3];
            for coordinate in place.iter_mut() {
                *coordinate = (self.next() % 32) as i32;
            }
            places.push(place)?;
        }
        Ok(places)
    }

    // Turns, of which each worker has several in a row.
    fn turns(&mut self, alloc: Global, count: u32) -> Result<Vec<bool>, AllocError> {
        let mut turns = Vec::new(alloc);
        let run = self.next() % 9 + 1;
        let mut is_first = true;
        for _ in 0..count {
            if self.next() % run == 0 {
                is_first = !is_first;
            }
            turns.push(is_first)?;
        }
        Ok(turns)
    }
}

// Whether the nodes that are there are these tiles.
fn are_same(standing: &[Standing], tiles: &Tiles) -> bool {
    let tiles = tiles.tiles.as_slice();
    standing.len() == tiles.len()
        && tiles.iter().all(|tile| {
            standing.iter().any(|node| node.key == tile.key
                && node.points.as_slice() == tile.points.as_slice())
        })
}

// Whether the nodes that are there are the sampling of the points, which is taken once.
fn is_sampled(
    rt: &impl Abort,
    alloc: Global,
    built: &Built,
    wanted: &mut Option<Tiles>,
) -> Result<bool, Memory> {
    if wanted.is_none() {
        built.rules.cube.known();
        assert!(rt; ids_ascend(&built.points));
        assert!(rt; are_in_cube(&built.points, &built.rules.cube));
        *wanted = Some(sample(alloc, &built.points, &built.rules)?);
    }
    Ok(
        wanted
            .as_ref()
            .is_some_and(|tiles| are_same(&built.standing, tiles)),
    )
}

// More points than are drawn at a time, so that both workers carry flights.
#[test]
fn turns_by_lot_end_in_the_sampling(rt: HostRuntime) -> Result<(), Fail> {
    let alloc = rt.alloc();
    let mut lot = Lot { state: 7 };
    let places = lot.places(alloc, 3_000)?;
    let mut wanted = None;
    for _ in 0..100 {
        let turns = lot.turns(alloc, 60_000)?;
        let plan = Plan::Turns(&turns);
        let built = build(&rt, alloc, WIDE, &places, 4_000, plan, &OpenGate)?;
        assert!(rt; built.refused == [None, None]);
        let is_sampled = is_sampled(&rt, alloc, &built, &mut wanted)?;
        assert!(rt; is_sampled);
    }
    Ok(())
}

#[test]
fn workers_in_threads_end_in_the_sampling(rt: HostRuntime) -> Result<(), Fail> {
    let alloc = rt.alloc();
    let mut lot = Lot { state: 7 };
    let places = lot.places(alloc, 3_000)?;
    let mut wanted = None;
    for workers in 1..4 {
        let plan = Plan::Threads(Crew { workers });
        let built = build(&rt, alloc, WIDE, &places, 4_000, plan, &OpenGate)?;
        assert!(rt; built.refused == [None, None]);
        let is_sampled = is_sampled(&rt, alloc, &built, &mut wanted)?;
        assert!(rt; is_sampled);
    }
    Ok(())
}

#[test]
fn two_workers_find_too_many_nodes(rt: HostRuntime) -> Result<(), Fail> {
    let alloc = rt.alloc();
    let places = Lot { state: 7 }.places(alloc, 3_000)?;
    let plan = Plan::Threads(Crew { workers: 2 });
    let built = build(&rt, alloc, WIDE, &places, 1, plan, &OpenGate)?;
    assert!(rt; built.refused == [Some(WorkError::TooManyNodes), None]);
    assert!(rt; built.used == 1);
    Ok(())
}

// How long a worker waits for another one, and the number of attempts. There are few records. So none may be left to
// draw for a worker whose next node is the one in which the other is held.
const TURNS: u64 = 1_000_000;

const TRIES: usize = 12;

// Whether one of two workers came to a node while the other one was held in another. The nodes are the sampling in any
// case.
fn have_met<R: Threads + Wait + Sync + Abort>(
    rt: &R,
    alloc: Global,
    places: &[[i32; 3]],
) -> Result<bool, Fail> {
    let gate = MeetGate::new(TURNS);
    let plan = Plan::Threads(Crew { workers: 2 });
    let built = build(rt, alloc, WIDE, places, 4_000, plan, &gate)?;
    assert!(rt; built.refused == [None, None]);
    let is_sampled = is_sampled(rt, alloc, &built, &mut None)?;
    assert!(rt; is_sampled);
    Ok(gate.met())
}

#[test]
fn two_workers_are_in_two_nodes_at_one_time(rt: HostRuntime) -> Result<(), Fail> {
    let alloc = rt.alloc();
    let places = Lot { state: 7 }.places(alloc, 3_000)?;
    for _ in 0..TRIES {
        if have_met(&rt, alloc, &places)? {
            return Ok(());
        }
    }
    Err(Fail::new("no worker met the other one"))
}

// Workers at tables, few nodes of which may be in memory.
const TIGHT: [(Crew, Limits); 3] = [
    (
        Crew { workers: 1 },
        Limits {
            most: 4_000,
            cache: 1,
        },
    ),
    (
        Crew { workers: 2 },
        Limits {
            most: 4_000,
            cache: 2,
        },
    ),
    (
        Crew { workers: 2 },
        Limits {
            most: 4_000,
            cache: 1,
        },
    ),
];

#[test]
fn few_nodes_in_memory_are_the_same_nodes(rt: HostRuntime) -> Result<(), Fail> {
    let alloc = rt.alloc();
    let places = Lot { state: 7 }.places(alloc, 3_000)?;
    let mut wanted = None;
    for (crew, limits) in TIGHT {
        let case = Case {
            config: WIDE,
            places: &places,
            limits,
            fails: &[],
        };
        let built = build_case(&rt, alloc, case, Plan::Threads(crew), &OpenGate)?;
        assert!(rt; built.refused == [None, None]);
        assert!(rt; built.fault == None);
        let is_tight = built.residents <= u64::from(limits.cache) && limits.cache < built.used;
        assert!(rt; is_tight);
        let is_sampled = is_sampled(&rt, alloc, &built, &mut wanted)?;
        assert!(rt; is_sampled);
    }
    Ok(())
}

// The first call of a file keeps the points of its node, and the second one returns them.
#[test]
fn a_file_that_fails_leaves_a_broken_node(rt: HostRuntime) -> Result<(), Fail> {
    let alloc = rt.alloc();
    let places = Lot { state: 7 }.places(alloc, 3_000)?;
    for (crew, limits) in TIGHT {
        for call in [0, 1] {
            let case = Case {
                config: WIDE,
                places: &places,
                limits,
                fails: &[call],
            };
            let built = build_case(&rt, alloc, case, Plan::Threads(crew), &OpenGate)?;
            assert!(rt; built.refused == [Some(WorkError::SpillFault), None]);
            assert!(rt; built.fault == Some(NodeError::SpillFault));
        }
    }
    Ok(())
}
