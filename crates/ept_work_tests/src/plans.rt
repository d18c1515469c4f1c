//! The ways in which workers go about their work.

ghost use Rattle.std.specs.Prelude.{◌≡◌, ◌≤◌, true, [], ◌∷◌};
ghost use Rattle.ept_space.specs.VoxelKey.{root};
ghost use Rattle.ept_node.specs.Shown.{IsTelling};
ghost use Rattle.ept_forest.specs.Slots.{IsPlanted};
ghost use Rattle.ept_table.specs.Scanned.{told_of};
ghost use Rattle.ept_table_fixtures.specs.Known.{IsKnown};
ghost use Rattle.ept_work_tests.specs.Tables.{IsNewTable};

use crate::turns::work_in_turns;
use crate::visits::work_by_visits;
use ept_base::{Gate, Source, SpillFile};
use ept_forest::Forest;
use ept_scan::Reader;
use ept_table::{NodeTable, Scan, Seat, Unmade};
use ept_table_fixtures::{Known, seated};
use ept_work::{WorkError, insert_all};
use std::alloc::Global;
use std::sync::Wait;
use std::thread::Threads;

/// How workers work at a table.
#[derive(Clone, Copy)]
pub enum Plan<'a> {
    /// Two workers take these turns, in which one of them makes a step.
    Turns(&'a [bool]),
    /// One worker makes this number of steps, of which a whole visit is one.
    Visits(u32),
    /// Several workers, each in a thread.
    Threads(Crew),
}

/// The workers of a plan with threads, by their number.
#[derive(Clone, Copy)]
pub struct Crew {
    pub workers: u32,
    ghost some: { 1 ≤ workers },
    ghost few: { workers ≤ 64 },
}

/// How many nodes there may be, and how many of them in memory.
#[derive(Clone, Copy)]
pub struct Limits {
    pub most: u32,
    pub cache: u32,
    ghost some: { (1 ≤ most) × (1 ≤ cache) },
}

/// What the work at a table leaves, and why the workers were refused, if they were.
pub struct Worked<F, S> {
    pub forest: Forest<F>,
    pub reader: Reader<S>,
    pub refused: [Option<WorkError>; 2],
}

/// Workers at a table of a new forest and a known reader, which has nodes and memory within these limits.
pub fn work<
    F: SpillFile + Send + Sync,
    S: Source + Send,
    J: Scan + Sync,
    G: Gate + Sync,
    R: Threads + Wait + Sync,
>(
    rt: &R,
    alloc: Global,
    forest: Forest<F>,
    known: Known<S>,
    limits: Limits,
    plan: Plan<'_>,
    gate: &G,
) -> Worked<F, S>
    requires told { J.told ≡ told_of S.whole known.reader known.rules limits.most limits.cache (root ∷ []) true known.points.items }
    requires known { IsKnown S.whole S.left S.given S.faults known }
    requires planted { IsPlanted F.held F.faults F.keeps limits.most known.rules forest }
    requires telling { IsTelling F.held }
{
    let (table, seat) = match seated::<F, S, J>(alloc, forest, known, limits.most, limits.cache) {
        Ok(made) => made,
        Err(unmade) => {
            let Unmade { forest, reader } = unmade;
            return Worked {
                forest,
                reader,
                refused: [Some(WorkError::Memory), None],
            };
        }
    };
    match plan {
        Plan::Turns(turns) => work_in_turns(rt, alloc, table, seat, turns),
        Plan::Visits(steps) => work_by_visits(rt, alloc, table, seat, steps, gate),
        Plan::Threads(crew) => work_in_threads(rt, alloc, table, seat, crew, gate),
    }
}

// Each worker in a thread.
fn work_in_threads<
    F: SpillFile + Send + Sync,
    S: Source + Send,
    J: Scan + Sync,
    G: Gate + Sync,
    R: Threads + Wait + Sync,
>(
    rt: &R,
    alloc: Global,
    table: NodeTable<F, S, J>,
    seat: Seat<F, S>,
    crew: Crew,
    gate: &G,
) -> Worked<F, S>
    requires { IsNewTable J.told table seat }
{
    let (forest, reader, result) = insert_all(rt, alloc, table, seat, crew.workers, gate);
    Worked {
        forest,
        reader,
        refused: [result.err(), None],
    }
}
