//! Two workers that take turns.

ghost use Rattle.ept_work_tests.specs.Hands.{IsTable, IsPair};
ghost use Rattle.ept_work_tests.specs.Tables.{IsNewTable};

use crate::hands::{Doing, Hand, Pair, Past};
use crate::plans::Worked;
use crate::steps::{finish, step};
use ept_base::{Source, SpillFile};
use ept_table::{NodeTable, Scan, Seat};
use ept_work::Worker;
use std::alloc::Global;
use std::sync::Wait;

// The slot of the node that is held, if one is.
fn held_slot<F>(doing: &Doing<F>) -> Option<u32> {
    match doing {
        Doing::Up(visit) => Some(visit.slot()),
        Doing::Down(landing) => Some(landing.slot()),
        Doing::Rest | Doing::Ended(_) => None,
    }
}

// Whether the next step of one worker would have to wait for the node that the other holds.
fn may_wait<F: SpillFile, S: Source, J: Scan>(
    table: &NodeTable<F, S, J>,
    one: &Hand<F, S>,
    other: &Hand<F, S>,
) -> bool {
    match (&one.doing, held_slot(&other.doing)) {
        (Doing::Rest, Some(held)) => one.worker.next_slot(table) == Some(held),
        _ => false,
    }
}

// One of the workers makes a step. If it would have to wait, the other one makes it.
fn turn<F: SpillFile, S: Source, J: Scan, H: Wait>(
    rt: &H,
    alloc: Global,
    table: &NodeTable<F, S, J>,
    pair: Pair<F, S>,
    is_first: bool,
) -> Pair<F, S>
    requires table { IsTable J.told table.now }
    requires pair { IsPair F.held S.whole J.told table.now pair }
    ensures { IsPair F.held S.whole J.told table.now result }
{
    let Pair { first, second } = pair;
    let goes_first = if is_first {
        !may_wait(table, &first, &second)
    } else {
        may_wait(table, &second, &first)
    };
    if goes_first {
        Pair {
            first: step(rt, alloc, table, first),
            second,
        }
    } else {
        Pair {
            first,
            second: step(rt, alloc, table, second),
        }
    }
}

// The workers take these turns.
fn take_turns<F: SpillFile, S: Source, J: Scan, H: Wait>(
    rt: &H,
    alloc: Global,
    table: &NodeTable<F, S, J>,
    mut pair: Pair<F, S>,
    turns: &[bool],
) -> Pair<F, S>
    requires table { IsTable J.told table.now }
    requires pair { IsPair F.held S.whole J.told table.now pair }
    ensures { IsPair F.held S.whole J.told table.now result }
{
    for is_first in turns {
        pair = turn(rt, alloc, table, pair, *is_first);
    }
    pair
}

/// Two workers take these turns, and end.
pub fn work_in_turns<F: SpillFile, S: Source, J: Scan, H: Wait>(
    rt: &H,
    alloc: Global,
    table: NodeTable<F, S, J>,
    mut seat: Seat<F, S>,
    turns: &[bool],
) -> Worked<F, S>
    requires { IsNewTable J.told table seat }
{
    let other = table.split(&mut seat);
    let pair = Pair {
        first: Hand {
            worker: Worker::new(alloc, seat, 1),
            doing: Doing::Rest,
        },
        second: Hand {
            worker: Worker::new(alloc, other, 2),
            doing: Doing::Rest,
        },
    };
    let Pair { first, second } = take_turns(rt, alloc, &table, pair, turns);
    let Past { worker, refused } = finish(&table, first);
    let mut seat = worker.into_seat();
    let Past {
        worker,
        refused: other_refused,
    } = finish(&table, second);
    table.join(&mut seat, worker.into_seat());
    let (forest, reader) = table.close(seat);
    Worked {
        forest,
        reader,
        refused: [refused, other_refused],
    }
}
