//! Calls of `ept_core`.

use crate::notation::{key_of, point_at, points_of};
use crate::sampling::rules_of;
use crate::words::{Miss, Words, number, parted};
use crate::writing::{write_refusal, write_tiles};
use ept_core::{Core, Event, StepError, run_events};
use ept_num::lcg;
use ept_point::{Point, PointNumber};
use ept_sample::{Tiles, are_in_cube, ids_ascend, sample};
use ept_space::{Cube, Key, Rules};
use std::alloc::Global;
use std::fmt::Write;

/// Carries out a call, and writes its result.
pub(crate) fn answer(
    alloc: Global,
    call: &str,
    words: &mut Words<'_>,
    out: &mut String,
) -> Result<(), Miss> {
    match call {
        "steps" => steps(alloc, words, out),
        "run" => run(alloc, words, out),
        "lots" => lots(alloc, words, out),
        _ => Err(Miss::Form),
    }
}

// The core whose cube, threshold and number of actors are the next words, with these points.
fn core_of(alloc: Global, words: &mut Words<'_>, points: &str) -> Result<Core, Miss> {
    let rules = rules_of(words)?;
    let actors = words.number()?;
    let points = points_of(alloc, points)?;
    begun(alloc, points.as_slice(), &rules, actors)
}

fn begun(alloc: Global, points: &[Point], rules: &Rules, actors: u32) -> Result<Core, Miss> {
    if !ids_ascend(points) || !are_in_cube(points, &rules.cube) {
        return Err(Miss::Form);
    }
    Ok(Core::new(alloc, points, rules, actors)?)
}

// `draw:ACTOR:COUNT`, `arrive:ACTOR:NUMBER`, `evict:KEY` or `reload:KEY`.
fn event_of(word: &str) -> Result<Event, Miss> {
    let (kind, rest) = parted(word, ":")?;
    match kind {
        "evict" => Ok(Event::Evict { key: key_of(rest)? }),
        "reload" => Ok(Event::Reload { key: key_of(rest)? }),
        _ => event_of_actor(kind, rest),
    }
}

fn event_of_actor(kind: &str, rest: &str) -> Result<Event, Miss> {
    let (actor, n) = parted(rest, ":")?;
    let actor = number(actor)?;
    let n = number(n)?;
    match kind {
        "draw" => Ok(Event::Draw { actor, count: n }),
        "arrive" => Ok(Event::Arrive { actor, number: n }),
        _ => Err(Miss::Form),
    }
}

// `core steps CUBE THRESHOLD ACTORS EVENT EVENT .. / POINT POINT ..`: the result of each event, and the nodes at the
// end. `finished` follows a result if the core is finished then.
fn steps(alloc: Global, words: &mut Words<'_>, out: &mut String) -> Result<(), Miss> {
    let (first, points) = parted(words.rest(), " /")?;
    let mut words = Words::of(first);
    let mut core = core_of(alloc, &mut words, points)?;
    step_all(&mut core, words.rest(), out)
}

fn step_all(core: &mut Core, events: &str, out: &mut String) -> Result<(), Miss> {
    for word in events.split_whitespace() {
        step(core, event_of(word)?, out)?;
    }
    write_tiles(&core.tiles()?, out)
}

fn step(core: &mut Core, event: Event, out: &mut String) -> Result<(), Miss> {
    if !out.is_empty() {
        out.push(' ')?;
    }
    match core.step(event) {
        Ok(()) => out.push_str("ok")?,
        Err(StepError::Memory) => return Err(Miss::Memory),
        Err(refused) => write!(out, "{refused:?}")?,
    }
    if core.finished() {
        out.push_str(" finished")?;
    }
    Ok(())
}

// `core run CUBE THRESHOLD ACTORS EVENT EVENT .. / POINT POINT ..`: the result of the run of the events, whether the
// core is finished then, and the nodes.
fn run(alloc: Global, words: &mut Words<'_>, out: &mut String) -> Result<(), Miss> {
    let (first, points) = parted(words.rest(), " /")?;
    let mut words = Words::of(first);
    let mut core = core_of(alloc, &mut words, points)?;
    run_all(&mut core, events_of(alloc, words.rest())?.as_slice(), out)
}

fn events_of(alloc: Global, words: &str) -> Result<Vec<Event>, Miss> {
    let mut events = Vec::new(alloc);
    for word in words.split_whitespace() {
        events.push(event_of(word)?)?;
    }
    Ok(events)
}

fn run_all(core: &mut Core, events: &[Event], out: &mut String) -> Result<(), Miss> {
    match run_events(core, events) {
        Ok(()) => out.push_str("ok")?,
        Err(refused) => write_refusal(&refused, out)?,
    }
    write!(out, " {}", core.finished())?;
    write_tiles(&core.tiles()?, out)
}

// How many actors, points and events a random list has.
const ACTORS: u32 = 3;

const POINTS: u32 = 200;

const EVENTS: u32 = 300;

// `core lots FIRST LAST`: how many of the random lists of events, from number FIRST to the one before LAST, end in the
// sampling of their points. What is left after a list is drawn first, and lands.
fn lots(alloc: Global, words: &mut Words<'_>, out: &mut String) -> Result<(), Miss> {
    let first = words.number::<u64>()?;
    let last = words.number::<u64>()?;
    let mut count = 0u64;
    for list in first..last {
        if ends_in_the_sampling(alloc, list)? {
            count = count.saturating_add(1);
        }
    }
    write!(out, "{count}")?;
    Ok(())
}

// Numbers that look random, the same in each run.
#[derive(Drop)]
struct Lot {
    state: u64,
}

impl Lot {
    fn next(&mut self) -> u32 {
        self.state = lcg(self.state);
        (self.state >> 33) as u32
    }

    fn coordinate(&mut self) -> i32 {
        (self.next() % 32) as i32
    }

    fn point(&mut self, number: u32) -> Point {
        let place = [self.coordinate(), self.coordinate(), self.coordinate()];
        point_at(0, PointNumber::from(number), place)
    }

    fn key(&mut self) -> Key {
        match self.next() % 3 {
            0 => Key::ROOT,
            1 => Key {
                depth: 1,
                x: 1,
                y: 1,
                z: 1,
            },
            _ => Key {
                depth: 1,
                x: 0,
                y: 1,
                z: 0,
            },
        }
    }

    fn event(&mut self) -> Event {
        let actor = self.next() % ACTORS;
        match self.next() % 8 {
            0 | 1 => Event::Draw {
                actor,
                count: self.next() % 9,
            },
            2 => Event::Evict { key: self.key() },
            3 => Event::Reload { key: self.key() },
            _ => Event::Arrive {
                actor,
                number: self.next() % 4,
            },
        }
    }
}

fn rules_by_lot(lot: &mut Lot) -> Rules {
    let cube = Cube {
        corner: [0, 0, 0],
        e: 5,
        s: 1,
        depth: 4,
    };
    Rules::plain(cube, u64::from(lot.next() % 4))
}

fn ends_in_the_sampling(alloc: Global, list: u64) -> Result<bool, Miss> {
    let mut lot = Lot { state: list };
    let rules = rules_by_lot(&mut lot);
    let mut points = Vec::new(alloc);
    for number in 0..POINTS {
        points.push(lot.point(number))?;
    }
    is_sampled(alloc, points.as_slice(), &rules, &mut lot)
}

// Whether the core of the points ends in their sampling, whatever events happen first.
fn is_sampled(alloc: Global, points: &[Point], rules: &Rules, lot: &mut Lot) -> Result<bool, Miss> {
    let mut core = begun(alloc, points, rules, ACTORS)?;
    for _event in 0..EVENTS {
        let _happened = core.step(lot.event()).is_ok();
    }
    reload_all(&mut core)?;
    land_all(&mut core);
    let sampled = sampling(alloc, points, rules)?;
    Ok(core.finished() && are_same(&core.tiles()?, &sampled))
}

fn sampling(alloc: Global, points: &[Point], rules: &Rules) -> Result<Tiles, Miss> {
    if !ids_ascend(points) || !are_in_cube(points, &rules.cube) {
        return Err(Miss::Form);
    }
    Ok(sample(alloc, points, rules)?)
}

// Reloads each node.
fn reload_all(core: &mut Core) -> Result<(), Miss> {
    let tiles = core.tiles()?;
    for tile in tiles.tiles.as_slice() {
        let _spilled = core.step(Event::Reload { key: tile.key }).is_ok();
    }
    Ok(())
}

// Draws what is left, and lets all flights arrive.
fn land_all(core: &mut Core) {
    let all = Event::Draw {
        actor: 0,
        count: u32::MAX,
    };
    let _drawn = core.step(all).is_ok();
    for _round in 0..4000 {
        if core.finished() {
            return;
        }
        for actor in 0..ACTORS {
            let _landed = core.step(Event::Arrive { actor, number: 0 }).is_ok();
        }
    }
}

fn are_same(one: &Tiles, other: &Tiles) -> bool {
    let one = one.tiles.as_slice();
    let other = other.tiles.as_slice();
    one.len() == other.len()
        && one.iter().zip(other.iter()).all(|(tile, same)| {
            tile.key == same.key && tile.points.as_slice() == same.points.as_slice()
        })
}
