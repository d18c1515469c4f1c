//! Slots that are loaded with permits, and emptied again.
ghost use Rattle.std.specs.Prelude.{◌≡◌, ◌+◌, ◌<◌, ◌≤◌, length, IfOk, ⊤};
ghost use Rattle.std.specs.List.{sum_by};
ghost use Rattle.ept_slots.specs.Seating.{view, count_of, IsSeatOf};
ghost use Rattle.ept_table_tests.specs.Trade.{one};
ghost use Rattle.ept_table_tests.specs.Loads.{load_of, Anything, IsIdleWith};

use atomic_table::{Join, Split};
use ept_slots::{Ending, Give, Refused, SlotRule, SlotSeat, Slots, Take};
use std::alloc::Global;
use std::sync::Wait;
use std::thread;
use std::thread::Threads;

pub struct Loading;

impl SlotRule<bool, u64, u64> for Loading {
    ghost holds = { Anything };

    ghost most = { one };

    ghost permits = { λ permits. permits };

    ghost weight = { load_of };

    ghost first = { λ _. 0 };
}

// Nothing is known.
pub struct Any;

impl Take<bool, u64> for Any {
    ghost tells = { λ _ _ _ _. ⊤ };
}

impl Give<bool, u64, u64> for Any {
    ghost tells = { λ _ _ _ _. ⊤ };
}

impl Split<u64> for Any {
    ghost left = { λ n. n };

    ghost right = { λ n. n };
}

impl Join<u64> for Any {
    ghost both = { λ n _. n };

    ghost spent = { 0 };
}

pub type Bay = Slots<bool, u64, u64, u64, Loading>;

pub type Loader = SlotSeat<bool, u64, u64>;

// Leaves a load in a slot, for which the loader has a permit, or no load. What was loaded there returns its permit.
fn put<H: Wait>(rt: &H, bay: &Bay, loader: &mut Loader, slot: usize, is_loaded: bool)
    requires seat { IsSeatOf one bay.now loader.old }
    requires idle { IsIdleWith (view loader.old) (view loader.old).parts (load_of is_loaded) × (0 < (view loader.old).parts) }
    requires slot { slot < count_of bay.now }
    ensures seat { IsSeatOf one bay.now loader.new × (loader.new.id ≡ loader.old.id) }
    ensures idle { IsIdleWith (view loader.new) (view loader.old).parts 0 }
{
    let was_loaded = bay.take::<Any, H>(rt, loader, slot);
    bay.give::<Any>(loader, slot, is_loaded, 0, is_loaded);
    if !was_loaded {
        return;
    }
    bay.give_permit(loader);
}

// Loads a slot, if there is a permit for it.
fn load<H: Wait>(rt: &H, bay: &Bay, loader: &mut Loader, slot: usize) -> bool
    requires seat { IsSeatOf one bay.now loader.old }
    requires idle { IsIdleWith (view loader.old) (view loader.old).parts 0 × (0 < (view loader.old).parts) }
    requires slot { slot < count_of bay.now }
    ensures seat { IsSeatOf one bay.now loader.new × (loader.new.id ≡ loader.old.id) }
    ensures idle { IsIdleWith (view loader.new) (view loader.old).parts 0 }
{
    if !bay.try_permit(loader) {
        return false;
    }
    put(rt, bay, loader, slot, true);
    true
}

// Loads two slots, empties the first and loads it again.
fn work<H: Wait>(rt: &H, bay: &Bay, mut loader: Loader, from: usize, to: usize) -> Loader
    requires seat { IsSeatOf one bay.now loader }
    requires idle { IsIdleWith (view loader) (view loader).parts 0 × (0 < (view loader).parts) }
    requires slots { (from < count_of bay.now) × (to < count_of bay.now) }
    ensures seat { IsSeatOf one bay.now result × (result.id ≡ loader.id) }
    ensures idle { IsIdleWith (view result) (view loader).parts 0 }
{
    load(rt, bay, &mut loader, from);
    load(rt, bay, &mut loader, to);
    put(rt, bay, &mut loader, from, false);
    load(rt, bay, &mut loader, from);
    loader
}

// Two loaders, each in a thread: what is loaded at the end and what is free then are all permits.
pub fn load_apart<R: Threads + Wait + Sync>(
    rt: &R,
    alloc: Global,
    items: Vec<bool, Global>,
    permits: u64,
) -> Result<Ending<bool>, Refused<bool>>
    requires two { 2 ≤ length items.items }
    requires empty { sum_by load_of items.items ≡ 0 }
    ensures { IfOk result (λ ending. ending.free + sum_by load_of ending.items.items ≡ permits) }
{
    let (bay, mut loader): (Bay, Loader) = Slots::new(alloc, items, 0, 1, permits, &permits)?;
    let other = bay.split::<Any>(&mut loader);
    let there = &bay;
    let (mut loader, other) = thread::join(
        rt,
        move || work(rt, there, loader, 0, 1),
        move || work(rt, there, other, 1, 0),
    );
    bay.join::<Any>(&mut loader, other);
    Ok(bay.close(loader))
}

#[derive(Drop)]
pub struct Loaded {
    pub answers: (bool, bool, bool, bool),
    pub wanted: (bool, bool),
    pub ending: Ending<bool>,
}

// Loads three slots, then empties the first one and tries the third one again.
pub fn load_three<H: Wait>(
    rt: &H,
    alloc: Global,
    items: Vec<bool, Global>,
    free: u64,
    permits: u64,
) -> Result<Loaded, Refused<bool>>
    requires three { 3 ≤ length items.items }
    requires permits { free + sum_by load_of items.items ≡ permits }
    ensures { IfOk result (λ loaded. loaded.ending.free + sum_by load_of loaded.ending.items.items ≡ permits) }
{
    let (bay, mut loader): (Bay, Loader) = Slots::new(alloc, items, 0, 1, free, &permits)?;
    let first = load(rt, &bay, &mut loader, 0);
    let second = load(rt, &bay, &mut loader, 1);
    let third = load(rt, &bay, &mut loader, 2);
    let was_wanted = bay.is_wanted(0);
    put(rt, &bay, &mut loader, 0, false);
    let is_wanted = bay.is_wanted(0);
    let again = load(rt, &bay, &mut loader, 2);
    Ok(Loaded {
        answers: (first, second, third, again),
        wanted: (was_wanted, is_wanted),
        ending: bay.close(loader),
    })
}
