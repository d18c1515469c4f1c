//! Numbers that are traded at a table: a trader leaves what it carries in a slot and takes what was there.
ghost use Rattle.std.specs.Prelude.{◌≡◌, ℕ, ◌+◌, ◌<◌, ◌≤◌, length, IfOk, IfSome, unwrap_or};
ghost use Rattle.std.specs.List.{sum_by};
ghost use Rattle.ept_slots.specs.Views.{HoldsNothing};
ghost use Rattle.ept_slots.specs.Seating.{view, count_of, key_of, IsSeatOf};
ghost use Rattle.ept_table_tests.specs.Trade.{AddsUp, one, KeepsNote, IsFreeWith, number};

use atomic_table::{Join, Split};
use ept_slots::{Draw, Ending, Give, Look, Note, Refused, SlotRule, SlotSeat, Slots, Take};
use std::alloc::Global;
use std::sync::Wait;
use std::thread;
use std::thread::Threads;

pub struct Constant;

impl SlotRule<u64, u64, u64> for Constant {
    ghost holds = { AddsUp };

    ghost most = { one };

    ghost permits = { λ _. 0 };

    ghost weight = { λ _. 0 };

    ghost first = { λ _. 0 };
}

// The note stays.
pub struct Same;

impl Take<u64, u64> for Same {
    ghost tells = { λ v _ _ n. KeepsNote v n };
}

impl Look<u64, u64> for Same {
    ghost tells = { λ v _ n. KeepsNote v n };
}

impl Note<u64, u64, u64> for Same {
    ghost tells = { λ v _ n. KeepsNote v n };
}

// The only number that can be drawn is 1.
impl Draw<u64, u64> for Same {
    ghost tells = { λ v k n. KeepsNote v n × IfSome k (λ j. j ≡ 1) };
}

// What is said is carried from now on.
pub struct Carries;

impl Give<u64, u64, u64> for Carries {
    ghost tells = { λ _ _ w n. n ≡ w };
}

impl Split<u64> for Carries {
    ghost left = { λ n. n };

    ghost right = { λ _. 0 };
}

impl Join<u64> for Carries {
    ghost both = { λ n m. n + m };

    ghost spent = { 0 };
}

pub type Market = Slots<u64, u64, u64, u64, Constant>;

pub type Trader = SlotSeat<u64, u64, u64>;

// Leaves what the trader carries in a slot, and returns what was there.
fn trade<H: Wait>(rt: &H, market: &Market, trader: &mut Trader, slot: usize, carried: u64) -> u64
    requires seat { IsSeatOf one market.now trader.old }
    requires idle { HoldsNothing (view trader.old) × (0 < (view trader.old).parts) × ((view trader.old).note ≡ carried) }
    requires slot { slot < count_of market.now }
    ensures seat { IsSeatOf one market.now trader.new × (trader.new.id ≡ trader.old.id) }
    ensures step { IsFreeWith (view trader.old) (view trader.new) result }
{
    let found = market.take::<Same, H>(rt, trader, slot);
    market.give::<Carries>(trader, slot, carried, found, false)
}

// Trades at one slot, and then at another.
fn work<H: Wait>(
    rt: &H,
    market: &Market,
    mut trader: Trader,
    from: usize,
    to: usize,
) -> (Trader, u64)
    requires seat { IsSeatOf one market.now trader }
    requires idle { HoldsNothing (view trader) × (0 < (view trader).parts) × ((view trader).note ≡ 0) }
    requires slots { (from < count_of market.now) × (to < count_of market.now) }
    ensures seat { IsSeatOf one market.now result.0 × (result.0.id ≡ trader.id) }
    ensures step { IsFreeWith (view trader) (view result.0) result.1 }
{
    let first = trade(rt, market, &mut trader, from, 0);
    let second = trade(rt, market, &mut trader, to, first);
    (trader, second)
}

#[derive(Drop)]
pub struct Traded {
    pub items: Vec<u64, Global>,
    pub first: u64,
    pub second: u64,
}

// The second trader ends, and then the table.
fn finish(market: Market, mut trader: Trader, first: u64, other: Trader, second: u64) -> Traded
    requires seats { IsSeatOf one market trader × IsSeatOf one market other }
    requires idle { HoldsNothing (view trader) × HoldsNothing (view other) }
    requires halves { ((view trader).parts ≡ 2147483648) × ((view other).parts ≡ 2147483648) }
    requires carried { ((view trader).note ≡ first) × ((view other).note ≡ second) }
    ensures { sum_by number result.items.items + (result.first + result.second) ≡ key_of market }
{
    market.join::<Carries>(&mut trader, other);
    let Ending {
        items,
        drawn: _drawn,
        free: _free,
    } = market.close(trader);
    Traded {
        items,
        first,
        second,
    }
}

// Two traders, each in a thread: what is in the slots at the end and what they carry then is what was there at first.
pub fn trade_apart<R: Threads + Wait + Sync>(
    rt: &R,
    alloc: Global,
    items: Vec<u64, Global>,
    total: u64,
) -> Result<Traded, Refused<u64>>
    requires two { 2 ≤ length items.items }
    requires total { total ≡ sum_by number items.items }
    ensures { IfOk result (λ t. sum_by number t.items.items + (t.first + t.second) ≡ total) }
{
    let (market, mut trader): (Market, Trader) = Slots::new(alloc, items, 0, 1, 0, &total)?;
    let other = market.split::<Carries>(&mut trader);
    let there = &market;
    let ((trader, first), (other, second)) = thread::join(
        rt,
        move || work(rt, there, trader, 0, 1),
        move || work(rt, there, other, 1, 0),
    );
    Ok(finish(market, trader, first, other, second))
}

#[derive(Drop)]
pub struct Drawn {
    pub first: Option<u32>,
    pub second: Option<u32>,
    pub seen: u64,
    pub ending: Ending<u64>,
}

// Two slots are asked for, and one may be drawn.
pub fn draw_twice(alloc: Global, items: Vec<u64, Global>, total: u64) -> Result<Drawn, Refused<u64>>
    requires total { total ≡ sum_by number items.items }
    ensures { IfOk result (λ d. IfSome d.first (λ k. k ≡ 1) × (sum_by number d.ending.items.items ≡ total)) }
{
    let (market, mut trader): (Market, Trader) = Slots::new(alloc, items, 0, 1, 0, &total)?;
    let first = market.draw::<Same>(&mut trader);
    let second = market.draw::<Same>(&mut trader);
    let seen = market.look::<Same>(&mut trader);
    let ending = market.close(trader);
    Ok(Drawn {
        first,
        second,
        seen,
        ending,
    })
}

// One attempt to take what is in the first slot, which is left empty then.
fn try_once(market: &Market, trader: &mut Trader) -> Option<u64>
    requires seat { IsSeatOf one market.now trader.old }
    requires idle { HoldsNothing (view trader.old) × (0 < (view trader.old).parts) × ((view trader.old).note ≡ 0) }
    requires slot { 0 < count_of market.now }
    ensures seat { IsSeatOf one market.now trader.new × (trader.new.id ≡ trader.old.id) }
    ensures step { IsFreeWith (view trader.old) (view trader.new) (unwrap_or result 0) }
{
    let found = market.try_take::<Same>(trader, 0)?;
    market.note::<Same>(trader, 0, found);
    Some(market.give::<Carries>(trader, 0, 0, found, false))
}

// What one attempt takes is missing at the end, and nothing else.
pub fn take_first(
    alloc: Global,
    items: Vec<u64, Global>,
    total: u64,
) -> Result<(Ending<u64>, Option<u64>), Refused<u64>>
    requires some { 0 < length items.items }
    requires total { total ≡ sum_by number items.items }
    ensures { IfOk result (λ t. sum_by number t.0.items.items + unwrap_or t.1 0 ≡ total) }
{
    let (market, mut trader): (Market, Trader) = Slots::new(alloc, items, 0, 1, 0, &total)?;
    let taken = try_once(&market, &mut trader);
    Ok((market.close(trader), taken))
}
