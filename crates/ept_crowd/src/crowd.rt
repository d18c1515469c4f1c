//! Connections that take turns on one thread.

ghost use Rattle.std.specs.Prelude.{◌≡◌, ◌≢◌, ◌<◌, ◌≤◌, ◌+◌, ℕ, List, [], ◌∷◌, ◌++◌, length, IfSome, IfNone, vec_capacity};
ghost use Rattle.std.specs.List.{All, remove};
ghost use Rattle.futures.specs.Poll.{IfReady, OnPending};
ghost use Rattle.futures.specs.Task.{Covers, IsArmed, Keeps};
ghost use Rattle.ept_poll.specs.Polls.{IsPollable, HasPolled};
ghost use Rattle.ept_crowd.specs.Members.{IsReady, ended_as, with_conn, IsAmong, is_over, still};

use crate::answers::{AddError, Turned};
use crate::member::{Finished, Live};
use ept_base::Store;
use ept_conn::End;
use ept_poll::{PollConn, PollLink};
use futures::Future;
use futures::task::{Context, Poll};
use std::alloc::Global;

/// The most connections that may be live at once.
const MOST: usize = 256;

/// Connections that take turns on one thread. A connection that has not ended is live. A connection that has ended is
/// kept with its end until it is taken. The number of a connection is the number of those added before it.
///
/// It is a future that gives each live connection a turn in each poll. It is ready when no connection is live.
#[derive(Drop)]
pub struct Crowd<L, T> {
    live: Vec<Live<L, T>>,
    ended: Vec<Finished<L, T>>,
    added: u32,
    // At most 256 connections are live.
    ghost few: { length live.items ≤ 256 },
    // Each live connection may be polled.
    ghost ready: { All IsReady live.items },
    // There is room for the end of each live connection.
    ghost room: { length ended.items + length live.items ≤ vec_capacity ended },
}

impl<L: PollLink + Drop, T: Store + Drop> Crowd<L, T> {
    ghost use Rattle.ept_crowd.specs.Shown.{shown, nothing};
    ghost use Rattle.ept_crowd.specs.Calls.{HasAdded, HasTaken};
    ghost use Rattle.ept_crowd.specs.Turns.{IsTurn, HasTurned, HasTurnedAll};

    /// A crowd without a connection. It takes no memory.
    pub fn new(alloc: Global) -> Crowd<L, T>
        ensures { shown result ≡ nothing }
    {
        Crowd {
            live: Vec::new(alloc),
            ended: Vec::new(alloc),
            added: 0,
        }
    }

    /// The number of live connections.
    pub fn live(&self) -> u32
        ensures { result ≡ length (shown self.now).live }
    {
        self.live.len() as u32
    }

    /// Adds a connection, of which no poll was ready, and returns its number. It makes the room in which the
    /// connection's end is kept, so no turn takes memory.
    ///
    /// # Errors
    ///
    /// `Full` if 256 connections are live, otherwise `Spent` if 4,294,967,295 were added, and `Memory` if memory runs
    /// out. After an error the crowd is as before, and the error has the connection that was not added.
    pub fn add(&mut self, conn: PollConn<L, T>) -> Result<u32, AddError<L, T>>
        requires { IsPollable conn.turns conn.session }
        ensures { HasAdded (shown self.old) conn result (shown self.new) }
    {
        if self.live.len() == MOST {
            return Err(AddError::Full(conn));
        }
        if self.added == u32::MAX {
            return Err(AddError::Spent(conn));
        }
        if self.ended.reserve(self.live.len() + 1).is_err() {
            return Err(AddError::Memory(conn));
        }
        let number = self.added;
        match self.live.push(Live { number, conn }) {
            Ok(()) => {
                self.added = number + 1;
                Ok(number)
            }
            Err(refused) => Err(AddError::Memory(refused.value.conn)),
        }
    }

    /// Polls the live connection of this number once. It takes no memory.
    pub fn turn(&mut self, number: u32, cx: &mut Context<'_>) -> Turned
        ensures turned { HasTurned L.PollLink T.Store number (shown self.old) (shown self.new) cx.new result }
        ensures kept { Keeps cx.old cx.new }
    {
        match place_of(&self.live, number) {
            Some(place) => self.turn_at(place, cx),
            None => Turned::Gone,
        }
    }

    /// Polls each live connection once, in order of number, and returns whether no connection is live then. It takes no
    /// memory.
    pub fn turn_all(&mut self, cx: &mut Context<'_>) -> bool
        ensures turned { HasTurnedAll L.PollLink T.Store (shown self.old) (shown self.new) cx.old cx.new result }
        ensures kept { Keeps cx.old cx.new }
    {
        let mut place = 0;
        for _ in 0..self.live.len() {
            place = self.turn_next(place, cx);
        }
        self.live.is_empty()
    }

    /// Takes the first of the connections that have ended and were not taken yet: its number, its end, its link and its
    /// store. Returns nothing if there is no such connection. It takes no memory.
    pub fn take_ended(&mut self) -> Option<(u32, End, L, T)>
        ensures { HasTaken (shown self.old) result (shown self.new) }
    {
        if self.ended.is_empty() {
            return None;
        }
        let Finished { number, end, conn } = self.ended.remove(0);
        let (link, store) = conn.into_parts();
        Some((number, end, link, store))
    }

    // Polls the live connection at this place, and returns the place of the next one.
    fn turn_next(&mut self, place: usize, cx: &mut Context<'_>) -> usize
        requires { place < length (shown self.old).live }
        ensures turned { (front back : List (Live L T)) (member : Live L T) → (shown self.old).live ≡ front ++ (member ∷ back) → length front ≡ place
            → (answer : Turned) × IsTurn L.PollLink T.Store front member back (shown self.old) (shown self.new) cx.new answer × (result ≡ place + still answer) }
        ensures kept { Keeps cx.old cx.new }
    {
        match self.turn_at(place, cx) {
            Turned::Pending => place + 1,
            _ => place,
        }
    }

    // Polls the live connection at this place.
    fn turn_at(&mut self, place: usize, cx: &mut Context<'_>) -> Turned
        requires { place < length (shown self.old).live }
        ensures turned { (front back : List (Live L T)) (member : Live L T) → (shown self.old).live ≡ front ++ (member ∷ back) → length front ≡ place
            → IsTurn L.PollLink T.Store front member back (shown self.old) (shown self.new) cx.new result }
        ensures kept { Keeps cx.old cx.new }
    {
        match poll_at(&mut self.live, place, cx) {
            Poll::Pending => Turned::Pending,
            Poll::Ready(end) => {
                end_at(&mut self.live, &mut self.ended, place, end);
                Turned::Ended
            }
        }
    }
}

impl<L: PollLink + Drop, T: Store + Drop> Future for Crowd<L, T> {
    ghost use Rattle.ept_crowd.specs.Shown.{shown};
    ghost use Rattle.ept_crowd.specs.Turns.{HasTurnedAll};

    type Output = ();

    /// Gives each live connection one turn, in order of number. It is ready if no connection is live then.
    fn poll(&mut self, cx: &mut Context<'_>) -> Poll<()>
        ensures turned { HasTurnedAll L.PollLink T.Store (shown self.old) (shown self.new) cx.old cx.new (is_over result) }
        ensures registered { OnPending result (Covers cx.new (λ _. ⊥)) }
        ensures kept { Keeps cx.old cx.new }
    {
        if self.turn_all(cx) {
            Poll::Ready(())
        } else {
            Poll::Pending
        }
    }
}

// The place of the live connection of this number.
fn place_of<L, T>(live: &[Live<L, T>], number: u32) -> Option<usize>
    ensures some { IfSome result (λ place. (front back : List (Live L T)) × (member : Live L T) × (live.now ≡ front ++ (member ∷ back)) × (length front ≡ place) × (member.number ≡ number)) }
    ensures none { IfNone result (¬ IsAmong number live.now) }
{
    for (place, member) in live.iter().enumerate() {
        if member.number == number {
            return Some(place);
        }
    }
    None
}

// Polls the connection at this place.
fn poll_at<L: PollLink + Drop, T: Store + Drop>(
    live: &mut Vec<Live<L, T>>,
    place: usize,
    cx: &mut Context<'_>,
) -> Poll<End>
    requires there { place < length live.old.items }
    requires ready { All IsReady live.old.items }
    ensures polled { (front back : List (Live L T)) (member : Live L T) → live.old.items ≡ front ++ (member ∷ back) → length front ≡ place
        → (conn : PollConn L T) × (live.new.items ≡ front ++ (with_conn member conn ∷ back)) × HasPolled L.PollLink T.Store member.conn conn result cx.new }
    ensures again { OnPending result (All IsReady live.new.items) }
    ensures others { All IsReady (remove live.new.items place) }
    ensures as_many { length live.new.items ≡ length live.old.items }
    ensures armed { OnPending result (IsArmed cx.new) }
    ensures kept { Keeps cx.old cx.new }
{
    let member = &mut live[place];
    member.conn.poll(cx)
}

// Moves the connection at this place to the end of those that have ended, with its end.
fn end_at<L, T>(live: &mut Vec<Live<L, T>>, ended: &mut Vec<Finished<L, T>>, place: usize, end: End)
    requires there { place < length live.old.items }
    requires room { length ended.old.items < vec_capacity ended.old }
    ensures left { live.new.items ≡ remove live.old.items place }
    ensures one_less { length live.new.items + 1 ≡ length live.old.items }
    ensures one_more { length ended.new.items ≡ length ended.old.items + 1 }
    ensures moved { (front back : List (Live L T)) (member : Live L T) → live.old.items ≡ front ++ (member ∷ back) → length front ≡ place
        → (live.new.items ≡ front ++ back) × (ended.new.items ≡ ended.old.items ++ (ended_as member end ∷ [])) }
    ensures capacity { vec_capacity ended.new ≡ vec_capacity ended.old }
{
    let Live { number, conn } = live.remove(place);
    ended.push_reserved(Finished { number, end, conn });
}
