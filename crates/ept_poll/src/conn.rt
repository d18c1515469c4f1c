//! A connection that is polled.

ghost use Rattle.std.specs.Prelude.{◌≡◌, ◌<◌, ◌≤◌, ℕ, Option, None};
ghost use Rattle.futures.specs.Poll.{IfReady, OnPending};
ghost use Rattle.futures.specs.Task.{Covers, IsArmed, Keeps};
ghost use Rattle.ept_base.specs.Causes.{Rose};
ghost use Rattle.ept_base.specs.Files.{Files, SameFiles, Tells};
ghost use Rattle.ept_base.specs.Moves.{Moves};
ghost use Rattle.ept_conn.specs.State.{started, want_of};
ghost use Rattle.ept_poll.specs.Links.{Waits};
ghost use Rattle.ept_poll.specs.Units.{IsAs};
ghost use Rattle.ept_poll.specs.Steps.{beside, IsSomeUnit, IsUnitOrEnd, IsWaitFor};

use crate::link::PollLink;
use ept_base::{Failed, Store};
use ept_conn::{End, Session, Want};
use futures::Future;
use futures::task::{Context, Poll};
use std::alloc::Global;

/// The most bytes that one read takes.
const PIECE: usize = 8192;

/// A connection over a link and a folder, served poll by poll. One poll does at most `turns` units. A unit is one piece
/// of work, or one call of the link that moved a byte, met the end of the input or failed.
#[derive(Drop)]
pub struct PollConn<L, T> {
    pub(crate) link: L,
    pub(crate) store: T,
    pub(crate) session: Session,
    pub(crate) turns: u32,
}

impl<L: PollLink + Drop, T: Store + Drop> PollConn<L, T> {
    ghost use Rattle.ept_poll.specs.Polls.{seen, Stands};
    ghost use Rattle.ept_poll.specs.Runs.{IsUnused};

    /// A connection over which nothing has come and nothing was sent. It takes no memory.
    pub fn new(alloc: Global, link: L, store: T, turns: u32) -> PollConn<L, T>
        requires some { 0 < turns }
        requires unused { Tells IsUnused (L.wire link) }
        ensures made { result ≡ record { link = link; store = store; session = started; turns = turns } }
        ensures stands { Stands (T.faults store) (seen L.PollLink T.Store result) }
    {
        PollConn {
            link,
            store,
            session: Session::new(alloc),
            turns,
        }
    }

    /// Returns the link and the store.
    pub fn into_parts(self) -> (L, T)
        ensures { result ≡ (self.link, self.store) }
    {
        let PollConn {
            link,
            store,
            session: _,
            turns: _,
        } = self;
        (link, store)
    }
}

impl<L: PollLink + Drop, T: Store + Drop> Future for PollConn<L, T> {
    ghost use Rattle.ept_poll.specs.Polls.{IsPollable, HasPolled};

    type Output = End;

    ghost can_poll = { λ conn. IsPollable conn.turns conn.session };

    /// Does at most `turns` units. It is ready with the end of the connection. It is pending if the link waits. It is
    /// also pending after `turns` units, and then asks to be polled again.
    fn poll(&mut self, cx: &mut Context<'_>) -> Poll<End>
        requires { IsPollable self.old.turns self.old.session }
        ensures again { OnPending result (IsPollable self.new.turns self.new.session) }
        ensures registered { OnPending result (Covers cx.new (λ _. ⊥)) }
        ensures kept { Keeps cx.old cx.new }
        ensures polled { HasPolled L.PollLink T.Store self.old self.new result cx.new }
    {
        for _ in 0..self.turns {
            match unit(&mut self.session, &mut self.link, &mut self.store, cx) {
                Poll::Ready(None) => {}
                Poll::Ready(Some(end)) => return Poll::Ready(end),
                Poll::Pending => return Poll::Pending,
            }
        }
        match self.session.want() {
            Want::End(end) => Poll::Ready(end),
            _ => cx.yield_now(),
        }
    }
}

// Does one unit. Returns the end of the session if it wants nothing more. Pending if the link waits.
fn unit<L: PollLink, T: Store>(
    session: &mut Session,
    link: &mut L,
    store: &mut T,
    cx: &mut Context<'_>,
) -> Poll<Option<End>>
    ensures unit { IfReady result (λ ended. IsUnitOrEnd ended
        (beside L.PollLink link.old session.old (T.files store.old) (T.faults store.old) (T.gets store.old))
        (beside L.PollLink link.new session.new (T.files store.new) (T.faults store.new) (T.gets store.new))) }
    ensures waits { OnPending result (IsAs
        (beside L.PollLink link.old session.old (T.files store.old) (T.faults store.old) (T.gets store.old))
        (beside L.PollLink link.new session.new (T.files store.new) (T.faults store.new) (T.gets store.new))) }
    ensures why { OnPending result (IsWaitFor session.new
        (Rose (L.read_waits link.old) (L.read_waits link.new)) (Rose (L.write_waits link.old) (L.write_waits link.new))) }
    ensures armed { OnPending result (IsArmed cx.new) }
    ensures kept { Keeps cx.old cx.new }
    ensures later_reads { L.read_waits link.old ≤ L.read_waits link.new }
    ensures later_writes { L.write_waits link.old ≤ L.write_waits link.new }
    ensures any_moment { Moves T.files T.may_leave T.moment T.image_since SameFiles store.old store.new }
{
    match session.want() {
        Want::Read => read_piece(session, link, cx),
        Want::Work => {
            session.work(store);
            Poll::Ready(None)
        }
        Want::Write => write_some(session, link, cx),
        Want::End(end) => Poll::Ready(Some(end)),
    }
}

// Reads a piece, and feeds it to the session.
fn read_piece<L: PollLink>(
    session: &mut Session,
    link: &mut L,
    cx: &mut Context<'_>,
) -> Poll<Option<End>>
    requires { want_of session.old ≡ Want.Read }
    ensures none { IfReady result (λ ended. ended ≡ None) }
    ensures unit { IfReady result (λ _. (files : Option Files) (faults gets : ℕ)
        → IsSomeUnit (beside L.PollLink link.old session.old files faults gets) (beside L.PollLink link.new session.new files faults gets)) }
    ensures waits { OnPending result (Waits (L.read_waits link.old) (L.read_waits link.new) (L.wire link.old) (L.wire link.new) cx.new) }
    ensures same { OnPending result (session.new ≡ session.old) }
    ensures kept { Keeps cx.old cx.new }
    ensures later { L.faults link.old ≤ L.faults link.new }
    ensures later_reads { L.read_waits link.old ≤ L.read_waits link.new }
    ensures later_writes { L.write_waits link.old ≤ L.write_waits link.new }
{
    let mut piece = [0; PIECE];
    match link.poll_read(cx, &mut piece) {
        Poll::Ready(Ok(count)) => {
            session.feed(&piece[..count]);
            Poll::Ready(None)
        }
        Poll::Ready(Err(Failed)) => {
            session.fault();
            Poll::Ready(None)
        }
        Poll::Pending => Poll::Pending,
    }
}

// Passes the bytes to be sent to the link, and notes how many the link took.
fn write_some<L: PollLink>(
    session: &mut Session,
    link: &mut L,
    cx: &mut Context<'_>,
) -> Poll<Option<End>>
    requires { want_of session.old ≡ Want.Write }
    ensures none { IfReady result (λ ended. ended ≡ None) }
    ensures unit { IfReady result (λ _. (files : Option Files) (faults gets : ℕ)
        → IsSomeUnit (beside L.PollLink link.old session.old files faults gets) (beside L.PollLink link.new session.new files faults gets)) }
    ensures waits { OnPending result (Waits (L.write_waits link.old) (L.write_waits link.new) (L.wire link.old) (L.wire link.new) cx.new) }
    ensures same { OnPending result (session.new ≡ session.old) }
    ensures kept { Keeps cx.old cx.new }
    ensures later { L.faults link.old ≤ L.faults link.new }
    ensures later_reads { L.read_waits link.old ≤ L.read_waits link.new }
    ensures later_writes { L.write_waits link.old ≤ L.write_waits link.new }
{
    match link.poll_write(cx, session.out()) {
        Poll::Ready(Ok(count)) => {
            session.sent(count);
            Poll::Ready(None)
        }
        Poll::Ready(Err(Failed)) => {
            session.fault();
            Poll::Ready(None)
        }
        Poll::Pending => Poll::Pending,
    }
}
