//! The connections that a listener accepts, served by one thread.

ghost use Rattle.futures.specs.Poll.{OnPending};
ghost use Rattle.futures.specs.Task.{Covers, IsArmed, Keeps};

use crate::accepting::{PAUSE, is_passing};
use crate::logging::{how_ended, log_of};
use ept_conn::End;
use ept_crowd::{AddError, Crowd};
use ept_log::WatchedLink;
use ept_poll::PollConn;
use ept_real::{ReadStore, RealFiles};
use ept_tokio::TokioLink;
use futures::Future;
use futures::task::{Context, Poll};
use std::alloc::AllocGlobal;
use std::io;
use std::net::Net;
use std::random::RandomSource;
use std::sync::Wait;
use std::time::{Clock, Duration, Instant};
use tokio::net::{TcpListener, TcpStream};
use tokio::runtime::LocalRuntime;
use tokio::time::{Handle, Sleep};

/// The most connections that are served at once.
const MOST: u32 = 256;

/// The most units of work that a connection does in one turn.
const TURNS: u32 = 64;

/// Serves the connections that are accepted on this one thread, at most 256 at once. Each has a store of its own over
/// the folder `out`.
///
/// It serves `connections` of them, or serves without end if that is `None`. It returns once all of them have ended. If
/// `logs` is true, each request becomes a line on standard error.
///
/// # Errors
///
/// The error of an accept. An accept that fails because the peer has gone, or because there is no room for one more
/// connection, is tried again.
pub fn serve_single<R>(
    rt: &R,
    host: &HostRuntime,
    listener: std::net::TcpListener,
    out: &str,
    connections: Option<u32>,
    logs: bool,
) -> io::Result<()>
where
    R: Wait + Clock + Net + RandomSource + AllocGlobal,
{
    let mut runtime = LocalRuntime::new(rt)?;
    let serving = serving_of(rt, host, runtime.handle(), listener, out, connections, logs)?;
    runtime.block_on(rt, serving)?
}

fn serving_of<'a, R: Clock>(
    clock: &'a R,
    host: &'a HostRuntime,
    handle: &tokio::runtime::Handle,
    listener: std::net::TcpListener,
    out: &'a str,
    connections: Option<u32>,
    logs: bool,
) -> io::Result<Serving<'a, R>> {
    let timers = handle.time().clone()?;
    let listener = TcpListener::from_std(listener, handle.reactor())?;
    Ok(Serving {
        clock,
        host,
        out,
        logs,
        pause: Pause::new(clock, &timers)?,
        timers,
        listener: Some(listener),
        left: connections.map_or(u64::MAX, u64::from),
        fault: None,
        crowd: Crowd::new(host.alloc()),
        closing: Vec::new(host.alloc()),
    })
}

// The time until accepting is tried again.
#[derive(Drop)]
struct Pause {
    timer: Sleep,
    is_on: bool,
}

impl Pause {
    fn new<R: Clock>(clock: &R, timers: &Handle) -> io::Result<Pause> {
        Ok(Pause {
            timer: timers.sleep(clock, Duration::from_millis(PAUSE))?,
            is_on: false,
        })
    }

    fn begin<R: Clock>(&mut self, clock: &R) {
        if let Ok(now) = Instant::now(clock) {
            let until = now.checked_add(Duration::from_millis(PAUSE));
            self.timer.reset(until.unwrap_or(now));
            self.is_on = true;
        }
    }

    // Ready if the pause is over, or was not begun.
    fn poll_over(&mut self, cx: &mut Context<'_>) -> Poll<()>
        ensures armed { OnPending result (IsArmed cx.new) }
        ensures kept { Keeps cx.old cx.new }
    {
        if !self.is_on {
            return Poll::Ready(());
        }
        match self.timer.poll(cx) {
            Poll::Ready(_) => {
                self.is_on = false;
                Poll::Ready(())
            }
            Poll::Pending => Poll::Pending,
        }
    }
}

type Link<'a, R> = TokioLink<'a, R, TcpStream>;

type Watched<'a, R> = WatchedLink<'a, Link<'a, R>, HostRuntime>;

type Folder<'a> = ReadStore<'a, RealFiles<'a, HostRuntime>>;

// The connections that are accepted and served.
#[derive(Drop)]
struct Serving<'a, R> {
    clock: &'a R,
    host: &'a HostRuntime,
    out: &'a str,
    logs: bool,
    timers: Handle,
    // `None` if no more connections are accepted. The listener is closed then.
    listener: Option<TcpListener>,
    // The number of connections that are still to be accepted.
    left: u64,
    pause: Pause,
    // Why no more connections are accepted, if accepting failed.
    fault: Option<io::Error>,
    crowd: Crowd<Watched<'a, R>, Folder<'a>>,
    // Connections that have ended. What their peers still send is read.
    closing: Vec<Link<'a, R>>,
}

impl<'a, R: Clock> Serving<'a, R> {
    fn is_full(&self) -> bool {
        self.crowd.live() >= MOST
    }

    // Accepts connections while they come and there is room. Ready if no other connection is waited for.
    fn accept_all(&mut self, cx: &mut Context<'_>) -> Poll<()>
        ensures armed { OnPending result (IsArmed cx.new) }
        ensures kept { Keeps cx.old cx.new }
    {
        for _ in 0..MOST {
            if self.is_full() || self.listener.is_none() {
                return Poll::Ready(());
            }
            match self.accept_one(cx) {
                Poll::Ready(()) => {}
                Poll::Pending => return Poll::Pending,
            }
        }
        cx.yield_now()
    }

    // Waits for the next connection, and begins to serve it.
    fn accept_one(&mut self, cx: &mut Context<'_>) -> Poll<()>
        ensures armed { OnPending result (IsArmed cx.new) }
        ensures kept { Keeps cx.old cx.new }
    {
        match self.pause.poll_over(cx) {
            Poll::Ready(()) => self.poll_listener(cx),
            Poll::Pending => Poll::Pending,
        }
    }

    fn poll_listener(&mut self, cx: &mut Context<'_>) -> Poll<()>
        ensures armed { OnPending result (IsArmed cx.new) }
        ensures kept { Keeps cx.old cx.new }
    {
        let Some(listener) = &mut self.listener else {
            return Poll::Ready(());
        };
        match listener.poll_accept(cx) {
            Poll::Ready(Ok((stream, _))) => self.take_up(stream),
            Poll::Ready(Err(error)) => self.refused(error),
            Poll::Pending => return Poll::Pending,
        }
        Poll::Ready(())
    }

    // Serves a connection from now on. A connection for which there is no memory is closed.
    fn take_up(&mut self, stream: TcpStream) {
        self.left = self.left.saturating_sub(1);
        if self.left == 0 {
            self.listener = None;
        }
        // Without it small responses may wait for the peer.
        let _ = stream.set_nodelay(true);
        let log = if self.logs {
            log_of(self.host, stream.peer_addr())
        } else {
            None
        };
        if let Ok(link) = TokioLink::new(self.clock, &self.timers, stream) {
            self.join(WatchedLink::new(link, log));
        }
    }

    // Adds a connection to the crowd. A crowd that has had 4,294,967,295 connections takes no other, so a new one follows
    // it as soon as none of its connections is live.
    fn join(&mut self, link: Watched<'a, R>) {
        let alloc = self.host.alloc();
        let store = ReadStore::new(alloc, RealFiles::new(self.host), self.out);
        let conn = PollConn::new(alloc, link, store, TURNS);
        if let Err(AddError::Spent(conn)) = self.crowd.add(conn) {
            if self.crowd.live() == 0 {
                self.crowd = Crowd::new(alloc);
                let _ = self.crowd.add(conn);
            }
        }
    }

    // Handles a failed accept: it is tried again after a pause, or the listener is closed.
    fn refused(&mut self, error: io::Error) {
        if is_passing(&error) {
            self.pause.begin(self.clock);
        } else {
            self.listener = None;
            self.fault = Some(error);
        }
    }

    // Ends the sending side of the connections that have ended.
    fn close_ended(&mut self, cx: &mut Context<'_>)
        ensures kept { Keeps cx.old cx.new }
    {
        for _ in 0..MOST {
            let Some((_, end, link, _)) = self.crowd.take_ended() else {
                return;
            };
            let link = link.end(how_ended(end));
            if end != End::LinkFault && self.closing.len() < MOST as usize {
                self.close(link, cx);
            }
        }
    }

    fn close(&mut self, mut link: Link<'a, R>, cx: &mut Context<'_>)
        ensures kept { Keeps cx.old cx.new }
    {
        link.finish(cx);
        let _ = self.closing.push(link);
    }

    // Reads what the peers of connections that have ended still send. Ready if no such connection is left.
    fn close_all(&mut self, cx: &mut Context<'_>) -> Poll<()>
        ensures armed { OnPending result (IsArmed cx.new) }
        ensures kept { Keeps cx.old cx.new }
    {
        let mut waits = Poll::Ready(());
        for link in &mut self.closing {
            waits = poll_rest(link, waits, cx);
        }
        self.closing.retain(|link| !link.is_over());
        waits
    }
}

// Reads the rest of a connection. Pending if this connection waits, or the others do.
fn poll_rest<R: Clock>(link: &mut Link<'_, R>, others: Poll<()>, cx: &mut Context<'_>) -> Poll<()>
    requires { OnPending others (IsArmed cx.old) }
    ensures armed { OnPending result (IsArmed cx.new) }
    ensures kept { Keeps cx.old cx.new }
{
    match link.poll_rest(cx) {
        Poll::Ready(()) => others,
        Poll::Pending => Poll::Pending,
    }
}

impl<'a, R: Clock> Future for Serving<'a, R> {
    type Output = io::Result<()>;

    // Accepts what comes, gives each connection a turn, and reads the rest of those that have ended. It is ready once
    // no more connections are accepted and all have ended.
    fn poll(&mut self, cx: &mut Context<'_>) -> Poll<io::Result<()>> {
        let accepting = self.accept_all(cx);
        let was_full = self.is_full();
        let serving = self.crowd.poll(cx);
        self.close_ended(cx);
        let closing = self.close_all(cx);
        if was_full && !self.is_full() {
            // There is room again for a connection that was not waited for.
            return cx.yield_now();
        }
        match (accepting, serving, closing) {
            (Poll::Ready(()), Poll::Ready(()), Poll::Ready(())) => {
                Poll::Ready(self.fault.take().map_or(Ok(()), Err))
            }
            _ => Poll::Pending,
        }
    }
}
