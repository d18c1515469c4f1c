//! How long a peer may take.

ghost use Rattle.futures.specs.Poll.{OnPending};
ghost use Rattle.futures.specs.Task.{IsArmed, Keeps};

use futures::Future;
use futures::task::{Context, Poll};
use std::io;
use std::time::{Clock, Duration, Instant};
use tokio::time::{Handle, Sleep};

/// What a connection waits for.
#[derive(Clone, Copy, Debug, PartialEq, Eq)]
pub(crate) enum Stage {
    /// The first byte of a request.
    Request,
    /// The rest of the head of a request.
    Head,
    /// That the peer takes a byte of a response.
    Response,
    /// The end of what the peer sends after the last response.
    Rest,
}

impl Stage {
    // How long the peer may take.
    fn time(self) -> Duration {
        Duration::from_secs(match self {
            Stage::Request | Stage::Response => 60,
            Stage::Head => 30,
            Stage::Rest => 5,
        })
    }
}

/// A time limit for the stage that a connection is in. It runs from the first wait after `begin`.
#[derive(Drop)]
pub(crate) struct Limit<'a, C> {
    clock: &'a C,
    timer: Sleep,
    stage: Stage,
    is_running: bool,
}

impl<'a, C: Clock> Limit<'a, C> {
    /// A limit for the first byte of a request.
    pub(crate) fn new(clock: &'a C, timers: &Handle) -> io::Result<Limit<'a, C>> {
        let stage = Stage::Request;
        let timer = timers.sleep(clock, stage.time())?;
        Ok(Limit {
            clock,
            timer,
            stage,
            is_running: false,
        })
    }

    /// Notes a read: if the peer was to take a response, a request is now waited for.
    pub(crate) fn reads(&mut self) {
        if self.stage == Stage::Response {
            self.begin(Stage::Request);
        }
    }

    /// Notes that bytes of a request came.
    pub(crate) fn has_read(&mut self) {
        if self.stage == Stage::Request {
            self.begin(Stage::Head);
        }
    }

    /// Notes a write: the peer is now to take a response.
    pub(crate) fn writes(&mut self) {
        if self.stage != Stage::Response {
            self.begin(Stage::Response);
        }
    }

    /// Begins the limit of a stage.
    pub(crate) fn begin(&mut self, stage: Stage) {
        self.stage = stage;
        self.is_running = false;
    }

    /// Ready if the time is over.
    pub(crate) fn poll_over(&mut self, cx: &mut Context<'_>) -> Poll<()>
        ensures armed { OnPending result (IsArmed cx.new) }
        ensures kept { Keeps cx.old cx.new }
    {
        self.run();
        match self.timer.poll(cx) {
            Poll::Ready(_) => Poll::Ready(()),
            Poll::Pending => Poll::Pending,
        }
    }

    // Starts the time of the stage, unless it is running.
    fn run(&mut self) {
        if self.is_running {
            return;
        }
        if let Ok(now) = Instant::now(self.clock) {
            let deadline = now.checked_add(self.stage.time());
            self.timer.reset(deadline.unwrap_or(now));
            self.is_running = true;
        }
    }
}
