//! Crowds of polled connections.

ghost use Rattle.std.specs.Prelude.{IfOk};
ghost use Rattle.ept_poll.specs.Polls.{IsPollable};

use crate::connections::push_end;
use crate::escaped::push_escaped;
use crate::folder::Folder;
use crate::polls::link_of;
use crate::row::{RowError, cut, numbers, small};
use ept_crowd::{AddError, Crowd, Turned};
use ept_mem::MemStore;
use ept_poll::{MemPollLink, PollConn};
use futures::Future;
use futures::task::{Context, Poll};
use futures::test::MockTask;
use std::alloc::Global;
use std::fmt::Write as _;
use std::random::RandomSource;

/// The most turns and the most ends that are counted.
const MOST: u64 = 100_000;

type Conn = PollConn<MemPollLink, MemStore>;

type MemCrowd = Crowd<MemPollLink, MemStore>;

// A turn of a number, which is ready at once.
#[derive(Drop)]
struct OneTurn<'a> {
    crowd: &'a mut MemCrowd,
    number: u32,
}

impl Future for OneTurn<'_> {
    type Output = Turned;

    fn poll(&mut self, cx: &mut Context<'_>) -> Poll<Turned> {
        Poll::Ready(self.crowd.turn(self.number, cx))
    }
}

/// `crowd ORDER LINK BYTES & BYTES ..`: how the connections of a crowd end, in the order of their ends, and the bytes
/// that they were sent. The bytes come one at a time, each call of a link waits once, and a turn is one unit of work.
/// LINK lists the calls of the second connection's link that fail. The connections of ORDER have turns round and round
/// until they have ended, and then all connections do.
pub(crate) fn crowd<R: RandomSource + AllocGlobal>(
    rt: &R,
    folder: &Folder,
    text: &str,
    answer: &mut String,
) -> Result<(), RowError> {
    let (order, text) = cut(text)?;
    let (fails, text) = cut(text)?;
    let order = numbers(rt.alloc(), order)?;
    let mut crowd = Crowd::new(rt.alloc());
    for (place, bytes) in text.split(" & ").enumerate() {
        let fails = if place == 1 { fails } else { "-" };
        let conn = conn_of(rt.alloc(), folder, fails, bytes)?;
        add(&mut crowd, conn)?;
    }
    let task = MockTask::new(rt).map_err(|_| RowError::System)?;
    turn_round(&task, &order, &mut crowd);
    turn_all(&task, &mut crowd);
    push_all(&mut crowd, answer)
}

// A connection whose bytes come one at a time and whose calls wait once each.
fn conn_of(alloc: Global, folder: &Folder, fails: &str, bytes: &str) -> Result<Conn, RowError>
    ensures { IfOk result (λ conn. IsPollable conn.turns conn.session) }
{
    let link = link_of(alloc, "1", "each", fails, bytes)?;
    Ok(PollConn::new(alloc, link, folder.store("-")?, 1))
}

fn add(crowd: &mut MemCrowd, conn: Conn) -> Result<(), RowError>
    requires { IsPollable conn.turns conn.session }
{
    match crowd.add(conn) {
        Ok(_) => Ok(()),
        Err(_) => Err(RowError::Memory),
    }
}

// Turns these numbers in this order, round and round, until none of them is live.
fn turn_round(task: &MockTask, order: &[u64], crowd: &mut MemCrowd) {
    for _ in 0..MOST {
        let mut is_over = true;
        for number in order {
            // No connection has a number past 32 bits.
            let number = u32::try_from(*number).unwrap_or(u32::MAX);
            if turn(task, crowd, number) != Some(Turned::Gone) {
                is_over = false;
            }
        }
        if is_over {
            return;
        }
    }
}

fn turn(task: &MockTask, crowd: &mut MemCrowd, number: u32) -> Option<Turned> {
    let mut one = OneTurn { crowd, number };
    match task.poll(&mut one) {
        Poll::Ready(turned) => Some(turned),
        Poll::Pending => None,
    }
}

fn turn_all(task: &MockTask, crowd: &mut MemCrowd) {
    for _ in 0..MOST {
        if task.poll(crowd).is_ready() {
            return;
        }
    }
}

// Takes the connections that have ended, and writes what they were sent.
fn push_all(crowd: &mut MemCrowd, answer: &mut String) -> Result<(), RowError> {
    for _ in 0..MOST {
        let Some((number, end, link, _)) = crowd.take_ended() else {
            break;
        };
        write!(answer, "{number} ")?;
        push_end(answer, &end)?;
        answer.push(' ')?;
        push_escaped(answer, link.written())?;
        answer.push_str("; ")?;
    }
    write!(answer, "{} live", crowd.live())?;
    Ok(())
}

/// `turn NUMBER COUNT`: what came of a turn of this number in a crowd of COUNT connections, of which no byte comes. Or
/// which connection was not added, and why.
pub(crate) fn one_turn<R: RandomSource + AllocGlobal>(
    rt: &R,
    folder: &Folder,
    text: &str,
    answer: &mut String,
) -> Result<(), RowError> {
    let (number, count) = cut(text)?;
    let (number, count) = (small(number)?, small(count)?);
    let mut crowd = Crowd::new(rt.alloc());
    for _ in 0..count {
        let conn = conn_of(rt.alloc(), folder, "-", "-")?;
        if let Some(refusal) = refusal_of(&mut crowd, conn) {
            write!(answer, "{refusal} with {} live", crowd.live())?;
            return Ok(());
        }
    }
    let task = MockTask::new(rt).map_err(|_| RowError::System)?;
    match turn(&task, &mut crowd, number) {
        Some(turned) => write!(answer, "{turned:?} with {} live", crowd.live())?,
        None => return Err(RowError::System),
    }
    Ok(())
}

// Why a connection is not added.
fn refusal_of(crowd: &mut MemCrowd, conn: Conn) -> Option<&'static str>
    requires { IsPollable conn.turns conn.session }
{
    match crowd.add(conn) {
        Ok(_) => None,
        Err(AddError::Full(_)) => Some("full"),
        Err(AddError::Spent(_)) => Some("spent"),
        Err(AddError::Memory(_)) => Some("memory"),
    }
}
