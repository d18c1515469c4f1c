//! Connections that are polled.

ghost use Rattle.std.specs.Prelude.{IfOk};
ghost use Rattle.ept_poll.specs.Memory.{link_wire};
ghost use Rattle.ept_poll.specs.Polls.{IsPollable};
ghost use Rattle.ept_poll.specs.Runs.{IsUnused};

use crate::connections::push_end;
use crate::escaped::push_escaped;
use crate::folder::Folder;
use crate::row::{RowError, cut, numbers, small};
use crate::turns::pieces_of;
use ept_conn::End;
use ept_mem::MemStore;
use ept_poll::{MemPollLink, PollConn};
use futures::executor::block_on;
use futures::task::Poll;
use futures::test::MockTask;
use std::alloc::Global;
use std::fmt::Write as _;
use std::random::RandomSource;
use std::sync::Wait;

/// The most polls that are counted.
const MOST: u64 = 1000;

/// `poll SIZE UNITS PENDING STORE LINK BYTES`: how a connection ends that `block_on` polls, and the bytes that it was
/// sent. A poll does at most UNITS units. PENDING lists the calls of the link that are pending; `each` is every second
/// call from the first on. STORE and LINK list the calls that fail.
pub(crate) fn poll<R: Wait + RandomSource + AllocGlobal>(
    rt: &R,
    folder: &Folder,
    text: &str,
    answer: &mut String,
) -> Result<(), RowError> {
    let (size, text) = cut(text)?;
    let (units, text) = cut(text)?;
    let (pending, text) = cut(text)?;
    let (store, text) = cut(text)?;
    let units = small(units)?;
    let (fails, bytes) = cut(text)?;
    let link = link_of(rt.alloc(), size, pending, fails, bytes)?;
    let mut conn = PollConn::new(rt.alloc(), link, folder.store(store)?, units.max(1));
    poll_to_end(rt, &mut conn, answer)?;
    answer.push(' ')?;
    let (link, _store) = conn.into_parts();
    push_escaped(answer, link.written())?;
    Ok(())
}

fn poll_to_end<R: Wait + RandomSource + AllocGlobal>(
    rt: &R,
    conn: &mut PollConn<MemPollLink, MemStore>,
    answer: &mut String,
) -> Result<(), RowError>
    requires { IsPollable conn.old.turns conn.old.session }
{
    match block_on(rt, conn) {
        Ok(end) => push_end(answer, &end),
        Err(_) => Err(RowError::System),
    }
}

/// A link over which these bytes come in pieces. The words list its calls that wait and those that fail.
pub(crate) fn link_of(
    alloc: Global,
    size: &str,
    pending: &str,
    fails: &str,
    bytes: &str,
) -> Result<MemPollLink, RowError>
    ensures { IfOk result (λ link. IsUnused (link_wire link)) }
{
    let pieces = pieces_of(alloc, size, bytes)?;
    let pending = pending_of(alloc, pending)?;
    let fails = numbers(alloc, fails)?;
    Ok(MemPollLink::new(alloc, pieces, pending, fails))
}

fn pending_of(alloc: Global, word: &str) -> Result<Vec<u64>, RowError> {
    if word != "each" {
        return numbers(alloc, word);
    }
    let mut list = Vec::new(alloc);
    for call in 0..MOST {
        list.push(2 * call)?;
    }
    Ok(list)
}

/// `polls UNITS BYTES`: the number of polls until a connection ends whose bytes come in one piece and whose link never
/// waits, and the end. Each pending poll has to ask for the next one.
pub(crate) fn polls<R: RandomSource + AllocGlobal>(
    rt: &R,
    folder: &Folder,
    text: &str,
    answer: &mut String,
) -> Result<(), RowError> {
    let (units, text) = cut(text)?;
    let units = small(units)?;
    let pieces = pieces_of(rt.alloc(), "100000", text)?;
    let link = MemPollLink::new(
        rt.alloc(),
        pieces,
        Vec::new(rt.alloc()),
        Vec::new(rt.alloc()),
    );
    let mut conn = PollConn::new(rt.alloc(), link, folder.store("-")?, units.max(1));
    count_polls(rt, &mut conn, answer)
}

fn count_polls<R: RandomSource + AllocGlobal>(
    rt: &R,
    conn: &mut PollConn<MemPollLink, MemStore>,
    answer: &mut String,
) -> Result<(), RowError>
    requires { IsPollable conn.old.turns conn.old.session }
{
    let task = MockTask::new(rt).map_err(|_| RowError::System)?;
    match polls_to_end(&task, conn) {
        Some((count, end)) => {
            write!(answer, "{count} ")?;
            push_end(answer, &end)
        }
        None => {
            answer.push_str("not woken")?;
            Ok(())
        }
    }
}

// Polls until the connection ends, and returns the number of polls. `None` if a pending poll has not asked for the next
// one.
fn polls_to_end(task: &MockTask, conn: &mut PollConn<MemPollLink, MemStore>) -> Option<(u64, End)>
    requires { IsPollable conn.old.turns conn.old.session }
{
    for count in 1..MOST {
        match task.poll(conn) {
            Poll::Ready(end) => return Some((count, end)),
            Poll::Pending if task.is_woken() => {}
            Poll::Pending => return None,
        }
    }
    None
}
