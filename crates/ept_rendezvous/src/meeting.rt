//! A gate that holds a worker.

ghost use Rattle.std.specs.Prelude.{◌≡◌, ◌↔◌, IsTrue};
ghost use Rattle.ept_rendezvous.specs.Meeting.{AreApart};

use ept_base::Gate;
use std::sync::OnceLock;
use std::thread;

// A worker in a node.
#[derive(Clone, Copy, Debug, PartialEq, Eq)]
struct Entry {
    worker: u32,
    node: Node,
}

// The key of a node.
#[derive(Clone, Copy, Debug, PartialEq, Eq)]
struct Node {
    depth: u8,
    x: u32,
    y: u32,
    z: u32,
}

// Why the worker that was held continued.
#[derive(Clone, Copy, Debug, PartialEq, Eq)]
enum End {
    // Another worker was in another node.
    Met,
    // Its turns were over.
    Waited,
}

/// A gate that holds the first worker that enters a node below the root. It holds it until another worker enters
/// another node or its turns are over. In a turn it checks once, and then yields to other threads.
#[derive(Drop)]
pub struct MeetGate {
    turns: u64,
    held: OnceLock<Entry>,
    end: OnceLock<End>,
}

impl MeetGate {
    ghost use Rattle.ept_rendezvous.specs.Meeting.{turns_of};

    /// A gate that no worker has entered, and that holds a worker for at most `turns` turns.
    pub fn new(turns: u64) -> MeetGate
        ensures { turns_of result ≡ turns }
    {
        MeetGate {
            turns,
            held: OnceLock::new(),
            end: OnceLock::new(),
        }
    }

    /// Whether a worker was held, and another worker entered another node before its turns were over.
    pub fn met(&self) -> bool {
        self.end.get() == Some(&End::Met)
    }

    // Returns as soon as another worker is in another node, and otherwise when the turns are over.
    fn hold(&self) {
        for _ in 0..self.turns {
            if self.end.get().is_some() {
                return;
            }
            thread::yield_now();
        }
        let _ = self.end.try_set(End::Waited);
    }

    // Whether a worker is or was held, and this is another worker in another node.
    fn is_meeting(&self, entry: &Entry) -> bool {
        self.held.get().is_some_and(|held| are_apart(held, entry))
    }
}

impl Gate for MeetGate {
    /// Returns in any case, at the latest when the turns are over.
    fn entered(&self, worker: u32, depth: u8, x: u32, y: u32, z: u32) {
        let entry = Entry {
            worker,
            node: Node { depth, x, y, z },
        };
        if depth > 0 && self.held.try_set(entry).is_ok() {
            self.hold();
        } else if self.is_meeting(&entry) {
            let _ = self.end.try_set(End::Met);
        }
    }
}

// Whether these are two workers in two nodes.
fn are_apart(one: &Entry, other: &Entry) -> bool
    ensures { IsTrue result ↔ AreApart one.now other.now }
{
    one.worker != other.worker && one.node != other.node
}
