//! A table of slots that many threads share: each slot has a lock, each thread a seat, and slots are
//! drawn by number.
//!
//! The locks, the seats' shares and the counter of draws are proved here, once. The caller decides what lies in a slot,
//! what a seat notes, and which rule they all keep. The rule is a fact about plain lists (`SlotRule`). Each call
//! requires that its step keep that fact (`specs/Asks.antt`).
#![tactic(auto)]

mod laying;
mod making;
mod plays;
mod rule;
mod shares;
mod slot;
mod slots;
mod steps;
mod tells;
mod view;

pub use rule::{Locked, SlotRule};
pub use slot::Slot;
pub use slots::{Ending, Refused, SlotSeat, Slots};
pub use tells::{Draw, Give, Look, Note, Take};
pub use view::{Held, View};
