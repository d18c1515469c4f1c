//! The table of an octree's nodes: each node is in a slot of its own. Seats take one item at a time, and carry points
//! down to the nodes.
//!
//! If contents are visible, the table and its seats show at every moment a state of `ept_core`'s machine.
#![tactic(auto)]

mod done;
mod item;
mod laws;
mod making;
mod note;
mod rule;
mod scanned;
mod table;
mod taken;

pub use done::{Done, Said};
pub use item::Item;
pub use laws::{
    arrival_law, draw_law, end_law, go_on_law, landed_law, move_law, read_law, resume_law,
    seat_law, state_law, take_law,
};
pub use making::{Unmade, plant_law};
pub use note::{Carried, Counted, Draw, Note, Told};
pub use rule::{Rule, Scan};
pub use scanned::scanned_law;
pub use table::{Full, NodeTable, Seat};
pub use taken::{Cell, Progress, Taken};
