//! What tests of tables of nodes begin with: files of points in memory, and a reader over them of which all points are
//! known. Then a table of this reader and a new forest.
#![tactic(auto)]

mod files;
mod known;
mod seating;

pub use files::{las, shelf_of};
pub use known::{Known, read_known};
pub use seating::seated;
