//! A run of the program, over any devices: what is done for the command in its words, the line that reports it, and
//! the status.
//!
//! [`run`] is the whole of it, and [`carry_out`] is the same with the reason if the status is not 0.
#![tactic(auto)]

mod answers;
mod carrying;
mod checking;
mod commands;
mod files;
mod lines;
mod merging;
mod parting;
mod querying;
mod refusal;
mod running;

pub use answers::refuse;
pub use carrying::carry_out;
pub use running::run;
