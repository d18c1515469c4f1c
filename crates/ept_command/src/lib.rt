//! What the words of a command line ask for, which configuration they name, and how a run ends.
//!
//! [`command_of`] reads the words, and [`read_configuration`] the file that they name. [`Ended`] is the status of a run
//! with the [`Failure`] that says why it is not 0; most failures are a [`Refusal`].
#![tactic(auto)]

mod ended;
mod files;
mod octants;
mod parts;
mod refusal;
pub mod status;
mod words;

pub use ended::{Ended, Failure};
pub use files::{read_configuration, read_front};
pub use parts::Parts;
pub use refusal::{MergeRefusal, PartRefusal, Refusal};
pub use words::{Command, command_of};
