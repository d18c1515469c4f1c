//! A gate at which workers meet: it holds a worker in a node until another worker is in another node.
#![tactic(auto)]

mod meeting;

pub use meeting::MeetGate;
