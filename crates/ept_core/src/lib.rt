//! The machine of a builder. Actors draw points, which arrive at nodes and move down as octants open. Meanwhile nodes
//! are evicted and reloaded. All of this may happen in any order.
//!
//! A law holds of each state that any list of events leads to. If a state has nothing left and nothing in flight, its
//! nodes are the sampling of the points.
#![tactic(auto)]

mod arrival;
mod engine;
mod error;
mod event;
mod flight;
mod laws;
mod machine;
mod node;
mod play;
mod steps;
mod turn;

pub use engine::Core;
pub use error::StepError;
pub use event::Event;
pub use flight::Flight;
pub use laws::{flight_law, key_law, landed_law, start_law, step_law};
pub use node::Node;
pub use play::run_events;
