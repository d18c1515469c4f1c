//! What a build has to do: whether its configuration continues from the current checkpoint, and which inputs the
//! checkpoint does not have.
#![tactic(auto)]

mod error;
mod extents;
mod given;
mod new_inputs;
mod plan;

pub use error::PlanError;
pub use plan::{Plan, first_plan, make_plan};
