//! JSON texts (RFC 8259) and their values.
#![tactic(auto)]

mod json_error;
mod text;

pub use json_error::JsonError;
pub use text::document;
