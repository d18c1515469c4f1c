//! The heads of HTTP/1.1 requests for a dataset, and of their responses (RFC 9112).
//!
//! A request is a `GET` without a body for a file of the dataset, for a query or for a selection. This crate reads what
//! a head asks for from the bytes of the whole head. The crate above responds to it.

#![tactic(auto)]

mod answer;
mod asked;
mod fields;
mod laws;
mod query;
mod request;
mod target;

pub use answer::{HeadKind, response_head};
pub use asked::Asked;
pub use laws::{judge_law, one_answer_law, query_words_law};
pub use query::{read_box, read_depths};
pub use request::read_request;
