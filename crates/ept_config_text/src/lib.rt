//! The JSON text of a configuration: how it is read, and what is refused.
#![tactic(auto)]

mod classes;
mod config_error;
mod config_key;
mod expected;
mod inputs;
mod json;
mod laws;
mod limits;
mod numbers;
mod raw_input;
mod reader;
mod srs_texts;
mod values;
mod work;

pub use config_error::ConfigError;
pub use config_key::ConfigKey;
pub use laws::{object_law, required_law, text_law, threads_law};
pub use limits::MAX_LENGTH;
pub use reader::{read_config, read_value};
