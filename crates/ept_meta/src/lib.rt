//! A finished dataset as files: their names, and the texts that describe it. These are its metadata (Entwine Point Tile
//! 1.1.0, "ept.json"), the manifest of its scans ("ept-sources"), and the file of what it was built with.
//!
//! Each text is JSON without white space outside its strings, and is appended to a buffer.
#![tactic(auto)]

mod build;
mod build_reader;
mod classes;
mod fields;
mod laws;
mod manifest;
mod meta_error;
mod metadata;
mod names;
mod pieces;
mod rules;
mod schema;
mod srs_object;
mod units;

pub use build::build_json;
pub use build_reader::read_build_json;
pub use fields::{Field, field_json, input_json};
pub use laws::{output_names_law, output_once_law};
pub use manifest::manifest_json;
pub use meta_error::MetaError;
pub use metadata::ept_json;
pub use names::{BUILD_FILE, MANIFEST, METADATA, hierarchy_name, tile_name};
pub use rules::rules_of;
