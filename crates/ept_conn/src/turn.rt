//! Turns.

use ept_http::Asked;

/// A request: what it asks for, and whether the connection ends after its response.
#[derive(Debug, Drop)]
pub struct Turn {
    pub asked: Asked,
    pub last: bool,
}
