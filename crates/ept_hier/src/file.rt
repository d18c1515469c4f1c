//! Hierarchy files.

use ept_point::List;
use ept_space::Key;

/// A hierarchy file: the key of the node that it begins with, and its text (Entwine Point Tile 1.1.0,
/// "ept-hierarchy"). Its name is `ept-hierarchy/D-X-Y-Z.json`, with the text of the key.
#[derive(Debug, Drop)]
pub struct HierFile {
    pub key: Key,
    pub text: List<u8>,
}
