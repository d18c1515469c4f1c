//! The names of the output's files.

ghost use Rattle.std.specs.Prelude.{◌≡◌, IfOk, string_bytes};
ghost use Rattle.ept_meta.specs.Output.{tile_name, hierarchy_name};

use ept_space::Key;
use std::alloc::{AllocError, Global};

/// The metadata (Entwine Point Tile 1.1.0, "ept.json").
pub const METADATA: &str = "ept.json";

/// What is known of each input (Entwine Point Tile 1.1.0, "ept-sources").
pub const MANIFEST: &str = "ept-sources/manifest.json";

/// What the output depends on.
pub const BUILD_FILE: &str = "ept-build.json";

/// The name of the tile of a key (Entwine Point Tile 1.1.0, "ept-data").
pub fn tile_name(alloc: Global, key: &Key) -> Result<String, AllocError>
    ensures { IfOk result (λ name. string_bytes name ≡ tile_name key.now) }
{
    format!(in alloc; "ept-data/{}-{}-{}-{}.bin", key.depth, key.x, key.y, key.z)
}

/// The name of the hierarchy file of a key (Entwine Point Tile 1.1.0, "ept-hierarchy").
pub fn hierarchy_name(alloc: Global, key: &Key) -> Result<String, AllocError>
    ensures { IfOk result (λ name. string_bytes name ≡ hierarchy_name key.now) }
{
    format!(in alloc;
        "ept-hierarchy/{}-{}-{}-{}.json",
        key.depth, key.x, key.y, key.z
    )
}
