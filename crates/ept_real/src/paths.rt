ghost use Rattle.std.specs.Prelude.{◌≡◌, IfOk, string_bytes};
ghost use Rattle.ept_real.specs.Joined.{folder_path, joined};

use std::alloc::{AllocError, Global};

/// The path of a name in a folder.
pub(crate) fn path_in(alloc: Global, folder: &str, name: &str) -> Result<String, AllocError>
    ensures { IfOk result (λ path. string_bytes path ≡ joined folder.now name.now) }
{
    format!(in alloc; "{folder}/{name}")
}

/// The path of a folder; an empty one is that of the folder in which the program runs.
pub(crate) fn or_here(path: &str) -> &str
    ensures { result.now ≡ folder_path path.now }
{
    if path.is_empty() { "." } else { path }
}
