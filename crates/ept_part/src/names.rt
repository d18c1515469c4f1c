//! The names of a part's files.

ghost use Rattle.std.specs.Prelude.{◌≡◌, ◌+◌, ◌<◌, [], ◌∷◌, ◌++◌, IfOk, string_bytes, codes};
ghost use Rattle.ept_space.specs.KeyText.{key_text};
ghost use Rattle.ept_grid.specs.Mask.{opened};
ghost use Rattle.ept_part.specs.Names.{part_folder, part_gate, part_body, part_tile};

use ept_grid::OCTANTS;
use ept_space::Key;
use std::alloc::{AllocError, Global};

/// Whether the octant is in the set: bit o is octant o.
pub fn has_octant(octants: u8, octant: u8) -> bool
    requires { octant < 8 }
    ensures { result ≡ opened octants octant }
{
    octants >> octant & 1 == 1
}

/// The gate of the part with these octants.
pub fn part_gate(alloc: Global, octants: u8) -> Result<String, AllocError>
    ensures { IfOk result (λ name. string_bytes name ≡ part_gate octants) }
{
    let folder = folder(alloc, octants)?;
    path_in(alloc, folder.as_str(), "gate")
}

/// The body of the part with these octants.
pub fn part_body(alloc: Global, octants: u8) -> Result<String, AllocError>
    ensures { IfOk result (λ name. string_bytes name ≡ part_body octants) }
{
    let folder = folder(alloc, octants)?;
    path_in(alloc, folder.as_str(), "body")
}

/// The tile of a key, of the part with these octants.
pub fn part_tile(alloc: Global, octants: u8, key: &Key) -> Result<String, AllocError>
    ensures { IfOk result (λ name. string_bytes name ≡ part_tile octants key.now) }
{
    let folder = folder(alloc, octants)?;
    tile_in(alloc, folder.as_str(), key)
}

// The folder of the part.
fn folder(alloc: Global, octants: u8) -> Result<String, AllocError>
    ensures { IfOk result (λ name. string_bytes name ≡ part_folder octants) }
{
    let mut name = String::from_str(alloc, "ept-work/part-")?;
    for octant in 0..OCTANTS {
        if has_octant(octants, octant) {
            name.push_str(digit(octant))?;
        }
    }
    Ok(name)
}

// The digit of an octant.
fn digit(octant: u8) -> &'static str
    requires { octant < 8 }
    ensures { result.now ≡ (48 + octant) ∷ [] }
{
    match octant {
        0 => "0",
        1 => "1",
        2 => "2",
        3 => "3",
        4 => "4",
        5 => "5",
        6 => "6",
        _ => "7",
    }
}

// A name in a folder.
fn path_in(alloc: Global, folder: &str, name: &str) -> Result<String, AllocError>
    ensures { IfOk result (λ path. string_bytes path ≡ folder.now ++ (codes "/" ++ name.now)) }
{
    format!(in alloc; "{folder}/{name}")
}

// The tile of a key in a folder.
fn tile_in(alloc: Global, folder: &str, key: &Key) -> Result<String, AllocError>
    ensures { IfOk result (λ path. string_bytes path
        ≡ folder.now ++ (codes "/" ++ (key_text key.now ++ codes ".bin"))) }
{
    format!(in alloc; "{folder}/{}-{}-{}-{}.bin", key.depth, key.x, key.y, key.z)
}
