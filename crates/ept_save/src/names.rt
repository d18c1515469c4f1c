//! The names of the work files.

ghost use Rattle.std.specs.Prelude.{◌≡◌, IfOk, string_bytes};
ghost use Rattle.ept_save.specs.Names.{other, gate_name, body_name, work_tile_name};

use ept_ckpt::Letter;
use ept_space::Key;
use std::alloc::{AllocError, Global};

/// The gate that is open where the output is whole.
pub(crate) const DONE: &str = "ept-work/done-2";

/// The other one of the two letters.
pub(crate) fn other(letter: Letter) -> Letter
    ensures { result ≡ other letter }
{
    match letter {
        Letter::A => Letter::B,
        Letter::B => Letter::A,
    }
}

/// The gate of a letter.
pub(crate) fn gate_name(letter: Letter) -> &'static str
    ensures { result.now ≡ gate_name letter }
{
    match letter {
        Letter::A => "ept-work/gate-a",
        Letter::B => "ept-work/gate-b",
    }
}

/// The body of a letter.
pub(crate) fn body_name(letter: Letter) -> &'static str
    ensures { result.now ≡ body_name letter }
{
    match letter {
        Letter::A => "ept-work/body-a",
        Letter::B => "ept-work/body-b",
    }
}

/// The tile of a letter and a key.
pub(crate) fn work_tile_name(alloc: Global, letter: Letter, key: &Key) -> Result<String, AllocError>
    ensures { IfOk result (λ name. string_bytes name ≡ work_tile_name letter key.now) }
{
    match letter {
        Letter::A => format!(in alloc;
            "ept-work/a/{}-{}-{}-{}.bin",
            key.depth, key.x, key.y, key.z
        ),
        Letter::B => format!(in alloc;
            "ept-work/b/{}-{}-{}-{}.bin",
            key.depth, key.x, key.y, key.z
        ),
    }
}
