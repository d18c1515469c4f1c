//! A place in the bytes of a body.

ghost use Rattle.std.specs.Prelude.{◌≤◌, length};
ghost use Rattle.std.proofs.Props.{props};

/// The bytes of a body that are not read yet, and how many there are in all.
#[derive(Drop)]
pub(crate) struct Cursor<'a> {
    pub(crate) rest: &'a [u8],
    pub(crate) total: usize,
    pub(crate) ghost holds: { length rest.now ≤ total } by { Prim.hlevel props },
}
