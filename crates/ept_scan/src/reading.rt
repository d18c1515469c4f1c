//! How the records of one file become points.

ghost use Rattle.std.specs.Prelude.{◌<◌, ◌^◌};

use ept_las::{SCALE_WIDTH, Shift};
use ept_space::Bounds;

/// How the records of one file become points.
#[derive(Clone, Copy, Debug)]
pub struct Reading {
    /// The place of the file in the list of inputs, from 0, which its points carry.
    pub origin: u32,
    /// How raw coordinates become stored ones.
    pub shift: Shift,
    /// The scales and offsets that the header has to have (LAS 1.4 R15, section 2.4), byte for byte.
    pub expect: Option<[u8; SCALE_WIDTH]>,
    /// The bounds, in stored units, within which all points have to lie, if there are any.
    pub limits: Option<Bounds>,
    // The range of the place's type, since a definition sees a number without its type.
    ghost origin_fits: { origin < 2 ^ 32 },
}
