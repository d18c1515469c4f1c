//! The cube that an octree divides.

ghost use Rattle.std.specs.Prelude.{◌≡◌, ◌≤◌, ◌^◌, ◌<◌, ◌↔◌, IsTrue, IsSome, IfSome};
ghost use Rattle.ept_space.specs.OctreeCube.{IsCube};
ghost use Rattle.ept_space.specs.CubeOfBounds.{HasCube, HasPlace, IsCubeOf, cube_of, longest, bit_length};

use crate::bounds::Bounds;
use ept_class::ClassSet;
use std::marker::Model;

/// The cube that an octree divides. It has the corner of its least places and the exponent `e` of its side 2^e. It has
/// the exponent `s` of its span 2^s, the cells of a box on each axis, and the greatest depth of a node.
///
/// `s` is 1 to 10 and `e` is `s` to 32. The depth is at most `e - s`, so a cell has at least one unit. Each number of
/// the corner is in the range of an `i32`.
#[derive(Clone, Copy, Debug, PartialEq, Eq)]
pub struct Cube {
    pub corner: [i64; 3],
    pub e: u8,
    pub s: u8,
    pub depth: u8,
}

impl Model for Cube {
    ghost use Rattle.ept_space.specs.OctreeCube.{OctreeCube, IsCube};

    ghost Value = { OctreeCube };

    ghost view = { λ c. record { corner = c.corner; e = c.e; s = c.s; depth = c.depth } };

    ghost invariant = { λ c. IsCube (record { corner = c.corner; e = c.e; s = c.s; depth = c.depth }) };

    ghost inverse = { λ c. record { corner = c.corner; e = c.e; s = c.s; depth = c.depth } };
}

impl Cube {
    /// The greatest exponent of a span.
    pub const MAX_SPAN: u8 = 10;

    /// The greatest depth that may be asked for.
    pub const MAX_DEPTH: u8 = 32;

    /// The cube of the bounds. Its corner is their minimum. Its `e` is the least number that is at least `s` and has
    /// 2^e greater than max - min on every axis. Its depth is the lesser of `max_depth` and e - s.
    pub fn over(bounds: &Bounds, s: u8, max_depth: u8) -> Cube
        requires { HasCube bounds.now s max_depth }
        ensures cube { IsCubeOf bounds.now s max_depth result }
        ensures value { result ≡ cube_of bounds.now s max_depth }
    {
        let e = s.max(extent_bits(bounds));
        Cube {
            corner: [
                i64::from(bounds.min[0]),
                i64::from(bounds.min[1]),
                i64::from(bounds.min[2]),
            ],
            e,
            s,
            depth: max_depth.min(e - s),
        }
    }

    /// The cube of the bounds, as [`over`](Cube::over) makes it. `None` if `s` is not 1 to 10, `max_depth` is above 32,
    /// or the bounds have no place.
    pub fn of(bounds: &Bounds, s: u8, max_depth: u8) -> Option<Cube>
        ensures exists { IsSome result ↔ HasCube bounds.now s max_depth }
        ensures cube { IfSome result (IsCubeOf bounds.now s max_depth) }
        ensures value { IfSome result (λ cube. cube ≡ cube_of bounds.now s max_depth) }
    {
        if s < 1 || s > Cube::MAX_SPAN || max_depth > Cube::MAX_DEPTH || !has_place(bounds) {
            return None;
        }
        Some(Cube::over(bounds, s, max_depth))
    }

    /// Exposes the type's invariant to the caller's proof. Does nothing at run time.
    pub fn known(&self)
        ensures { IsCube self.now }
    {
        let _depth = self.depth;
    }
}

/// Whether the bounds have a place: the minimum is at most the maximum on every axis.
fn has_place(bounds: &Bounds) -> bool
    ensures { IsTrue result ↔ HasPlace bounds.now }
{
    let x = bounds.min[0] <= bounds.max[0];
    let y = bounds.min[1] <= bounds.max[1];
    let z = bounds.min[2] <= bounds.max[2];
    x & y & z
}

/// How many binary digits the longest extent of the bounds has.
fn extent_bits(bounds: &Bounds) -> u8
    ensures value { result ≡ bit_length (longest bounds.now) }
    ensures short { result ≤ 32 }
    ensures in_word { longest bounds.now < 2 ^ 32 }
{
    let x = bounds.max[0].abs_diff(bounds.min[0]);
    let y = bounds.max[1].abs_diff(bounds.min[1]);
    let z = bounds.max[2].abs_diff(bounds.min[2]);
    (u32::BITS - x.max(y.max(z)).leading_zeros()) as u8
}

/// The rules of a sampling.
#[derive(Clone, Copy, Debug, PartialEq, Eq)]
pub struct Rules {
    pub cube: Cube,
    /// How many points an octant keeps in its node before they go down to a child.
    pub threshold: u64,
    /// The classes whose points come before all others. Without a member all classes are alike.
    pub first: ClassSet,
    /// Whether withheld points come after all others.
    pub withheld_last: bool,
}

impl Rules {
    ghost use Rattle.std.specs.Prelude.{◌≡◌};
    ghost use Rattle.ept_space.specs.Group.{plain_rules};

    /// The rules of a cube and a threshold alone: all classes are alike, and withheld points are like others.
    pub fn plain(cube: Cube, threshold: u64) -> Rules
        ensures { result ≡ plain_rules cube threshold }
    {
        Rules {
            cube,
            threshold,
            first: ClassSet::new(),
            withheld_last: false,
        }
    }
}
