//! The bounds of a set of points.

/// The places from `min` to `max`, both included, on each axis, in the order x, y, z. The type allows a `min` above
/// `max`.
#[derive(Clone, Copy, Debug, PartialEq, Eq)]
pub struct Bounds {
    pub min: [i32; 3],
    pub max: [i32; 3],
}
