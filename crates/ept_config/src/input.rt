//! A scan that a build reads.

ghost use Rattle.ept_config.specs.InputRanges.{InputInRange};
ghost use Rattle.std.proofs.Props.{props};

use crate::limits::EXPECT_WIDTH;
use ept_point::Text;

/// A scan that a build reads: its path, and how its raw coordinates become stored ones. A raw coordinate of the scan is
/// in units of 10^-`scale`. The stored coordinate is `raw * 10^(K - scale) + shift`, where K is the scale of the build.
///
/// The path is UTF-8 text of 1 to `MAX_PATH` bytes without control bytes. The scale is at most `MAX_SCALE`. The
/// absolute value of each shift is at most `MAX_SHIFT`.
#[derive(Debug, Drop)]
pub struct Input {
    /// The path of the scan.
    pub path: Text,
    /// The exponent of its unit.
    pub scale: u8,
    /// How far its coordinates are moved, in stored units, on x, y and z.
    pub shift: [i64; 3],
    /// The scales and offsets that its LAS header has to have (LAS 1.4 R15, section 2.4), byte for byte.
    pub expect: Option<[u8; EXPECT_WIDTH]>,
    pub ghost in_range: { InputInRange path scale shift expect } by { Prim.hlevel props },
}
