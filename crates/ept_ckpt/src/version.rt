//! The versions of the format of a body.

use ept_config::MAX_POINTS;
use ept_point::Layout;

/// A version of the format of a body.
#[derive(Clone, Copy, Debug, PartialEq, Eq)]
pub enum BodyVersion {
    /// Version 1: record numbers of 32 bits; no class comes first, and withheld points do not come last.
    V1,
    /// Version 2: record numbers of 64 bits; no class comes first, and withheld points do not come last.
    V2,
    /// Version 3, which builds write: record numbers of 64 bits, and which points come first and last.
    V3,
}

impl BodyVersion {
    ghost use Rattle.std.specs.Prelude.{◌≡◌};
    ghost use Rattle.ept_ckpt.specs.Body.{mark_bytes};
    ghost use Rattle.ept_ckpt.specs.Versions.{layout_of, most_points_of, spare_of};

    /// The version that builds write.
    pub const NEWEST: BodyVersion = BodyVersion::V3;

    /// How the points of the nodes' tiles are packed.
    pub fn layout(self) -> Layout
        ensures layout { result ≡ layout_of self }
    {
        match self {
            BodyVersion::V1 => Layout::Old,
            BodyVersion::V2 | BodyVersion::V3 => Layout::New,
        }
    }

    /// How many points an input may have.
    pub(crate) fn most_points(self) -> u64
        ensures { result ≡ most_points_of self }
    {
        match self {
            BodyVersion::V1 => u64::from(u32::MAX),
            BodyVersion::V2 | BodyVersion::V3 => MAX_POINTS,
        }
    }

    /// How many commits there may be that add no points or inputs to the one before.
    pub(crate) fn spare(self) -> u64
        ensures { result ≡ spare_of self }
    {
        match self {
            BodyVersion::V1 => 0,
            BodyVersion::V2 | BodyVersion::V3 => 1,
        }
    }

    /// The name of the format and the number of the version, with which a body begins.
    #[tactic(auto, unfolding(crate::specs::Body::mark_bytes))]
    pub(crate) fn mark(self) -> [u8; 8]
        ensures { result ≡ mark_bytes self }
    {
        match self {
            BodyVersion::V1 => *b"EPTW\x01\0\0\0",
            BodyVersion::V2 => *b"EPTW\x02\0\0\0",
            BodyVersion::V3 => *b"EPTW\x03\0\0\0",
        }
    }
}
