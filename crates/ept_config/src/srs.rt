//! The spatial reference of a build.

ghost use Rattle.ept_config.specs.SrsRanges.{SrsInRange};
ghost use Rattle.std.proofs.Props.{props};

use ept_point::Text;

/// The spatial reference system of the points (Entwine Point Tile 1.1.0, `srs`). The texts are not interpreted here.
/// They are passed to the metadata unchanged.
///
/// Each text is UTF-8 of at most `MAX_SRS_TEXT` bytes without control bytes.
#[derive(Debug, Drop)]
pub struct Srs {
    /// The authority of the codes, such as `EPSG`.
    pub authority: Option<Text>,
    /// The code of the horizontal system.
    pub horizontal: Option<Text>,
    /// The code of the vertical system.
    pub vertical: Option<Text>,
    /// The system as well-known text.
    pub wkt: Option<Text>,
    pub ghost in_range: { SrsInRange authority horizontal vertical wkt } by { Prim.hlevel props },
}
