//! What holds of every packed point, tile and id. Each law is the contract of a function that does
//! nothing.

ghost use Rattle.std.specs.Prelude.{◌≡◌};
ghost use Rattle.ept_point.specs.Dimensions.{packed_width, old_width};
ghost use Rattle.ept_point.specs.Laws.{EachPieceIsItsField, EachPieceReadsAsItsField, EachHasPackedLength, EachIsWithinBounds, IsPackedFormOfOne, EachTileHasLength, ReadInOneWay, OldFormLacksZeros, EachLayoutIsOfOne, NoneIsBeforeItself, BeforeIsTransitive, EitherIsBefore};

use crate::packed::{OLD_LENGTH, PACKED_LENGTH};

/// A packed point can be read by the table of dimensions alone. Each piece comes after those of the dimensions before
/// it. It is as wide as its dimension, and reads as what the point has of it.
pub fn layout_law()
    ensures width { packed_width ≡ PACKED_LENGTH }
    ensures pieces { EachPieceIsItsField }
    ensures read { EachPieceReadsAsItsField }
{}

/// Every packed point has the packed length.
pub fn packed_length_law()
    ensures length { EachHasPackedLength }
{}

/// No field of a packed point is above its greatest value.
pub fn packed_bounds_law()
    ensures within { EachIsWithinBounds }
{}

/// Two points with the same packed form are the same point.
pub fn packed_once_law()
    ensures once { IsPackedFormOfOne }
{}

/// The length of a tile is the width of its layout for each of its points.
pub fn tile_length_law()
    ensures length { EachTileHasLength }
{}

/// Bytes read as one tile, or as one first fault.
pub fn tile_once_law()
    ensures once { ReadInOneWay }
{}

/// The old form of a point is the packed form without the high half of the number, and is the form of one point only.
pub fn old_layout_law()
    ensures width { old_width ≡ OLD_LENGTH }
    ensures zeros { OldFormLacksZeros }
    ensures once { EachLayoutIsOfOne }
{}

/// The order of ids is strict, and if two ids are different, one comes first.
pub fn id_order_law()
    ensures irreflexive { NoneIsBeforeItself }
    ensures transitive { BeforeIsTransitive }
    ensures total { EitherIsBefore }
{}
