//! The laws of parts in files, each on the contract of a function that does nothing.

ghost use Rattle.ept_part.specs.PartLaws.{PartLeavesBuild, PartsAreApart, PartIsItsNames};

/// A change of a part's names leaves each name of which the soundness of a build speaks. It also leaves the names of
/// each part that lacks one of its octants. A part stays sound if its own names stay.
pub fn part_law()
    ensures build { PartLeavesBuild }
    ensures apart { PartsAreApart }
    ensures own { PartIsItsNames }
{}
