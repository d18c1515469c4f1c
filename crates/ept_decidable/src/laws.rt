//! What can be computed, each on the contract of a function that does nothing.

ghost use Rattle.ept_decidable.specs.Known.{RestIsKnown, DistinctIdsAreDecided, CanBeSampledIsDecided, SampledIsDecided};

use ept_base::Source;

/// The list of points that a reader has left can be computed. There is none if the contents of its sources are not
/// visible, or are not the bytes that were scanned.
pub fn rest_law<S: Source>()
    ensures { RestIsKnown S.whole }
{}

/// Whether points can be sampled, and whether nodes are the sampling of points, can be computed.
pub fn sampled_law()
    ensures distinct { DistinctIdsAreDecided }
    ensures can { CanBeSampledIsDecided }
    ensures sampled { SampledIsDecided }
{}
