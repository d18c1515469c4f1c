//! The laws of the core, each on the contract of a function that does nothing.

ghost use Rattle.ept_core.specs.CoreLaws.{StepsKeepLaw, RunsKeepLaw, BeginningKeepsLaw, ResumedKeepsLaw, LandedIsSampled, LandedOpensToNodes, HeldKeysAreNodes, OpenChildrenAreNodes, ArrivalsHaveDistinctIds, OrderIsFree, FlightsAreFree};

/// Each step keeps the law, and so does each list of events in any order.
pub fn step_law()
    ensures step { StepsKeepLaw }
    ensures run { RunsKeepLaw }
{}

/// The law holds when a core begins, and when one resumes from the sampling of the first points.
pub fn start_law()
    ensures beginning { BeginningKeepsLaw }
    ensures resumed { ResumedKeepsLaw }
{}

/// If nothing is in flight, the nodes are the sampling of the points that were drawn. The open octants are then those
/// whose children are nodes.
pub fn landed_law()
    ensures sampled { LandedIsSampled }
    ensures opened { LandedOpensToNodes }
{}

/// Each key at which points are held is one of the sampling, and so is the child of each open octant.
pub fn key_law()
    ensures held { HeldKeysAreNodes }
    ensures opened { OpenChildrenAreNodes }
{}

/// A flight has no id that its node already has. The order of the flights, and of the points within a flight, is free.
/// So is who carries which points to a node, and how many fly together.
pub fn flight_law()
    ensures distinct { ArrivalsHaveDistinctIds }
    ensures order { OrderIsFree }
    ensures flights { FlightsAreFree }
{}
