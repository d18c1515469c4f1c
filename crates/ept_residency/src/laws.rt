//! The laws, on the contract of a function that does nothing.

ghost use Rattle.ept_residency.specs.PlaceLaws.{PlacesAreFree, NodesGo, NodesComeBack, FlightsArrive, FlightsBringBack};
ghost use Rattle.ept_residency.specs.ShowingLaws.{TablesShowPlaces, SlotsEvict, SlotsReload};

/// Whichever nodes are in memory, the law holds. A node that moves to its file is evicted, and a node that is read back
/// is reloaded. A flight arrives at a node in memory, or at one that is reloaded for it.
pub fn place_law()
    ensures free { PlacesAreFree }
    ensures goes { NodesGo }
    ensures comes_back { NodesComeBack }
    ensures arrives { FlightsArrive }
    ensures brings_back { FlightsBringBack }
{}

/// If contents are visible, a table and its seats show at every moment a state that keeps the law, with each node where
/// it is. A node of a slot that moves to its file is evicted, and a node that is read back is reloaded.
pub fn show_law<F, S>()
    ensures shows { TablesShowPlaces F S }
    ensures evicts { SlotsEvict F S }
    ensures reloads { SlotsReload F S }
{}
