//! What a core is made of.

ghost use Rattle.std.specs.Prelude.{◌≤◌, length};

use crate::flight::Flight;
use crate::node::Node;
use ept_point::{List, Point};
use ept_space::{Key, Rules};
use std::alloc::Global;
use std::collections::BTreeMap;

// What a core is made of.
#[derive(Drop)]
pub(crate) struct Machine {
    pub(crate) alloc: Global,
    pub(crate) rules: Rules,
    pub(crate) actors: u32,
    pub(crate) points: List<Point>,
    // How many points were drawn.
    pub(crate) taken: usize,
    pub(crate) flights: Vec<Flight>,
    pub(crate) nodes: BTreeMap<Key, Node>,
    ghost within: { taken ≤ length points },
}
