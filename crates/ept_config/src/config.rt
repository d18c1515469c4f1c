//! The configuration of a build.

ghost use Rattle.ept_config.specs.Ranges.{LayoutInRange, GivenBoundsInRange, WorkInRange};
ghost use Rattle.std.proofs.Props.{props};

use crate::bounds_range::bounds_known;
use crate::copies::{copy_of_inputs, copy_of_srs};
use crate::input::Input;
use crate::kept::Kept;
use crate::srs::Srs;
use ept_class::ClassSet;
use ept_point::{List, Memory};
use ept_space::Bounds;
use std::alloc::Global;

/// The configuration of a build: what its output depends on, and how much of the machine it may use.
#[derive(Debug, Drop)]
pub struct Config {
    /// The exponent K of the stored unit, 10^-K native units.
    pub scale: u8,
    /// The place of the stored coordinate 0 on x, y and z, in native units.
    pub offset: [i64; 3],
    /// The bounds of all points, in stored units, if they are given. The minimum is at most the maximum
    /// on each axis.
    pub bounds: Option<Bounds>,
    /// The exponent of the span: a node has 2^s cells on each axis.
    pub s: u8,
    /// How many losers an octant keeps in its node before they move to a child.
    pub threshold: u64,
    /// The greatest depth of a node that is asked for.
    pub max_depth: u8,
    /// How many depths a hierarchy file has, or 0 for one file.
    pub step: u8,
    /// The spatial reference.
    pub srs: Srs,
    /// The classes whose points come before all others. If the set is empty, no class comes first.
    pub first: ClassSet,
    /// Whether withheld points come after all others.
    pub withheld_last: bool,
    /// The inputs in order. No input has a greater scale than the build.
    pub inputs: List<Input>,
    /// The number of threads that insert points, from 1 to `cache`.
    pub threads: u32,
    /// How many nodes are kept in memory while threads run.
    pub cache: u32,
    /// How many nodes there may be.
    pub max_nodes: u32,
    /// How many records are inserted between two commits.
    pub checkpoint: u64,
    pub ghost layout: { LayoutInRange scale offset s threshold max_depth step inputs } by { Prim.hlevel props },
    pub ghost has_bounds: { GivenBoundsInRange bounds } by { Prim.hlevel props },
    pub ghost work: { WorkInRange threads cache max_nodes checkpoint } by { Prim.hlevel props },
}

impl Config {
    ghost use Rattle.std.specs.Prelude.{◌≡◌, ◌≤◌, ◌<◌, length, slice_get, Some, IfOk};
    ghost use Rattle.ept_space.specs.CubeOfBounds.{HasPlace};
    ghost use Rattle.ept_config.specs.KeptOf.{IsKeptOf};

    /// The input of this place in the list, from 0.
    pub fn input(&self, at: usize) -> &Input
        requires { at < length self.now.inputs }
        ensures input { slice_get self.now.inputs at ≡ Some result.now }
        ensures scale { result.now.scale ≤ self.now.scale }
    {
        &self.inputs.as_slice()[at]
    }

    /// What the output of a build with these bounds depends on.
    pub fn kept(&self, alloc: Global, bounds: &Bounds) -> Result<Kept, Memory>
        requires { HasPlace bounds.now }
        ensures kept { IfOk result (IsKeptOf self.now bounds.now) }
    {
        bounds_known(bounds);
        let srs = copy_of_srs(alloc, &self.srs)?;
        let inputs = copy_of_inputs(alloc, &self.inputs)?;
        Ok(Kept {
            scale: self.scale,
            offset: self.offset,
            bounds: *bounds,
            s: self.s,
            threshold: self.threshold,
            max_depth: self.max_depth,
            step: self.step,
            srs,
            first: self.first,
            withheld_last: self.withheld_last,
            inputs,
        })
    }
}
