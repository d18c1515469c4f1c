//! What the output of a build depends on.

ghost use Rattle.ept_config.specs.Ranges.{LayoutInRange, BoundsInRange};
ghost use Rattle.std.proofs.Props.{props};

use crate::copies::{copy_of_inputs, copy_of_srs};
use crate::input::Input;
use crate::srs::Srs;
use ept_class::ClassSet;
use ept_point::{List, Memory};
use ept_space::Bounds;
use std::alloc::Global;

/// What the output of a build depends on. From the first commit on it is kept together with the output.
#[derive(Debug, Drop)]
pub struct Kept {
    /// The exponent K of the stored unit, 10^-K native units.
    pub scale: u8,
    /// The place of the stored coordinate 0 on x, y and z, in native units.
    pub offset: [i64; 3],
    /// The bounds of all points, in stored units. The minimum is at most the maximum on each axis.
    pub bounds: Bounds,
    /// The exponent of the span: a node has 2^s cells on each axis.
    pub s: u8,
    /// How many losers an octant keeps in its node before they move to a child.
    pub threshold: u64,
    /// The greatest depth of a node that was asked for.
    pub max_depth: u8,
    /// How many depths a hierarchy file has, or 0 for one file.
    pub step: u8,
    /// The spatial reference.
    pub srs: Srs,
    /// The classes whose points come before all others. If the set is empty, no class comes first.
    pub first: ClassSet,
    /// Whether withheld points come after all others.
    pub withheld_last: bool,
    /// The inputs in order. No input has a greater scale than the build.
    pub inputs: List<Input>,
    pub ghost layout: { LayoutInRange scale offset s threshold max_depth step inputs } by { Prim.hlevel props },
    pub ghost has_bounds: { BoundsInRange bounds } by { Prim.hlevel props },
}

impl Kept {
    ghost use Rattle.std.specs.Prelude.{◌≡◌, ◌≤◌, ◌<◌, length, slice_get, Some, IfOk};

    /// The input of this place in the list, from 0.
    pub fn input(&self, at: usize) -> &Input
        requires { at < length self.now.inputs }
        ensures input { slice_get self.now.inputs at ≡ Some result.now }
        ensures scale { result.now.scale ≤ self.now.scale }
    {
        &self.inputs.as_slice()[at]
    }

    /// A copy of what is kept.
    pub fn copy(&self, alloc: Global) -> Result<Kept, Memory>
        ensures same { IfOk result (λ copy. copy ≡ self.now) }
    {
        let srs = copy_of_srs(alloc, &self.srs)?;
        let inputs = copy_of_inputs(alloc, &self.inputs)?;
        Ok(Kept {
            scale: self.scale,
            offset: self.offset,
            bounds: self.bounds,
            s: self.s,
            threshold: self.threshold,
            max_depth: self.max_depth,
            step: self.step,
            srs,
            first: self.first,
            withheld_last: self.withheld_last,
            inputs,
        })
    }
}
