//! The parts that a merge is asked for.

ghost use Rattle.std.specs.Prelude.{◌≤◌};

/// How many parts there may be: each has an octant that no other has.
pub(crate) const MOST_PARTS: usize = 8;

/// The parts of a merge, in the order of the words. Each is given by its octants, bit o for octant o. Each octant is in
/// exactly one of those that [`command_of`](crate::command_of) reads.
#[derive(Clone, Copy, Debug, PartialEq, Eq)]
pub struct Parts {
    pub masks: [u8; MOST_PARTS],
    pub len: u8,
    ghost few: { len ≤ 8 },
}

impl Parts {
    ghost use Rattle.std.specs.Prelude.{◌≡◌};
    ghost use Rattle.ept_command.specs.Words.{masks_in};

    /// The octants of each part, in order.
    pub fn as_slice(&self) -> &[u8]
        ensures { result.now ≡ masks_in self.now }
    {
        &self.masks[..usize::from(self.len)]
    }
}
