//! Why the words, or the files that they name, are refused.

use crate::status::{
    BAD_CONFIGURATION, BAD_SCAN, DAMAGED, DEVICE, DIFFERS, MEMORY, TOO_MANY, USAGE,
};
use ept_base::GetError;
use ept_ckpt::Letter;
use ept_config_text::ConfigError;
use ept_las::LasError;
use ept_meta::Field;
use ept_point::{Memory, PointNumber};
use ept_space::Key;
use std::alloc::AllocError;

/// Why the words, or the files that they name, are refused. The inputs of a build are numbered from 0, and
/// so are the records of an input.
#[derive(Clone, Copy, Debug, PartialEq, Eq)]
pub enum Refusal {
    /// The words are no command.
    Usage,
    /// The configuration is refused.
    BadConfiguration(ConfigError),
    /// This input, or the file whose header is asked for, is not a LAS file that can be read.
    BadLas { source: u32, fault: LasError },
    /// The record of this number of this input is not in stored units, or not within the bounds.
    OutOfBounds { source: u32, number: PointNumber },
    /// No bounds are given, and no input has a point.
    NoBounds,
    /// This input has changed between the first reading and the second, at the record of this number.
    SourceChanged { source: u32, number: PointNumber },
    /// This input states more points than can be numbered.
    TooManyPoints { source: u32 },
    /// The octree has more nodes than there may be.
    TooManyNodes,
    /// This is the first field of the configuration that differs from what an earlier build kept.
    Differs { field: Field },
    /// The checkpoint of this letter is missing or damaged.
    BadCheckpoint { letter: Letter },
    /// The tile that the current checkpoint names for this key is missing or not the node's.
    TileDamaged { key: Key },
    /// A file of the shelf can't be opened or read: the shelf's count of faults rose.
    SourceFault,
    /// A call of the store failed: its count of faults rose.
    StoreFault,
    /// A spill file can't be made or failed: the room's count of faults rose.
    SpillFault,
    /// A spill file returned other bytes than were kept.
    SpillDamaged,
    /// Memory ran out.
    Memory,
}

impl From<GetError> for Refusal {
    ghost use Rattle.std.specs.Prelude.{◌≡◌};
    ghost use Rattle.ept_command.specs.Errors.{of_get};

    ghost from_gives = { λ from e. e ≡ of_get from };

    fn from(error: GetError) -> Refusal {
        match error {
            GetError::Failed => Refusal::SourceFault,
            GetError::Memory => Refusal::Memory,
        }
    }
}

impl From<ConfigError> for Refusal {
    ghost use Rattle.std.specs.Prelude.{◌≡◌};
    ghost use Rattle.ept_command.specs.Errors.{of_config};

    ghost from_gives = { λ from e. e ≡ of_config from };

    fn from(error: ConfigError) -> Refusal {
        match error {
            ConfigError::Memory => Refusal::Memory,
            _ => Refusal::BadConfiguration(error),
        }
    }
}

impl From<Memory> for Refusal {
    ghost use Rattle.std.specs.Prelude.{◌≡◌};
    ghost use Rattle.ept_command.specs.declared.refusal.Refusal.TheVariants.{Memory};

    ghost from_gives = { λ _ e. e ≡ Memory };

    fn from(_error: Memory) -> Refusal {
        Refusal::Memory
    }
}

impl From<AllocError> for Refusal {
    ghost use Rattle.std.specs.Prelude.{◌≡◌};
    ghost use Rattle.ept_command.specs.declared.refusal.Refusal.TheVariants.{Memory};

    ghost from_gives = { λ _ e. e ≡ Memory };

    fn from(_error: AllocError) -> Refusal {
        Refusal::Memory
    }
}

impl Refusal {
    ghost use Rattle.std.specs.Prelude.{◌≡◌};
    ghost use Rattle.ept_command.specs.Statuses.{status_of};

    /// The status that the program ends with.
    pub fn status(&self) -> u8
        ensures { result ≡ status_of self.now }
    {
        match self {
            Refusal::Usage => USAGE,
            Refusal::BadConfiguration(_) => BAD_CONFIGURATION,
            Refusal::BadLas { .. }
            | Refusal::OutOfBounds { .. }
            | Refusal::NoBounds
            | Refusal::SourceChanged { .. } => BAD_SCAN,
            Refusal::TooManyPoints { .. } | Refusal::TooManyNodes => TOO_MANY,
            Refusal::Differs { .. } => DIFFERS,
            Refusal::BadCheckpoint { .. } | Refusal::TileDamaged { .. } | Refusal::SpillDamaged =>
                DAMAGED,
            Refusal::SourceFault | Refusal::StoreFault | Refusal::SpillFault => DEVICE,
            Refusal::Memory => MEMORY,
        }
    }
}

/// Why a part of a build is refused.
#[derive(Clone, Copy, Debug, PartialEq, Eq)]
pub enum PartRefusal {
    /// For a cause for which a build is also refused.
    AsBuild(Refusal),
    /// The greatest depth is 0, so the root has no octants.
    Shallow,
}

impl From<Refusal> for PartRefusal {
    ghost use Rattle.std.specs.Prelude.{◌≡◌};
    ghost use Rattle.ept_command.specs.declared.refusal.PartRefusal.TheVariants.{AsBuild};

    ghost from_gives = { λ from r. r ≡ AsBuild from };

    fn from(refusal: Refusal) -> PartRefusal {
        PartRefusal::AsBuild(refusal)
    }
}

/// Why parts of a build are not merged.
#[derive(Clone, Copy, Debug, PartialEq, Eq)]
pub enum MergeRefusal {
    /// For a cause for which a part is also refused.
    AsPart(PartRefusal),
    /// The folder has a checkpoint already.
    HasCheckpoint,
    /// The part of these octants is not there: its gate is not open.
    NoPart { octants: u8 },
    /// The part of these octants was made with another configuration, or of other inputs.
    PartDiffers { octants: u8 },
    /// The part of these octants is damaged: the tile of this key, or its body if there is no key. There is also no key
    /// if the bodies of all parts do not fit together; this part is then the last one.
    PartDamaged { octants: u8, key: Option<Key> },
}

impl From<Refusal> for MergeRefusal {
    ghost use Rattle.std.specs.Prelude.{◌≡◌};
    ghost use Rattle.ept_command.specs.declared.refusal.MergeRefusal.TheVariants.{AsPart};
    ghost use Rattle.ept_command.specs.declared.refusal.PartRefusal.TheVariants.{AsBuild};

    ghost from_gives = { λ from r. r ≡ AsPart (AsBuild from) };

    fn from(refusal: Refusal) -> MergeRefusal {
        MergeRefusal::AsPart(PartRefusal::AsBuild(refusal))
    }
}
