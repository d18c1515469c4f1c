//! How the refusals of a build, of a part of one, and of a merge are passed on.

ghost use Rattle.std.specs.Prelude.{◌≡◌};
ghost use Rattle.ept_run.specs.Errors.{of_build};
ghost use Rattle.ept_run.specs.Merges.{of_merge};
ghost use Rattle.ept_run.specs.Parts.{of_part};

use ept_build::BuildError;
use ept_command::{MergeRefusal, PartRefusal, Refusal};
use ept_merge::MergeError;
use ept_part::PartError;

/// Why a run is refused whose build is refused for this.
pub(crate) fn refusal_of(error: BuildError) -> Refusal
    ensures { result ≡ of_build error }
{
    match error {
        BuildError::StoreFault => Refusal::StoreFault,
        BuildError::BadCheckpoint { letter } => Refusal::BadCheckpoint { letter },
        BuildError::TileDamaged { key } => Refusal::TileDamaged { key },
        BuildError::Differs { field, .. } => Refusal::Differs { field },
        BuildError::SourceFault => Refusal::SourceFault,
        BuildError::BadLas { source, fault } => Refusal::BadLas { source, fault },
        BuildError::OutOfBounds { source, number } => Refusal::OutOfBounds { source, number },
        BuildError::TooManyPoints { source } => Refusal::TooManyPoints { source },
        BuildError::NoBounds => Refusal::NoBounds,
        BuildError::SourceChanged { source, number } => {
            Refusal::SourceChanged { source, number }
        }
        BuildError::SpillFault => Refusal::SpillFault,
        BuildError::SpillDamaged { .. } => Refusal::SpillDamaged,
        BuildError::TooManyNodes => Refusal::TooManyNodes,
        BuildError::Memory => Refusal::Memory,
    }
}

/// Why a part is refused if its making is refused for this.
pub(crate) fn part_refusal_of(error: PartError) -> PartRefusal
    ensures { result ≡ of_part error }
{
    match error {
        PartError::SourceFault => PartRefusal::AsBuild(Refusal::SourceFault),
        PartError::BadLas { source, fault } => {
            PartRefusal::AsBuild(Refusal::BadLas { source, fault })
        }
        PartError::OutOfBounds { source, number } => {
            PartRefusal::AsBuild(Refusal::OutOfBounds { source, number })
        }
        PartError::TooManyPoints { source } => {
            PartRefusal::AsBuild(Refusal::TooManyPoints { source })
        }
        PartError::NoBounds => PartRefusal::AsBuild(Refusal::NoBounds),
        PartError::Shallow => PartRefusal::Shallow,
        PartError::SourceChanged { source, number } => {
            PartRefusal::AsBuild(Refusal::SourceChanged { source, number })
        }
        PartError::TooManyNodes => PartRefusal::AsBuild(Refusal::TooManyNodes),
        PartError::StoreFault => PartRefusal::AsBuild(Refusal::StoreFault),
        PartError::Memory => PartRefusal::AsBuild(Refusal::Memory),
    }
}

/// Why parts are not merged if their merging is refused for this.
pub(crate) fn merge_refusal_of(error: MergeError) -> MergeRefusal
    ensures { result ≡ of_merge error }
{
    match error {
        MergeError::StoreFault => MergeRefusal::from(Refusal::StoreFault),
        MergeError::BadCheckpoint { letter } => {
            MergeRefusal::from(Refusal::BadCheckpoint { letter })
        }
        MergeError::HasCheckpoint { .. } => MergeRefusal::HasCheckpoint,
        MergeError::SourceFault => MergeRefusal::from(Refusal::SourceFault),
        MergeError::BadLas { source, fault } => {
            MergeRefusal::from(Refusal::BadLas { source, fault })
        }
        MergeError::OutOfBounds { source, number } => {
            MergeRefusal::from(Refusal::OutOfBounds { source, number })
        }
        MergeError::TooManyPoints { source } => {
            MergeRefusal::from(Refusal::TooManyPoints { source })
        }
        MergeError::NoBounds => MergeRefusal::from(Refusal::NoBounds),
        MergeError::Shallow => MergeRefusal::AsPart(PartRefusal::Shallow),
        MergeError::NoPart { octants } => MergeRefusal::NoPart { octants },
        MergeError::PartDiffers { octants } => MergeRefusal::PartDiffers { octants },
        MergeError::PartDamaged { octants, key } => MergeRefusal::PartDamaged { octants, key },
        MergeError::TooManyNodes => MergeRefusal::from(Refusal::TooManyNodes),
        MergeError::Memory => MergeRefusal::from(Refusal::Memory),
    }
}
