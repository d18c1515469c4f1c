//! Opening the checkpoints of a store.

ghost use Rattle.std.specs.Prelude.{◌≡◌, ◌≢◌, ◌⊎◌, Some, Err, IfOk, IfErr, false};
ghost use Rattle.ept_base.specs.Causes.{HasCauseOf};
ghost use Rattle.ept_base.specs.Files.{Files, SameFiles, Tells, StepsBy};
ghost use Rattle.ept_base.specs.Moves.{Elapses, Moves, SameImages, IsSettled};
ghost use Rattle.ept_ckpt.specs.declared.letter.Letter.TheVariants as letter;
ghost use Rattle.ept_ckpt.specs.declared.letter.Letter as l;
ghost use Rattle.ept_save.specs.Current.{Current, HasCurrent};
ghost use Rattle.ept_save.specs.Opening.{IsBroken, IsBad, IsFound, AreAlike, lines_of};
ghost use Rattle.ept_save.specs.Errors.{IsStores};
ghost use Rattle.ept_save.specs.View.{StandsFor};
ghost use Rattle.ept_space.specs.VoxelKey.{VoxelKey};

use crate::error::SaveError;
use crate::gates::is_open;
use crate::names::{body_name, gate_name};
use crate::saved::Saved;
use ept_base::Store;
use ept_ckpt::{Checkpoint, CkptError, Letter, read_ckpt};
use std::alloc::Global;

/// Finds the current checkpoint of a store: of the letters whose gates are open, the one whose checkpoint has
/// the greater generation. Nothing is put.
///
/// # Errors
///
/// `BadCheckpoint` if the body of a letter that counts is missing or is not that of a checkpoint. Or both letters count
/// and have one generation. Letter a comes first.
pub fn open<T: Store>(alloc: Global, store: &mut T) -> Result<Saved, SaveError>
    ensures current { IfOk result (λ saved. Tells (HasCurrent saved.current) (T.files store.old)) }
    ensures lines { IfOk result (λ saved. saved.lines ≡ lines_of saved.current) }
    ensures begun { IfOk result (λ saved. saved.begun ≡ false) }

    // A bad checkpoint is reported exactly if there is one, unless the store fails or memory runs out. So no checkpoint is
    // reported if it is known which one is current, or that there is none. Of sound files that is known.
    ensures refused { (which : l.Letter) → result ≡ Err (SaveError.BadCheckpoint which)
        → Tells (λ all. IsBad all which) (T.files store.old) }
    ensures refusal_comes { (which : l.Letter) → (all : Files) → T.files store.old ≡ Some all → IsBad all which
        → (result ≡ Err (SaveError.BadCheckpoint which)) ⊎ (result ≡ Err SaveError.StoreFault)
        ⊎ (result ≡ Err SaveError.Memory) }
    ensures no_tile { IfErr result (λ e. (key : VoxelKey) → e ≢ SaveError.TileDamaged key) }
    ensures none_bad { (current : Current) (all : Files) → T.files store.old ≡ Some all → HasCurrent current all
        → IfErr result IsStores }

    // What is read and every image are as before, and a settled store matches what was found.
    ensures stands { IfOk result (λ saved. (all : Files) → T.files store.old ≡ Some all
        → IsSettled (T.files store.old) (T.may_leave store.old)
        → StandsFor saved (T.files store.new) (T.may_leave store.new)) }
    ensures any_moment { Moves T.files T.may_leave T.moment T.image_since SameFiles store.old store.new }
    ensures cause { HasCauseOf SaveError.StoreFault (T.faults store.old) (T.faults store.new) result }
{
    opened(alloc, store)
}

// Finds it, as `open` says.
fn opened<T: Store>(alloc: Global, store: &mut T) -> Result<Saved, SaveError>
    ensures current { IfOk result (λ saved. Tells (HasCurrent saved.current) (T.files store.old)) }
    ensures lines { IfOk result (λ saved. saved.lines ≡ lines_of saved.current) }
    ensures begun { IfOk result (λ saved. saved.begun ≡ false) }
    ensures refused { (which : l.Letter) → result ≡ Err (SaveError.BadCheckpoint which)
        → Tells (λ all. IsBad all which) (T.files store.old) }
    ensures refusal_comes { (which : l.Letter) → (all : Files) → T.files store.old ≡ Some all → IsBad all which
        → (result ≡ Err (SaveError.BadCheckpoint which)) ⊎ (result ≡ Err SaveError.StoreFault)
        ⊎ (result ≡ Err SaveError.Memory) }
    ensures no_tile { IfErr result (λ e. (key : VoxelKey) → e ≢ SaveError.TileDamaged key) }
    ensures stands { IfOk result (λ saved. (all : Files) → T.files store.old ≡ Some all
        → IsSettled (T.files store.old) (T.may_leave store.old)
        → StandsFor saved (T.files store.new) (T.may_leave store.new)) }
    ensures any_moment { Moves T.files T.may_leave T.moment T.image_since SameFiles store.old store.new }
    ensures cause { HasCauseOf SaveError.StoreFault (T.faults store.old) (T.faults store.new) result }
{
    let a = checkpoint_of(alloc, store, Letter::A)?;
    let b = checkpoint_of(alloc, store, Letter::B)?;
    let current = current_of(a, b)?;
    Ok(Saved::of(alloc, current)?)
}

// The checkpoint of a letter, if it counts.
fn checkpoint_of<T: Store>(
    alloc: Global,
    store: &mut T,
    letter: Letter,
) -> Result<Option<Checkpoint>, SaveError>
    ensures found { IfOk result (λ found. Tells (λ all. IsFound all letter found) (T.files store.old)) }
    ensures refused { IfErr result (λ e. (which : l.Letter) → e ≡ SaveError.BadCheckpoint which
        → (which ≡ letter) × Tells (λ all. IsBroken all letter) (T.files store.old)) }
    ensures no_tile { IfErr result (λ e. (key : VoxelKey) → e ≢ SaveError.TileDamaged key) }
    ensures reads { StepsBy SameFiles (T.files store.old) (T.files store.new) }
    ensures images { SameImages (T.may_leave store.old) (T.may_leave store.new) }
    ensures any_moment { Moves T.files T.may_leave T.moment T.image_since SameFiles store.old store.new }
    ensures time { Elapses (T.moment store.old) (T.moment store.new) (T.image_since store.old) (T.image_since store.new) (T.may_leave store.new) }
    ensures cause { HasCauseOf SaveError.StoreFault (T.faults store.old) (T.faults store.new) result }
{
    if !is_open(alloc, store, gate_name(letter))? {
        return Ok(None);
    }
    let mut body = Vec::new(alloc);
    if !store.get(body_name(letter), &mut body)? {
        return Err(SaveError::BadCheckpoint { letter });
    }
    match read_ckpt(alloc, &body) {
        Ok(checkpoint) => Ok(Some(checkpoint)),
        Err(CkptError::Memory) => Err(SaveError::Memory),
        Err(_) => Err(SaveError::BadCheckpoint { letter }),
    }
}

// The current one of the checkpoints of the letters a and b.
fn current_of(
    a: Option<Checkpoint>,
    b: Option<Checkpoint>,
) -> Result<Option<(Letter, Checkpoint)>, SaveError>
    ensures current { IfOk result (λ current. (files : Files) → IsFound files letter.A a
        → IsFound files letter.B b → HasCurrent current files) }
    ensures alike { IfErr result (λ e. (e ≡ SaveError.BadCheckpoint letter.B)
        × ((files : Files) → IsFound files letter.A a → IsFound files letter.B b → AreAlike files)) }
{
    match (a, b) {
        (None, None) => Ok(None),
        (Some(a), None) => Ok(Some((Letter::A, a))),
        (None, Some(b)) => Ok(Some((Letter::B, b))),
        (Some(a), Some(b)) => match newer(a, b) {
            Ok(current) => Ok(Some(current)),
            Err(error) => Err(error),
        },
    }
}

// The one of the greater generation, with its letter.
fn newer(a: Checkpoint, b: Checkpoint) -> Result<(Letter, Checkpoint), SaveError>
    ensures current { IfOk result (λ current. (files : Files) → IsFound files letter.A (Some a)
        → IsFound files letter.B (Some b) → HasCurrent (Some current) files) }
    ensures alike { IfErr result (λ e. (e ≡ SaveError.BadCheckpoint letter.B) × (a.generation ≡ b.generation)) }
{
    if a.generation == b.generation {
        return Err(SaveError::BadCheckpoint { letter: Letter::B });
    }
    if a.generation > b.generation {
        Ok((Letter::A, a))
    } else {
        Ok((Letter::B, b))
    }
}
