//! Committing the next checkpoint.

ghost use Rattle.std.specs.Prelude.{◌≡◌, ◌≢◌, ◌∷◌, [], ℕ, List, true, false, Some, IfErr, OnOk, OnErr};
ghost use Rattle.ept_base.specs.Causes.{HasCauseOf};
ghost use Rattle.ept_base.specs.Files.{Files, SameBut, Puts, StepsBy};
ghost use Rattle.ept_ckpt.specs.Body.{body};
ghost use Rattle.ept_base.specs.Moves.{Moves, IsSettled};
ghost use Rattle.ept_ckpt.specs.declared.checkpoint.Checkpoint as c;
ghost use Rattle.ept_ckpt.specs.Facts.{facts};
ghost use Rattle.ept_ckpt.specs.Valid.{IsCheckpoint};
ghost use Rattle.ept_ckpt.specs.declared.version.BodyVersion.TheVariants.{V3};
ghost use Rattle.ept_point.specs.declared.layout.Layout.TheVariants.{Old};
ghost use Rattle.ept_save.specs.Names.{body_name, gate_name};
ghost use Rattle.ept_save.specs.Current.{Commits, HasCurrent};
ghost use Rattle.ept_save.specs.View.{View, StandsFor, IsNewer, next_letter, next_generation, next_facts};
ghost use Rattle.ept_save.specs.Tiles.{IsOfLayout};
ghost use Rattle.ept_save.specs.Errors.{IsStores};

use crate::error::SaveError;
use crate::names::{body_name, gate_name};
use crate::saved::Saved;
use ept_base::{Store, put_kept};
use ept_ckpt::{Checkpoint, Letter, write_ckpt};
use ept_config::{Kept, SourceCount};
use std::alloc::Global;

/// Makes the next checkpoint the current one: puts its body, and opens its gate once the body is flushed.
/// Its nodes are the saved lines, its version is the newest, and its generation is one more than that of the current one.
pub fn commit<T: Store>(
    alloc: Global,
    store: &mut T,
    saved: &mut Saved,
    kept: &Kept,
    counts: &[SourceCount],
    inserted: u64,
) -> Result<(), SaveError>
    requires begun { saved.old.begun ≡ true }
    requires newest { ¬ IsOfLayout Old saved.old.current }
    requires valid { IsCheckpoint V3 (next_generation saved.old.current) kept.now counts.now inserted saved.old.lines }
    ensures current { OnOk result ((next : c.Checkpoint)
        × (facts next ≡ next_facts saved.old kept.now counts.now inserted)
        × (saved.new ≡ record saved.old { current = Some (next_letter saved.old.current, next); begun = false })) }
    ensures unchanged { OnErr result (saved.new ≡ saved.old) }

    // At every moment only that body and that gate change. The current checkpoint is the last one with its tiles, or the
    // next one with the tiles that were read at the start.
    ensures names { Moves T.files T.may_leave T.moment T.image_since (λ (old : Files) (new : Files). (name : List ℕ)
        → name ≢ body_name (next_letter saved.old.current) → name ≢ gate_name (next_letter saved.old.current)
        → new name ≡ old name) store.old store.new }
    ensures commits { (next : c.Checkpoint) → facts next ≡ next_facts saved.old kept.now counts.now inserted
        → (stands : StandsFor saved.old (T.files store.old) (T.may_leave store.old))
        → Moves T.files T.may_leave T.moment T.image_since
        (Commits saved.old.current (next_letter saved.old.current) next stands.all) store.old store.new }
    ensures stands { OnOk result (StandsFor saved.old (T.files store.old) (T.may_leave store.old)
        → StandsFor saved.new (T.files store.new) (T.may_leave store.new)) }
    ensures each_image { OnOk result (StandsFor saved.old (T.files store.old) (T.may_leave store.old)
        → (image : Files) → T.may_leave store.new image → HasCurrent saved.new.current image) }
    ensures settled { OnOk result (IsSettled (T.files store.new) (T.may_leave store.new)) }
    ensures only { IfErr result IsStores }
    ensures cause { HasCauseOf SaveError.StoreFault (T.faults store.old) (T.faults store.new) result }
{
    let checkpoint = saved.next(alloc, kept, counts, inserted)?;
    commit_checkpoint(alloc, store, saved, checkpoint)
}

/// Makes this checkpoint, of a greater generation, the current one, as [`commit`] does.
pub(crate) fn commit_checkpoint<T: Store>(
    alloc: Global,
    store: &mut T,
    saved: &mut Saved,
    checkpoint: Checkpoint,
) -> Result<(), SaveError>
    requires begun { saved.old.begun ≡ true }
    requires newer { IsNewer saved.old.current checkpoint }
    ensures current { OnOk result (saved.new
        ≡ record saved.old { current = Some (next_letter saved.old.current, checkpoint); begun = false }) }
    ensures unchanged { OnErr result (saved.new ≡ saved.old) }
    ensures names { Moves T.files T.may_leave T.moment T.image_since (λ (old : Files) (new : Files). (name : List ℕ)
        → name ≢ body_name (next_letter saved.old.current) → name ≢ gate_name (next_letter saved.old.current)
        → new name ≡ old name) store.old store.new }
    ensures commits { (stands : StandsFor saved.old (T.files store.old) (T.may_leave store.old))
        → Moves T.files T.may_leave T.moment T.image_since
        (Commits saved.old.current (next_letter saved.old.current) checkpoint stands.all) store.old store.new }
    ensures stands { OnOk result (StandsFor saved.old (T.files store.old) (T.may_leave store.old)
        → StandsFor saved.new (T.files store.new) (T.may_leave store.new)) }
    ensures settled { OnOk result (IsSettled (T.files store.new) (T.may_leave store.new)) }
    ensures only { IfErr result IsStores }
    ensures cause { HasCauseOf SaveError.StoreFault (T.faults store.old) (T.faults store.new) result }
{
    let letter = saved.next_letter();
    put_checkpoint(alloc, store, letter, &checkpoint)?;
    saved.current = Some((letter, checkpoint));
    saved.begun = false;
    Ok(())
}

// Puts the body of a checkpoint, and opens the gate of its letter.
fn put_checkpoint<T: Store>(
    alloc: Global,
    store: &mut T,
    letter: Letter,
    checkpoint: &Checkpoint,
) -> Result<(), SaveError>
    ensures names { Moves T.files T.may_leave T.moment T.image_since (λ (old : Files) (new : Files). (name : List ℕ)
        → name ≢ body_name letter → name ≢ gate_name letter → new name ≡ old name) store.old store.new }
    ensures commits { (view : View) → view.begun ≡ true → letter ≡ next_letter view.current
        → IsNewer view.current checkpoint.now
        → (stands : StandsFor view (T.files store.old) (T.may_leave store.old))
        → Moves T.files T.may_leave T.moment T.image_since
        (Commits view.current (next_letter view.current) checkpoint.now stands.all) store.old store.new }
    ensures stands { OnOk result ((view : View) → view.begun ≡ true → letter ≡ next_letter view.current
        → IsNewer view.current checkpoint.now
        → StandsFor view (T.files store.old) (T.may_leave store.old)
        → StandsFor (record view { current = Some (letter, checkpoint.now); begun = false })
        (T.files store.new) (T.may_leave store.new)) }
    ensures settled { OnOk result (IsSettled (T.files store.new) (T.may_leave store.new)) }
    ensures only { IfErr result IsStores }
    ensures cause { HasCauseOf SaveError.StoreFault (T.faults store.old) (T.faults store.new) result }
{
    put_body(alloc, store, letter, checkpoint)?;
    open_gate(store, letter)?;
    Ok(())
}

// Puts the body of a checkpoint, and flushes it.
fn put_body<T: Store>(
    alloc: Global,
    store: &mut T,
    letter: Letter,
    checkpoint: &Checkpoint,
) -> Result<(), SaveError>
    ensures puts { OnOk result (StepsBy (Puts (body_name letter) (body (facts checkpoint.now)))
        (T.files store.old) (T.files store.new)) }
    ensures one_body { Moves T.files T.may_leave T.moment T.image_since (SameBut (body_name letter)) store.old store.new }
    ensures settled { OnOk result (IsSettled (T.files store.new) (T.may_leave store.new)) }
    ensures only { IfErr result IsStores }
    ensures cause { HasCauseOf SaveError.StoreFault (T.faults store.old) (T.faults store.new) result }
{
    let mut body = Vec::new(alloc);
    write_ckpt(checkpoint, &mut body)?;
    put_kept(store, body_name(letter), &body)?;
    Ok(())
}

// Opens the gate of a letter, and flushes it.
fn open_gate<T: Store>(store: &mut T, letter: Letter) -> Result<(), SaveError>
    ensures puts { OnOk result (StepsBy (Puts (gate_name letter) (1 ∷ []))
        (T.files store.old) (T.files store.new)) }
    ensures one_gate { Moves T.files T.may_leave T.moment T.image_since (SameBut (gate_name letter)) store.old store.new }
    ensures settled { OnOk result (IsSettled (T.files store.new) (T.may_leave store.new)) }
    ensures only { IfErr result IsStores }
    ensures cause { HasCauseOf SaveError.StoreFault (T.faults store.old) (T.faults store.new) result }
{
    put_kept(store, gate_name(letter), &[1])?;
    Ok(())
}
