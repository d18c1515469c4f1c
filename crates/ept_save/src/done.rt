//! The done gate: it is open only if the files of the output are whole.

ghost use Rattle.std.specs.Prelude.{◌≡◌, ◌↔◌, Some, IsTrue, IfOk, IfErr, OnOk};
ghost use Rattle.ept_base.specs.Causes.{HasCauseOf};
ghost use Rattle.ept_base.specs.Devices.{counts_on};
ghost use Rattle.ept_base.specs.Files.{Files, SameFiles, SameBut, Tells, StepsBy};
ghost use Rattle.ept_base.specs.Moves.{Moves, SameImages, IsSettled};
ghost use Rattle.ept_save.specs.Names.{done_name};
ghost use Rattle.ept_save.specs.Gates.{Closes};
ghost use Rattle.ept_save.specs.Done.{IsDone, IsGuarded, Guards};
ghost use Rattle.ept_save.specs.Errors.{IsStores};
ghost use Rattle.ept_save.specs.View as view;
ghost use Rattle.ept_save.specs.View.{StandsFor};

use crate::error::SaveError;
use crate::gates::{close_gate, is_open};
use crate::names::DONE;
use ept_base::{Store, put_kept};
use std::alloc::Global;

/// Whether the output is whole: whether the done gate is open. One file is read, and nothing is put.
pub fn is_done<T: Store>(alloc: Global, store: &mut T) -> Result<bool, SaveError>
    ensures done { IfOk result (λ done. Tells (λ all. IsTrue done ↔ IsDone all) (T.files store.old)) }
    ensures counted { T.gets store.new ≡ counts_on (T.gets store.old) 1 }
    ensures images { SameImages (T.may_leave store.old) (T.may_leave store.new) }
    ensures any_moment { Moves T.files T.may_leave T.moment T.image_since SameFiles store.old store.new }
    ensures stands { (v : view.View) → StandsFor v (T.files store.old) (T.may_leave store.old)
        → StandsFor v (T.files store.new) (T.may_leave store.new) }
    ensures only { IfErr result IsStores }
    ensures cause { HasCauseOf SaveError.StoreFault (T.faults store.old) (T.faults store.new) result }
{
    is_open(alloc, store, DONE)
}

/// Closes the done gate: puts the byte 0 if it is open, and nothing if it is not. Then it flushes what is read.
pub fn close_done<T: Store>(alloc: Global, store: &mut T) -> Result<(), SaveError>
    ensures puts { OnOk result (StepsBy (Closes done_name) (T.files store.old) (T.files store.new)) }
    ensures closed { OnOk result (Tells (λ all. ¬ IsDone all) (T.files store.new)) }
    ensures stood_shut { (all : Files) → T.files store.old ≡ Some all → ¬ IsDone all
        → Moves T.files T.may_leave T.moment T.image_since SameFiles store.old store.new }
    ensures gate { Moves T.files T.may_leave T.moment T.image_since (SameBut done_name) store.old store.new }
    ensures guards { (guarded : IsGuarded (T.files store.old) (T.may_leave store.old))
        → Moves T.files T.may_leave T.moment T.image_since (Guards guarded.all) store.old store.new }
    ensures stands { OnOk result ((v : view.View) → StandsFor v (T.files store.old) (T.may_leave store.old)
        → StandsFor v (T.files store.new) (T.may_leave store.new)) }
    ensures settled { OnOk result (IsSettled (T.files store.new) (T.may_leave store.new)) }
    ensures only { IfErr result IsStores }
    ensures cause { HasCauseOf SaveError.StoreFault (T.faults store.old) (T.faults store.new) result }
{
    close_gate(alloc, store, DONE)?;
    Ok(())
}

/// Opens the done gate, once all that is read is flushed, and flushes the gate.
pub fn open_done<T: Store>(store: &mut T) -> Result<(), SaveError>
    ensures opened { OnOk result (Tells IsDone (T.files store.new)) }
    ensures gate { Moves T.files T.may_leave T.moment T.image_since (SameBut done_name) store.old store.new }
    ensures guards { (guarded : IsGuarded (T.files store.old) (T.may_leave store.old))
        → Moves T.files T.may_leave T.moment T.image_since (Guards guarded.all) store.old store.new }
    ensures stands { OnOk result ((v : view.View) → StandsFor v (T.files store.old) (T.may_leave store.old)
        → StandsFor v (T.files store.new) (T.may_leave store.new)) }
    ensures settled { OnOk result (IsSettled (T.files store.new) (T.may_leave store.new)) }
    ensures only { IfErr result IsStores }
    ensures cause { HasCauseOf SaveError.StoreFault (T.faults store.old) (T.faults store.new) result }
{
    settle(store)?;
    put_kept(store, DONE, &[1])?;
    Ok(())
}

// Flushes what is read.
fn settle<T: Store>(store: &mut T) -> Result<(), SaveError>
    ensures any_moment { Moves T.files T.may_leave T.moment T.image_since SameFiles store.old store.new }
    ensures settled { OnOk result (IsSettled (T.files store.new) (T.may_leave store.new)) }
    ensures only { IfErr result IsStores }
    ensures cause { HasCauseOf SaveError.StoreFault (T.faults store.old) (T.faults store.new) result }
{
    store.sync()?;
    Ok(())
}
