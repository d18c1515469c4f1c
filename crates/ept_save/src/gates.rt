//! Gates: files that are open if they hold exactly the one byte 1.

ghost use Rattle.std.specs.Prelude.{◌≡◌, ◌↔◌, Some, IfOk, IfErr, OnOk, IsTrue};
ghost use Rattle.ept_base.specs.Causes.{HasCauseOf};
ghost use Rattle.ept_base.specs.Devices.{counts_on};
ghost use Rattle.ept_base.specs.Files.{Files, SameFiles, SameBut, Tells, StepsBy};
ghost use Rattle.ept_base.specs.Moves.{Elapses, Moves, SameImages, IsSettled};
ghost use Rattle.ept_save.specs.Gates.{IsOpen, Closes};
ghost use Rattle.ept_save.specs.Errors.{IsStores};

use crate::error::SaveError;
use ept_base::Store;
use std::alloc::Global;

/// Whether the gate of this name is open. One file is read, and nothing is put.
pub fn is_open<T: Store>(alloc: Global, store: &mut T, name: &str) -> Result<bool, SaveError>
    ensures found { IfOk result (λ found. Tells (λ all. IsTrue found ↔ IsOpen all name.now) (T.files store.old)) }
    ensures reads { StepsBy SameFiles (T.files store.old) (T.files store.new) }
    ensures images { SameImages (T.may_leave store.old) (T.may_leave store.new) }
    ensures time { Elapses (T.moment store.old) (T.moment store.new) (T.image_since store.old) (T.image_since store.new) (T.may_leave store.new) }
    ensures counted { T.gets store.new ≡ counts_on (T.gets store.old) 1 }
    ensures only { IfErr result IsStores }
    ensures cause { HasCauseOf SaveError.StoreFault (T.faults store.old) (T.faults store.new) result }
{
    let mut bytes = Vec::new(alloc);
    let is_there = store.get(name, &mut bytes)?;
    Ok(is_there && matches!(bytes.as_slice(), [1]))
}

/// Closes a gate: puts the byte 0 if it is open, and nothing if it is not. Then it flushes what is read.
pub fn close_gate<T: Store>(alloc: Global, store: &mut T, name: &str) -> Result<(), SaveError>
    ensures any_moment { Moves T.files T.may_leave T.moment T.image_since (SameBut name.now) store.old store.new }
    ensures stood_shut { (all : Files) → T.files store.old ≡ Some all → ¬ IsOpen all name.now
        → Moves T.files T.may_leave T.moment T.image_since SameFiles store.old store.new }
    ensures puts { OnOk result (StepsBy (Closes name.now) (T.files store.old) (T.files store.new)) }
    ensures shut { OnOk result (Tells (λ all. ¬ IsOpen all name.now) (T.files store.new)) }
    ensures settled { OnOk result (IsSettled (T.files store.new) (T.may_leave store.new)) }
    ensures only { IfErr result IsStores }
    ensures cause { HasCauseOf SaveError.StoreFault (T.faults store.old) (T.faults store.new) result }
{
    if is_open(alloc, store, name)? {
        store.put(name, &[0])?;
    }
    store.sync()?;
    Ok(())
}
