//! What is sent of a folder.

ghost use Rattle.std.specs.Prelude.{◌≡◌, ◌≤◌, ◌+◌, ◌⊎◌, ◌↔◌, IsTrue, Some, IfOk, IfErr, option_map};
ghost use Rattle.ept_base.specs.Causes.{HasCauseOf};
ghost use Rattle.ept_base.specs.Files.{Files, SameFiles};
ghost use Rattle.ept_base.specs.Moves.{Moves};
ghost use Rattle.ept_save.specs.Done.{IsDone};
ghost use Rattle.ept_conn.specs.Answers.{Served, is_json};
ghost use Rattle.ept_conn.specs.Served.{IsSentOf};

use crate::end::Fault;
use ept_base::{GetError, Store};
use ept_save::{SaveError, is_done};
use std::alloc::Global;

/// The content of a file, if the done gate is open and the file exists.
pub fn content_of<T: Store>(
    alloc: Global,
    store: &mut T,
    name: &str,
) -> Result<Option<Vec<u8>>, Fault>
    ensures content { IfOk result (λ found. (files : Files) → T.files store.old ≡ Some files
        → (served : Served) → IsSentOf files served
        → option_map (λ content. content.items) found ≡ served.file name.now) }
    ensures only { IfErr result (λ e. (e ≡ Fault.Store) ⊎ (e ≡ Fault.Memory)) }
    ensures gets { T.gets store.new ≤ T.gets store.old + 2 }
    ensures any_moment { Moves T.files T.may_leave T.moment T.image_since SameFiles store.old store.new }
    ensures cause { HasCauseOf Fault.Store (T.faults store.old) (T.faults store.new) result }
{
    if !is_open(alloc, store)? {
        return Ok(None);
    }
    let mut content = Vec::new(alloc);
    match store.get(name, &mut content) {
        Ok(true) => Ok(Some(content)),
        Ok(false) => Ok(None),
        Err(GetError::Failed) => Err(Fault::Store),
        Err(GetError::Memory) => Err(Fault::Memory),
    }
}

/// Whether this is the name of a JSON text.
pub fn is_json(name: &str) -> bool
    ensures { result ≡ is_json name.now }
{
    name.as_bytes().ends_with(b".json")
}

// Whether the done gate is open.
fn is_open<T: Store>(alloc: Global, store: &mut T) -> Result<bool, Fault>
    ensures open { IfOk result (λ found. (files : Files) → T.files store.old ≡ Some files → IsTrue found ↔ IsDone files) }
    ensures only { IfErr result (λ e. (e ≡ Fault.Store) ⊎ (e ≡ Fault.Memory)) }
    ensures gets { T.gets store.new ≤ T.gets store.old + 1 }
    ensures any_moment { Moves T.files T.may_leave T.moment T.image_since SameFiles store.old store.new }
    ensures cause { HasCauseOf Fault.Store (T.faults store.old) (T.faults store.new) result }
{
    match is_done(alloc, store) {
        Ok(found) => Ok(found),
        Err(SaveError::StoreFault) => Err(Fault::Store),
        Err(_) => Err(Fault::Memory),
    }
}
