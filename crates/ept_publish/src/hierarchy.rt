//! The hierarchy files.

ghost use Rattle.std.specs.Prelude.{OnOk, map};
ghost use Rattle.ept_base.specs.Causes.{HasCauseOf};
ghost use Rattle.ept_base.specs.Files.{SameBut, Puts, StepsBy};
ghost use Rattle.ept_base.specs.Moves.{Moves};
ghost use Rattle.ept_meta.specs.Output.{hierarchy_name, hierarchy_file, names_of};
ghost use Rattle.ept_publish.specs.Publishing.{PutsAll, SameButThese};

use ept_base::{PutError, Store};
use ept_hier::HierFile;
use ept_meta::hierarchy_name;
use std::alloc::Global;

/// Puts the hierarchy files.
pub(crate) fn put_hierarchy<T: Store>(
    alloc: Global,
    store: &mut T,
    files: &[HierFile],
) -> Result<(), PutError>
    ensures ok { OnOk result (StepsBy (PutsAll (map hierarchy_file files.now))
        (T.files store.old) (T.files store.new)) }
    ensures any_moment { Moves T.files T.may_leave T.moment T.image_since
        (SameButThese (names_of (map hierarchy_file files.now))) store.old store.new }
    ensures cause { HasCauseOf PutError.Failed (T.faults store.old) (T.faults store.new) result }
{
    for file in files {
        put_hierarchy_file(alloc, store, file)?;
    }
    Ok(())
}

// Puts a hierarchy file.
fn put_hierarchy_file<T: Store>(
    alloc: Global,
    store: &mut T,
    file: &HierFile,
) -> Result<(), PutError>
    ensures ok { OnOk result (StepsBy (Puts (hierarchy_name file.now.key) file.now.text)
        (T.files store.old) (T.files store.new)) }
    ensures any_moment { Moves T.files T.may_leave T.moment T.image_since
        (SameBut (hierarchy_name file.now.key)) store.old store.new }
    ensures cause { HasCauseOf PutError.Failed (T.faults store.old) (T.faults store.new) result }
{
    let Ok(name) = hierarchy_name(alloc, &file.key) else {
        return Err(PutError::Memory);
    };
    store.put(name.as_str(), file.text.as_slice())
}
