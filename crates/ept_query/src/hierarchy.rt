//! The hierarchy files of a folder.

ghost use Rattle.std.specs.Prelude.{◌≡◌, ◌+◌, ◌≤◌, List, IfOk, IfErr};
ghost use Rattle.ept_base.specs.Causes.{HasCauseOf};
ghost use Rattle.ept_base.specs.Files.{SameFiles, Tells};
ghost use Rattle.ept_base.specs.Moves.{Moves};
ghost use Rattle.ept_hier.specs.Hierarchy.{Entry};
ghost use Rattle.ept_hier.specs.Reading.{IsReading};
ghost use Rattle.ept_query.specs.Causes.{of_hierarchy};
ghost use Rattle.ept_query.specs.Damage.{RefusesBytes, RefusesReading};
ghost use Rattle.ept_query.specs.Hierarchies.{AreOf, HasHierarchy, HasNoHierarchy};

use crate::form::are_of;
use crate::query_error::{QueryError, QueryFile};
use crate::reading::read_file;
use crate::search::Search;
use ept_base::Store;
use ept_hier::{HierError, read_hierarchy_file};
use ept_meta::hierarchy_name;
use ept_space::Key;
use std::alloc::Global;

/// The entries of the hierarchy file of a key.
pub(crate) fn entries_at<T: Store>(
    alloc: Global,
    store: &mut T,
    search: &Search,
    top: &Key,
) -> Result<Vec<(Key, i64)>, QueryError>
    ensures found { IfOk result (λ entries. Tells
        (λ all. HasHierarchy search.now all top.now entries.items) (T.files store.old)) }
    ensures form { IfOk result (λ entries. AreOf search.now top.now entries.items) }
    ensures refused { IfErr result (RefusesReading (QueryFile.Hierarchy top.now)
        (λ all. HasNoHierarchy search.now all top.now) (T.files store.old)) }
    ensures any_moment { Moves T.files T.may_leave T.moment T.image_since SameFiles store.old store.new }
    ensures gets { T.gets store.new ≤ T.gets store.old + 1 }
    ensures cause { HasCauseOf QueryError.StoreFault (T.faults store.old) (T.faults store.new) result }
{
    let name = hierarchy_name(alloc, top)?;
    let bytes = read_file(alloc, store, QueryFile::Hierarchy(*top), name.as_str())?;
    entries_in(alloc, search, top, &bytes)
}

// The entries that bytes are read as, if they are well-formed for the file of `top`.
fn entries_in(
    alloc: Global,
    search: &Search,
    top: &Key,
    bytes: &[u8],
) -> Result<Vec<(Key, i64)>, QueryError>
    ensures reading { IfOk result (λ entries. IsReading bytes.now entries.items) }
    ensures form { IfOk result (λ entries. AreOf search.now top.now entries.items) }
    ensures refused { IfErr result (RefusesBytes (QueryFile.Hierarchy top.now)
        ((entries : List Entry) → IsReading bytes.now entries → ¬ AreOf search.now top.now entries)) }
{
    let file = QueryFile::Hierarchy(*top);
    let mut entries = Vec::new(alloc);
    match read_hierarchy_file(alloc, bytes, &mut entries) {
        Ok(()) => {}
        Err(error) => return Err(told_of(error, file)),
    }
    if are_of(search, top, &entries) {
        Ok(entries)
    } else {
        Err(QueryError::Damaged { file })
    }
}

// The refusal of a hierarchy file.
fn told_of(error: HierError, file: QueryFile) -> QueryError
    ensures { result ≡ of_hierarchy file error }
{
    match error {
        HierError::Json | HierError::Key | HierError::Count => QueryError::Damaged { file },
        HierError::Memory => QueryError::Memory,
    }
}
