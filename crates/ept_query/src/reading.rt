//! Reading a file of a folder.

ghost use Rattle.std.specs.Prelude.{◌≡◌, Some, None, IfOk, IfErr};
ghost use Rattle.ept_base.specs.Causes.{HasCauseOf};
ghost use Rattle.ept_base.specs.Devices.{counts_on};
ghost use Rattle.ept_base.specs.Files.{SameFiles, Tells};
ghost use Rattle.ept_base.specs.Moves.{Moves};
ghost use Rattle.ept_query.specs.Damage.{RefusesReading};

use crate::query_error::{QueryError, QueryFile};
use ept_base::Store;
use std::alloc::Global;

/// The bytes of a file that a query reads, under its name.
pub(crate) fn read_file<T: Store>(
    alloc: Global,
    store: &mut T,
    file: QueryFile,
    name: &str,
) -> Result<Vec<u8>, QueryError>
    ensures found { IfOk result (λ bytes. Tells (λ all. all name.now ≡ Some bytes.items) (T.files store.old)) }
    ensures refused { IfErr result (RefusesReading file (λ all. all name.now ≡ None) (T.files store.old)) }
    ensures any_moment { Moves T.files T.may_leave T.moment T.image_since SameFiles store.old store.new }
    ensures counted { T.gets store.new ≡ counts_on (T.gets store.old) 1 }
    ensures cause { HasCauseOf QueryError.StoreFault (T.faults store.old) (T.faults store.new) result }
{
    let mut bytes = Vec::new(alloc);
    if store.get(name, &mut bytes)? {
        Ok(bytes)
    } else {
        Err(QueryError::Damaged { file })
    }
}
