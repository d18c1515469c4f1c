ghost use Rattle.std.specs.Prelude.{◌≡◌, OnOk};
ghost use Rattle.ept_base.specs.Causes.{HasCauseOf};
ghost use Rattle.ept_base.specs.Files.{SameBut, Puts, StepsBy};
ghost use Rattle.ept_base.specs.Moves.{Moves, IsSettled};

use crate::{PutError, Store};

/// Makes the name read as these bytes, and flushes all that is read: a put, then a sync.
///
/// At each moment in between, and after a refusal, no other name has changed.
pub fn put_kept<T: Store>(store: &mut T, name: &str, bytes: &[u8]) -> Result<(), PutError>
    ensures any_moment { Moves T.files T.may_leave T.moment T.image_since (SameBut name.now) store.old store.new }
    ensures ok { OnOk result (StepsBy (Puts name.now bytes.now) (T.files store.old) (T.files store.new)) }
    ensures settled { OnOk result (IsSettled (T.files store.new) (T.may_leave store.new)) }
    ensures counted { T.gets store.new ≡ T.gets store.old }
    ensures cause { HasCauseOf PutError.Failed (T.faults store.old) (T.faults store.new) result }
{
    store.put(name, bytes)?;
    store.sync()?;
    Ok(())
}
