ghost use Rattle.std.specs.Prelude.{◌≡◌, ◌≤◌, ℕ, [], Option, false, IfOk, OnOk, OnErr, IsErrOf};
ghost use Rattle.ept_base.specs.Causes.{HasCauseOf};
ghost use Rattle.ept_base.specs.Files.{Files, SameFiles, SameBut, Puts, Removes, Tells, StepsBy};
ghost use Rattle.ept_base.specs.Moves.{Follows, SameImages, NoMore, IsSettled, Elapses};
ghost use Rattle.ept_base.specs.Devices.{Gets, counts_on};

use crate::{GetError, PutError};

/// A finite map from names to bytes, and what a crash may leave of it.
///
/// A crash may undo or spoil what was put or removed since the last `sync`. Each such name may then be missing or hold
/// any bytes. Each state that a crash may leave is an image of the store.
pub trait Store {
    /// What is read under each name, if it is visible.
    ghost files: { Self → Option Files };

    /// The images that a crash at this moment may leave.
    ghost may_leave: { Self → Files → Type 0 };

    /// The moment, a number that never falls.
    ghost moment: { Self → ℕ };

    /// The images that a crash at some moment from that one on may have left, moments inside a call
    /// included.
    ghost image_since: { Self → ℕ → Files → Type 0 };

    /// How often it has failed.
    ghost faults: { Self → ℕ };

    /// How many calls of `get` there were, up to the last value of 64 bits.
    ghost gets: { Self → ℕ };

    /// Returns true with the file's bytes as the whole of `into`, or false with `into` empty if the name is missing.
    /// After a refusal `into` is as it was.
    fn get(&mut self, name: &str, into: &mut Vec<u8>) -> Result<bool, GetError>
        ensures ok { IfOk result (λ found. Tells (λ all. Gets all name.now found into.new.items) (files self.old)) }
        ensures absent { IfOk result (λ found. found ≡ false → into.new.items ≡ []) }
        ensures unchanged { OnErr result (into.new.items ≡ into.old.items) }
        ensures reads { StepsBy SameFiles (files self.old) (files self.new) }
        ensures images { SameImages (may_leave self.old) (may_leave self.new) }
        ensures time { Elapses (moment self.old) (moment self.new) (image_since self.old) (image_since self.new) (may_leave self.new) }
        ensures counted { gets self.new ≡ counts_on (gets self.old) 1 }
        ensures cause { HasCauseOf GetError.Failed (faults self.old) (faults self.new) result };

    /// Makes the name read as these bytes. After `Failed` the name may be missing or hold any bytes; after `Memory`
    /// nothing changed.
    fn put(&mut self, name: &str, bytes: &[u8]) -> Result<(), PutError>
        ensures ok { OnOk result (StepsBy (Puts name.now bytes.now) (files self.old) (files self.new)) }
        ensures memory { IsErrOf result PutError.Memory → StepsBy SameFiles (files self.old) (files self.new)
            × SameImages (may_leave self.old) (may_leave self.new) }
        ensures reads { StepsBy (SameBut name.now) (files self.old) (files self.new) }
        ensures images { Follows (SameBut name.now) (may_leave self.old) (may_leave self.new) }
        ensures time { Elapses (moment self.old) (moment self.new) (image_since self.old) (image_since self.new) (may_leave self.new) }
        ensures counted { gets self.new ≡ gets self.old }
        ensures cause { HasCauseOf PutError.Failed (faults self.old) (faults self.new) result };

    /// Removes the name, which may be missing already. After `Failed` the name may be missing or hold any bytes; after
    /// `Memory` nothing changed.
    fn remove(&mut self, name: &str) -> Result<(), PutError>
        ensures ok { OnOk result (StepsBy (Removes name.now) (files self.old) (files self.new)) }
        ensures memory { IsErrOf result PutError.Memory → StepsBy SameFiles (files self.old) (files self.new)
            × SameImages (may_leave self.old) (may_leave self.new) }
        ensures reads { StepsBy (SameBut name.now) (files self.old) (files self.new) }
        ensures images { Follows (SameBut name.now) (may_leave self.old) (may_leave self.new) }
        ensures time { Elapses (moment self.old) (moment self.new) (image_since self.old) (image_since self.new) (may_leave self.new) }
        ensures counted { gets self.new ≡ gets self.old }
        ensures cause { HasCauseOf PutError.Failed (faults self.old) (faults self.new) result };

    /// Makes what is read the only image. After a refusal what is read and the images are as before.
    fn sync(&mut self) -> Result<(), PutError>
        ensures ok { OnOk result (IsSettled (files self.new) (may_leave self.new)) }
        ensures unchanged { OnErr result (SameImages (may_leave self.old) (may_leave self.new)) }
        ensures reads { StepsBy SameFiles (files self.old) (files self.new) }
        ensures images { NoMore (may_leave self.old) (may_leave self.new) }
        ensures time { Elapses (moment self.old) (moment self.new) (image_since self.old) (image_since self.new) (may_leave self.new) }
        ensures counted { gets self.new ≡ gets self.old }
        ensures cause { HasCauseOf PutError.Failed (faults self.old) (faults self.new) result };

    /// An image of now is an image since each moment up to now.
    ghost counts_now: { (store : Self) (t : ℕ) (image : Files) → t ≤ moment store → may_leave store image → image_since store t image };

    /// Since this moment there is no other image.
    ghost only_now: { (store : Self) (image : Files) → image_since store (moment store) image → may_leave store image };

    /// What is read is an image.
    ghost reads_an_image: { (store : Self) → Tells (may_leave store) (files store) };
}
