//! The members of a set of classes, one by one.

ghost use Rattle.std.specs.Prelude.{◌≡◌, ◌++◌, OnOk, IfOk};
ghost use Rattle.ept_meta.specs.Classes.{members_of};
ghost use Rattle.ept_meta.specs.Json.{naturals_text};
ghost use Rattle.ept_meta.specs.BuildText.{first_member, last_member, flag_text};

use crate::pieces::{append, append_naturals};
use ept_class::ClassSet;
use ept_point::Memory;
use std::alloc::Global;

// The members of a set, in ascending order.
fn members_of(alloc: Global, set: &ClassSet) -> Result<Vec<u8>, Memory>
    ensures members { IfOk result (λ classes. classes.items ≡ members_of set.now) }
{
    let mut classes = Vec::new(alloc);
    for class in 0..256u16 {
        if set.contains(class as u8) {
            classes.push(class as u8)?;
        }
    }
    Ok(classes)
}

/// Appends the members of a set as an array.
pub(crate) fn append_classes(text: &mut Vec<u8>, set: &ClassSet) -> Result<(), Memory>
    ensures { OnOk result (text.new.items ≡ text.old.items ++ naturals_text (members_of set.now)) }
{
    let classes = members_of(*text.allocator(), set)?;
    append_naturals(text, classes.as_slice())
}

/// Appends the member of the classes that come first, if there are any.
pub(crate) fn append_first(text: &mut Vec<u8>, set: &ClassSet) -> Result<(), Memory>
    ensures { OnOk result (text.new.items ≡ text.old.items ++ first_member (members_of set.now)) }
{
    let classes = members_of(*text.allocator(), set)?;
    append_member(text, classes.as_slice())
}

fn append_member(text: &mut Vec<u8>, classes: &[u8]) -> Result<(), Memory>
    ensures { OnOk result (text.new.items ≡ text.old.items ++ first_member classes.now) }
{
    if !classes.is_empty() {
        append(text, b",\"firstClasses\":")?;
        append_naturals(text, classes)?;
    }
    Ok(())
}

/// Appends the member that withheld points come last, if they do.
pub(crate) fn append_last(text: &mut Vec<u8>, withheld_last: bool) -> Result<(), Memory>
    ensures { OnOk result (text.new.items ≡ text.old.items ++ last_member withheld_last) }
{
    if withheld_last {
        append(text, b",\"withheldLast\":true")?;
    }
    Ok(())
}

/// Appends `true` or `false`.
pub(crate) fn append_flag(text: &mut Vec<u8>, flag: bool) -> Result<(), Memory>
    ensures { OnOk result (text.new.items ≡ text.old.items ++ flag_text flag) }
{
    if flag {
        append(text, b"true")
    } else {
        append(text, b"false")
    }
}
