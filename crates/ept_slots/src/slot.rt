//! What lies in a slot.
ghost use Rattle.std.specs.Prelude.{◌≡◌};
ghost use Rattle.ept_slots.specs.declared.slot.Slot.TheVariants.{Out, Here, Said, Spare};
ghost use Rattle.std.specs.declared.alloc.Global.{Global};
ghost use Rattle.std.specs.declared.vec.Vec.{Vec};

use std::alloc::Global;

/// What lies in a slot, and what a step announces. Callers see it only in the name of a seat's type.
pub enum Slot<T, W> {
    /// The item is out with the holder of the slot.
    Out,
    /// The item.
    Here(T),
    /// What a step announces. It never lies in a slot.
    Said(W),
    /// The empty list that the items were in. It lies after the last slot.
    Spare(Vec<T, Global>),
}

impl<T, W> Slot<T, W> {
    pub(crate) fn into_item(self) -> T
        requires { (item : T) × (self ≡ Here item) }
        ensures { self ≡ Here result }
    {
        let Slot::Here(item) = self else {
            unreachable!()
        };
        item
    }

    pub(crate) fn into_said(self) -> W
        requires { (said : W) × (self ≡ Said said) }
        ensures { self ≡ Said result }
    {
        let Slot::Said(said) = self else {
            unreachable!()
        };
        said
    }

    pub(crate) fn into_spare(self) -> Vec<T, Global>
        requires { (list : Vec T Global) × (self ≡ Spare list) }
        ensures { self ≡ Spare result }
    {
        let Slot::Spare(list) = self else {
            unreachable!()
        };
        list
    }

    // The item is out.
    pub(crate) fn end(self)
        requires { self ≡ Out }
    {
        let Slot::Out = self else { unreachable!() };
    }
}
