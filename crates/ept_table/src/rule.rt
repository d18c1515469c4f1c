//! The rule of a table of nodes, and what its steps make known.

ghost use Rattle.std.specs.Prelude.{◌≡◌, true, false, Some, None, MatchOption};
ghost use Rattle.ept_table.specs.declared.note.Told.{Told};
ghost use Rattle.ept_table.specs.Steps.{wishing, drawing, abandoned, merged, beginning, together, lacks_slot, first_note, noting_broken};
ghost use Rattle.ept_table.specs.Tells.{IsTooMany, Fits, ShowsLaw};
ghost use Rattle.ept_table.specs.Item.{seen, broken_by, Filed};
ghost use Rattle.ept_table.specs.Permits.{weight_of};
ghost use Rattle.ept_table.specs.Standing.{known, Stands};
ghost use Rattle.ept_table.specs.Visits.{note_said};

use crate::done::Said;
use crate::item::Item;
use crate::note::Note;
use atomic_table::{Join, Split};
use ept_base::{Source, SpillFile};
use ept_slots::{Draw, Give, Look, Note as Noted, SlotRule, Take};
use std::marker::{Brand, PhantomData};

/// The ghost input of a table. The caller that makes the table knows it, and it is no part of the code.
pub trait Scan {
    /// The ghost input.
    ghost told: { Told };
}

impl Scan for Brand {
    ghost use Rattle.ept_table.specs.Nothing.{nothing_told};

    ghost told = { nothing_told };
}

/// The rule of a table of nodes.
pub struct Rule<F, S, J> {
    marker: PhantomData<(F, S, J)>,
}

impl<F: SpillFile, S: Source, J: Scan> SlotRule<Item<F, S>, Note, ()> for Rule<F, S, J> {
    ghost holds = { λ _ drawn items views. Stands F.held F.faults F.keeps S.whole S.left S.given S.faults J.told drawn items views };

    ghost most = { λ _. J.told.most };

    ghost permits = { λ _. J.told.cache };

    ghost weight = { weight_of };

    ghost first = { λ _. first_note J.told };
}

/// An item is taken: it fits the seat.
pub struct Taking<F, S, J> {
    marker: PhantomData<(F, S, J)>,
}

impl<F: SpillFile, S: Source, J: Scan> Take<Item<F, S>, Note> for Taking<F, S, J> {
    ghost tells = { λ v k x n. (n ≡ v.note) × Fits J.told (known F.held S.whole v) k (seen F.held S.whole x)
        × Filed F.held F.faults F.keeps S.whole S.left S.given S.faults J.told x };
}

/// An item is returned. The seat notes why a node is broken.
pub struct Giving<F, S> {
    marker: PhantomData<(F, S)>,
}

impl<F: SpillFile, S: Source> Give<Item<F, S>, Note, Said> for Giving<F, S> {
    ghost tells = { λ v y said n. n ≡ noting_broken (broken_by y) (note_said v.note (seen F.held S.whole y) said) };
}

/// An octant is noted.
pub struct Wishing<F, S> {
    marker: PhantomData<(F, S)>,
}

impl<F: SpillFile, S: Source> Noted<Item<F, S>, Note, Said> for Wishing<F, S> {
    ghost use Rattle.ept_table.specs.declared.taken.Taken.TheVariants.{Blank};

    ghost tells = { λ v said n. n ≡ note_said v.note Blank said };
}

/// A slot is drawn for the octant that is noted. Or the draw is refused. If contents are visible, the sampling then has
/// more nodes than there may be.
pub struct Drawing<F, S, J> {
    marker: PhantomData<(F, S, J)>,
}

impl<F: SpillFile, S: Source, J: Scan> Draw<Item<F, S>, Note> for Drawing<F, S, J> {
    ghost tells = { λ v drawn n. MatchOption drawn ((n ≡ v.note) × IsTooMany J.told) (λ k. n ≡ drawing v.note k) };
}

/// If contents are visible, the table and the seats show a state that keeps the law.
pub struct Looking<F, S, J> {
    marker: PhantomData<(F, S, J)>,
}

impl<F: SpillFile, S: Source, J: Scan> Look<Item<F, S>, Note> for Looking<F, S, J> {
    ghost tells = { λ v _ n. (n ≡ v.note) × (J.told.tells ≡ true → ShowsLaw J.told (known F.held S.whole v)) };
}

/// The flights of the seat are abandoned.
pub struct Abandoning<F, S, J> {
    marker: PhantomData<(F, S, J)>,
}

impl<F: SpillFile, S: Source, J: Scan> Look<Item<F, S>, Note> for Abandoning<F, S, J> {
    ghost tells = { λ v _ n. (n ≡ abandoned v.note) × (lacks_slot v.note.flights ≡ true → IsTooMany J.told) };
}

/// The last two flights of the seat are merged.
pub struct Merging<F, S> {
    marker: PhantomData<(F, S)>,
}

impl<F: SpillFile, S: Source> Look<Item<F, S>, Note> for Merging<F, S> {
    ghost tells = { λ v _ n. n ≡ merged v.note };
}

/// A seat is divided.
pub struct Dividing;

impl Split<Note> for Dividing {
    ghost left = { λ n. n };

    ghost right = { λ n. beginning n };
}

/// A seat ends in another.
pub struct Joining<J> {
    marker: PhantomData<J>,
}

impl<J: Scan> Join<Note> for Joining<J> {
    ghost both = { λ n m. together n m };

    ghost spent = { first_note J.told };
}
