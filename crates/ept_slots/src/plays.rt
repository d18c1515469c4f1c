//! What the steps of the underlying table make known. These types are for the proofs alone.
ghost use Rattle.ept_slots.specs.Plays.{play_take, play_give, play_grant, play_return, play_note, play_look, play_draw};
ghost use Rattle.ept_slots.specs.Views.{left_of, right_of, both_of, spent_view};

use crate::rule::SlotRule;
use crate::slot::Slot;
use crate::tells::{Draw, Give, Look, Note, Take};
use crate::view::View;
use atomic_table::{Join, Play, Split};
use std::marker::PhantomData;

pub struct Taking<M> {
    marker: PhantomData<M>,
}

impl<T, N, W, M: Take<T, N>> Play<Slot<T, W>, View<T, N>> for Taking<M> {
    ghost then = { play_take M.tells };
}

pub struct Giving<M, K, R> {
    marker: PhantomData<(M, K, R)>,
}

impl<T, N, W, M: Give<T, N, W>, K, R: SlotRule<T, N, K>> Play<Slot<T, W>, View<T, N>>
    for Giving<M, K, R> {
    ghost then = { play_give R.weight M.tells };
}

pub struct Granting;

impl<T, N, W> Play<Slot<T, W>, View<T, N>> for Granting {
    ghost then = { play_grant };
}

pub struct Returning;

impl<T, N, W> Play<Slot<T, W>, View<T, N>> for Returning {
    ghost then = { play_return };
}

pub struct Noting<M> {
    marker: PhantomData<M>,
}

impl<T, N, W, M: Note<T, N, W>> Play<Slot<T, W>, View<T, N>> for Noting<M> {
    ghost then = { play_note M.tells };
}

pub struct Looking<M> {
    marker: PhantomData<M>,
}

impl<T, N, W, M: Look<T, N>> Play<Slot<T, W>, View<T, N>> for Looking<M> {
    ghost then = { play_look M.tells };
}

pub struct Drawing<M> {
    marker: PhantomData<M>,
}

impl<T, N, W, M: Draw<T, N>> Play<Slot<T, W>, View<T, N>> for Drawing<M> {
    ghost then = { play_draw M.tells };
}

pub struct Halves<M> {
    marker: PhantomData<M>,
}

impl<T, N, M: Split<N>> Split<View<T, N>> for Halves<M> {
    ghost left = { λ v. left_of v (M.left v.note) };

    ghost right = { λ v. right_of v (M.right v.note) };
}

pub struct Sums<M> {
    marker: PhantomData<M>,
}

impl<T, N, M: Join<N>> Join<View<T, N>> for Sums<M> {
    ghost both = { λ v w. both_of v w (M.both v.note w.note) };

    ghost spent = { spent_view M.spent };
}
