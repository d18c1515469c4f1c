//! A connection over a link, served to its end.

ghost use Rattle.std.specs.Prelude.{◌≡◌, ◌≢◌, ◌⊎◌, ◌<◌, ◌≤◌, ℕ, [], None, Some, IfSome, IfNone, length, drop};
ghost use Rattle.ept_base.specs.Causes.{Rose};
ghost use Rattle.ept_base.specs.Files.{Files, SameFiles, StepsBy, Tells};
ghost use Rattle.ept_base.specs.Moves.{Moves};
ghost use Rattle.ept_conn.specs.Answers.{Served};
ghost use Rattle.ept_conn.specs.Served.{IsServed, IsSentOf};
ghost use Rattle.ept_conn.specs.State.{want_of};
ghost use Rattle.ept_query.specs.declared.query_error.QueryFile.{QueryFile};
ghost use Rattle.ept_conn.specs.declared.hand.Hand.TheVariants.{Empty};
ghost use Rattle.ept_conn.specs.Works.{HasPlanOf, IsDamagedIn, IsDamaged};
ghost use Rattle.ept_conn.specs.Ends.{EndsWell};
ghost use Rattle.ept_conn.specs.Serving.{IsServedOver};
ghost use Rattle.ept_conn.specs.Conversation.{GoesOn, HasFailed, HasCauseFor, rank};
ghost use Rattle.ept_conn.specs.Got.{GetsForRead, GetsOn};

use crate::end::{End, Fault, Want};
use crate::session::Session;
use ept_base::{Failed, Link, Store};
use std::alloc::Global;

/// The most bytes that one read takes.
const PIECE: usize = 8192;

/// Serves a connection over a link from a folder, turn by turn, to its end. Nothing is read while a turn waits for its
/// response.
pub fn serve_link<L: Link, T: Store>(alloc: Global, link: &mut L, store: &mut T) -> End
    ensures served { (files : Files) → T.files store.old ≡ Some files → (served : Served) → IsSentOf files served
        → StepsBy (IsServedOver served (Rose (T.faults store.old) (T.faults store.new)) result) (L.wire link.old) (L.wire link.new) }
    ensures links { result ≡ End.LinkFault → Rose (L.faults link.old) (L.faults link.new) }
    ensures stores { result ≡ End.StoreFault → Rose (T.faults store.old) (T.faults store.new) }
    ensures damaged { (file : QueryFile) → result ≡ End.Damaged file → Tells (IsDamaged file) (T.files store.old) }

    // If no device fails and no file is missing or damaged, the connection ends well: The input has ended, the last
    // turn was served, or memory ran out.
    ensures well { (files : Files) (served : Served) → T.files store.old ≡ Some files → IsServed files served → L.wire link.old ≢ None
        → EndsWell result (Rose (L.faults link.old) (L.faults link.new)) (Rose (T.faults store.old) (T.faults store.new)) }

    // There are no more calls of `get` than the turns of the bytes read take, whatever the folder holds.
    ensures gets { (files : Files) → T.files store.old ≡ Some files
        → StepsBy (GetsForRead files (T.gets store.old) (T.gets store.new)) (L.wire link.old) (L.wire link.new) }
    ensures any_moment { Moves T.files T.may_leave T.moment T.image_since SameFiles store.old store.new }
{
    let mut session = Session::new(alloc);
    let mut piece = [0; PIECE];
    loop {
        if let Some(end) = step(&mut session, link, store, &mut piece) {
            return end;
        }
    }
}

// Does what the session wants. Returns its end if it wants nothing more.
fn step<L: Link, T: Store>(
    session: &mut Session,
    link: &mut L,
    store: &mut T,
    piece: &mut [u8],
) -> Option<End>
    requires { 0 < length piece.old }
    ensures converses { (files : Files) → T.files store.old ≡ Some files → (served : Served) → IsSentOf files served
        → (before : ℕ) → before ≤ T.faults store.old
        → StepsBy (GoesOn served (Rose before (T.faults store.old)) (Rose before (T.faults store.new)) session.old session.new)
        (L.wire link.old) (L.wire link.new) }
    ensures gets { (files : Files) → T.files store.old ≡ Some files → (first : ℕ)
        → StepsBy (GetsOn files first (T.gets store.old) (T.gets store.new) session.old session.new)
        (L.wire link.old) (L.wire link.new) }
    ensures end { IfSome result (λ ends. want_of session.new ≡ Want.End ends) }
    ensures falls { IfNone result (rank session.new < rank session.old) }
    ensures links { HasCauseFor Fault.Link session.old session.new (L.faults link.old) (L.faults link.new) }
    ensures stores { HasCauseFor Fault.Store session.old session.new (T.faults store.old) (T.faults store.new) }
    ensures plans { (files : Files) → T.files store.old ≡ Some files → HasPlanOf files session.old.hand → HasPlanOf files session.new.hand }
    ensures damaged { (file : QueryFile) → session.new.fault ≡ Some (Fault.Damaged file)
        → (session.old.fault ≡ Some (Fault.Damaged file)) ⊎ Tells (IsDamagedIn session.old.hand file) (T.files store.old) }
    ensures any_moment { Moves T.files T.may_leave T.moment T.image_since SameFiles store.old store.new }
    ensures room { length piece.new ≡ length piece.old }
{
    match session.want() {
        Want::Read => {
            read_piece(session, link, piece);
            None
        }
        Want::Work => {
            session.work(store);
            None
        }
        Want::Write => {
            write_out(session, link);
            None
        }
        Want::End(end) => Some(end),
    }
}

// Reads a piece, and feeds it to the session.
fn read_piece<L: Link>(session: &mut Session, link: &mut L, piece: &mut [u8])
    requires wanted { want_of session.old ≡ Want.Read }
    requires room { 0 < length piece.old }
    ensures converses { (served : Served) (before after : ℕ)
        → StepsBy (GoesOn served (Rose before after) (Rose before after) session.old session.new)
        (L.wire link.old) (L.wire link.new) }
    ensures gets { (files : Files) (first now : ℕ)
        → StepsBy (GetsOn files first now now session.old session.new) (L.wire link.old) (L.wire link.new) }
    ensures falls { rank session.new < rank session.old }
    ensures links { HasCauseFor Fault.Link session.old session.new (L.faults link.old) (L.faults link.new) }
    ensures no_store { session.new.fault ≢ Some Fault.Store }
    ensures undamaged { (file : QueryFile) → session.new.fault ≢ Some (Fault.Damaged file) }
    ensures hand { (session.new.hand ≡ session.old.hand) ⊎ (session.new.hand ≡ Empty) }
    ensures room { length piece.new ≡ length piece.old }
{
    match link.read(piece) {
        Ok(count) => session.feed(&piece[..count]),
        Err(Failed) => session.fault(),
    }
}

// Writes all bytes that are to be sent.
fn write_out<L: Link>(session: &mut Session, link: &mut L)
    requires { want_of session.old ≡ Want.Write }
    ensures converses { (served : Served) (before after : ℕ)
        → StepsBy (GoesOn served (Rose before after) (Rose before after) session.old session.new)
        (L.wire link.old) (L.wire link.new) }
    ensures gets { (files : Files) (first now : ℕ)
        → StepsBy (GetsOn files first now now session.old session.new) (L.wire link.old) (L.wire link.new) }
    ensures state { (session.new ≡ record session.old { out = [] })
        ⊎ (HasFailed session.old session.new × Rose (L.faults link.old) (L.faults link.new)) }
    ensures later { L.faults link.old ≤ L.faults link.new }
{
    while let Want::Write = session.want() {
        write_some(session, link);
    }
}

// Passes the bytes to be sent to the link, and notes how many the link took.
fn write_some<L: Link>(session: &mut Session, link: &mut L)
    requires { want_of session.old ≡ Want.Write }
    ensures converses { (served : Served) (before after : ℕ)
        → StepsBy (GoesOn served (Rose before after) (Rose before after) session.old session.new)
        (L.wire link.old) (L.wire link.new) }
    ensures gets { (files : Files) (first now : ℕ)
        → StepsBy (GetsOn files first now now session.old session.new) (L.wire link.old) (L.wire link.new) }
    ensures state { ((count : ℕ) × (0 < count) × (session.new ≡ record session.old { out = drop count session.old.out }))
        ⊎ (HasFailed session.old session.new × Rose (L.faults link.old) (L.faults link.new)) }
    ensures later { L.faults link.old ≤ L.faults link.new }
{
    match link.write(session.out()) {
        Ok(count) => session.sent(count),
        Err(Failed) => session.fault(),
    }
}
