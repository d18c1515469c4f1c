//! One connection as a state machine: what it wants, what it is fed, and what it outputs.

ghost use Rattle.std.specs.Prelude.{◌≡◌, ◌≢◌, ◌⊎◌, ◌≤◌, ◌<◌, ◌+◌, ◌%◌, ◌++◌, ◌||◌, [], Some, None, IsTrue, true, drop, length, IfSome, option_map};
ghost use Rattle.ept_base.specs.Causes.{Rose};
ghost use Rattle.ept_base.specs.Files.{Files, SameFiles, Tells};
ghost use Rattle.ept_base.specs.Moves.{Moves};
ghost use Rattle.ept_http.specs.Answers.{MayBeAsked};
ghost use Rattle.ept_http.specs.QueryWords.{IsOrdered};
ghost use Rattle.ept_http.specs.AnswerHead.{is_refusal, head_text};
ghost use Rattle.ept_query.specs.declared.query_error.QueryFile.{QueryFile};
ghost use Rattle.ept_query.specs.Planning.{GetsFiles};
ghost use Rattle.ept_point.specs.Dimensions.{packed_width};
ghost use Rattle.ept_conn.specs.Held.{has_turn};
ghost use Rattle.ept_conn.specs.Wanted.{Wants, kept_of};
ghost use Rattle.ept_conn.specs.Answers.{Served, refusal, file_answer, is_json, chunk};
ghost use Rattle.ept_conn.specs.Served.{IsSentOf};
ghost use Rattle.ept_conn.specs.State.{started, want_of, wants_on, feeds};
ghost use Rattle.ept_conn.specs.Works.{IsTurnsPlan, IsPlanned, HasPlanOf, HasNoTiles, Decides, hand_to, out_to, hand_at, end_at, Begins, IsReady, Works, WorksOn, IsBegun, IsOneStep, GetsFor, GetsIn, Stops, IsLastWord, IsDamagedFor, IsDamagedIn, IsUndamagedFor, IsUndamagedIn};
ghost use Rattle.ept_conn.specs.Whole.{HasFound, HasPlanIfOpen};

use crate::conn::Conn;
use crate::end::{End, Fault, Want};
use crate::folder::{content_of, is_json};
use crate::hand::Hand;
use crate::keeping::kept_of;
use crate::out::Out;
use crate::queries::{fault_of, plan_of};
use crate::turn::Turn;
use ept_base::Store;
use ept_http::{Asked, HeadKind};
use ept_point::{Memory, Text, tile_length_law};
use ept_query::{QueryPlan, query_tile};
use ept_space::Box3;
use std::alloc::Global;
use std::marker::Model;
use std::mem;

/// One connection. Contracts see the bytes that no turn has taken, whether the input has ended, the turn in hand and
/// the bytes to be sent. They also see why the session ends early, if it does.
#[derive(Debug, Drop)]
pub struct Session {
    conn: Conn,
    closed: bool,
    hand: Hand,
    out: Out,
    fault: Option<Fault>,
}

impl Model for Session {
    ghost use Rattle.ept_conn.specs.State.{State, IsFit};

    ghost Value = { State };

    ghost view = { λ s. record { held = s.conn; closed = s.closed; hand = s.hand; out = s.out; fault = s.fault } };

    ghost invariant = { λ s. IsFit s.hand };
}

impl Session {
    /// A session that was fed nothing. It wants to read, and takes no memory.
    pub fn new(alloc: Global) -> Session
        ensures { result ≡ started }
    {
        Session {
            conn: Conn::new(alloc),
            closed: false,
            hand: Hand::Empty,
            out: Out::new(alloc),
            fault: None,
        }
    }

    /// What the session wants.
    #[tactic(auto, unfolding(crate::specs::State::want_of))]
    pub fn want(&self) -> Want
        ensures { result ≡ want_of self.now }
    {
        if !self.out.is_empty() {
            return Want::Write;
        }
        match self.fault {
            Some(fault) => Want::End(fault.end()),
            None => self.want_on(),
        }
    }

    /// Feeds bytes that came. An empty piece is the end of the input. If memory runs out, the session ends.
    pub fn feed(&mut self, piece: &[u8])
        requires { want_of self.old ≡ Want.Read }
        ensures { (self.new ≡ feeds self.old piece.now) ⊎ (self.new ≡ record self.old { fault = Some Fault.Memory }) }
    {
        if piece.is_empty() {
            self.closed = true;
        } else if self.conn.feed(piece).is_err() {
            self.fault = Some(Fault::Memory);
        }
    }

    /// Does one piece of work: decides one turn, makes the plan of one query or selection, or gets one file or one
    /// tile.
    ///
    /// If the work is refused, the session ends. It does so with status 503 if the cause is the store or a damaged
    /// file, and with 507 if it is memory. No status is sent if a part of the response was output before, or if there
    /// is no memory for the status.
    pub fn work<T: Store>(&mut self, store: &mut T)
        requires { want_of self.old ≡ Want.Work }
        ensures works { self.new.fault ≡ None → (files : Files) → T.files store.old ≡ Some files
            → (served : Served) → IsSentOf files served → IsPlanned served self.old.hand → Works served self.old self.new }
        ensures one_step { self.new.fault ≡ None → IsOneStep self.old.hand self.old self.new }
        ensures found { self.new.fault ≡ None → (files : Files) → T.files store.old ≡ Some files → HasFound files self.old.hand self.new }
        ensures gets { GetsIn self.old.hand (T.gets store.old) (T.gets store.new) (T.files store.old) }
        ensures plans { (files : Files) → T.files store.old ≡ Some files → HasPlanOf files self.old.hand → HasPlanOf files self.new.hand }
        ensures closed { self.new.closed ≡ self.old.closed }
        ensures stops { IfSome self.new.fault (Stops self.old.hand self.new) }
        ensures damaged { (file : QueryFile) → self.new.fault ≡ Some (Fault.Damaged file)
            → Tells (IsDamagedIn self.old.hand file) (T.files store.old) }
        ensures undamaged { self.new.fault ≡ None → (files : Files) → T.files store.old ≡ Some files → IsUndamagedIn self.old.hand files }
        ensures stores { self.new.fault ≡ Some Fault.Store → Rose (T.faults store.old) (T.faults store.new) }
        ensures later { T.faults store.old ≤ T.faults store.new }
        ensures any_moment { Moves T.files T.may_leave T.moment T.image_since SameFiles store.old store.new }
    {
        match mem::replace(&mut self.hand, Hand::Empty) {
            Hand::Empty => self.decide(),
            Hand::Decided(turn) => self.get(store, turn),
            Hand::Tiles { turn, plan, done } => self.get_tile(store, turn, plan, done),
        }
    }

    /// The bytes to be sent now.
    pub fn out(&self) -> &[u8]
        requires { want_of self.now ≡ Want.Write }
        ensures bytes { result.now ≡ self.now.out }
        ensures some { 0 < length result.now }
    {
        self.to_send()
    }

    /// Notes that the first `count` of the bytes to be sent were sent.
    pub fn sent(&mut self, count: usize)
        requires wanted { want_of self.old ≡ Want.Write }
        requires some { 0 < count }
        requires within { count ≤ length self.old.out }
        ensures { self.new ≡ record self.old { out = drop count self.old.out } }
    {
        self.out.send(count);
    }

    /// Notes that the link failed. The session ends.
    pub fn fault(&mut self)
        requires { (want_of self.old ≡ Want.Read) ⊎ (want_of self.old ≡ Want.Write) }
        ensures { self.new ≡ record self.old { hand = Hand.Empty; out = []; fault = Some Fault.Link } }
    {
        self.hand = Hand::Empty;
        self.out.clear();
        self.fault = Some(Fault::Link);
    }
}

impl Session {
    fn alloc(&self) -> Global {
        self.out.allocator()
    }

    // The bytes to be sent now.
    fn to_send(&self) -> &[u8]
        requires { want_of self.now ≡ Want.Write }
        ensures bytes { result.now ≡ self.now.out }
        ensures some { 0 < length result.now }
    {
        self.out.as_slice()
    }

    // What a session wants if no end is fixed and nothing is to be sent.
    fn want_on(&self) -> Want
        ensures { result ≡ wants_on self.now.hand (has_turn self.now.held) (self.now.closed || self.now.held.ended) }
    {
        match self.hand {
            Hand::Decided(_) | Hand::Tiles { .. } => Want::Work,
            Hand::Empty if self.conn.has_turn() => Want::Work,
            Hand::Empty if self.closed || self.conn.is_ended() => Want::End(End::Closed),
            Hand::Empty => Want::Read,
        }
    }

    // Decides the turn that is due.
    fn decide(&mut self)
        requires ready { IsReady self.old }
        requires due { has_turn self.old.held ≡ true }
        ensures decides { self.new.fault ≡ None → Decides self.old self.new }
        ensures no_tiles { HasNoTiles self.new.hand }
        ensures closed { self.new.closed ≡ self.old.closed }
        ensures stops { IfSome self.new.fault (Stops Hand.Empty self.new) }
        ensures only { IfSome self.new.fault (λ cause. cause ≡ Fault.Memory) }
    {
        match self.conn.next() {
            Ok(Some(turn)) => self.take_up(turn),
            Ok(None) => {}
            Err(Memory) => self.stop_for_memory(),
        }
    }

    // Puts a refusal into the output, and takes any other turn in hand.
    fn take_up(&mut self, turn: Turn)
        requires ready { IsReady self.old }
        requires fit { MayBeAsked turn.asked }
        ensures out { self.new.fault ≡ None → self.new.out ≡ out_to turn.asked turn.last }
        ensures hand { self.new.fault ≡ None → self.new.hand ≡ hand_to turn.asked turn }
        ensures no_tiles { HasNoTiles self.new.hand }
        ensures same { (self.new.held ≡ self.old.held) × (self.new.closed ≡ self.old.closed) }
        ensures stops { IfSome self.new.fault (Stops Hand.Empty self.new) }
        ensures only { IfSome self.new.fault (λ cause. cause ≡ Fault.Memory) }
    {
        match turn.asked {
            Asked::Refuse(status) => self.refuse(status, turn.last),
            _ => self.hand = Hand::Decided(turn),
        }
    }

    // Puts the head of a refusal with this status into the output.
    fn refuse(&mut self, status: u16, last: bool)
        requires ready { IsReady self.old }
        requires status { IsTrue (is_refusal status) }
        ensures out { self.new.fault ≡ None → self.new.out ≡ refusal status last }
        ensures hand { self.new.hand ≡ Hand.Empty }
        ensures same { (self.new.held ≡ self.old.held) × (self.new.closed ≡ self.old.closed) }
        ensures words { IfSome self.new.fault (λ cause. IsLastWord cause self.new.out) }
        ensures only { IfSome self.new.fault (λ cause. cause ≡ Fault.Memory) }
    {
        if self
            .out
            .put_head(&HeadKind::Refusal { status, last })
            .is_err()
        {
            self.stop_for_memory();
        }
    }

    // Gets what the turn asks for.
    fn get<T: Store>(&mut self, store: &mut T, turn: Turn)
        requires ready { IsReady self.old }
        requires fit { MayBeAsked turn.asked }
        ensures works { self.new.fault ≡ None → (files : Files) → T.files store.old ≡ Some files
            → (served : Served) → IsSentOf files served → WorksOn served (Hand.Decided turn) self.old self.new }
        ensures one_step { self.new.fault ≡ None → IsOneStep (Hand.Decided turn) self.old self.new }
        ensures found { self.new.fault ≡ None → (files : Files) → T.files store.old ≡ Some files → HasFound files (Hand.Decided turn) self.new }
        ensures gets { GetsFor turn.asked (T.gets store.old) (T.gets store.new) (T.files store.old) }
        ensures plans { (files : Files) → T.files store.old ≡ Some files → HasPlanOf files self.new.hand }
        ensures closed { self.new.closed ≡ self.old.closed }
        ensures stops { IfSome self.new.fault (Stops (Hand.Decided turn) self.new) }
        ensures damaged { (file : QueryFile) → self.new.fault ≡ Some (Fault.Damaged file)
            → Tells (IsDamagedIn (Hand.Decided turn) file) (T.files store.old) }
        ensures undamaged { self.new.fault ≡ None → (files : Files) → T.files store.old ≡ Some files → IsUndamagedIn (Hand.Decided turn) files }
        ensures stores { self.new.fault ≡ Some Fault.Store → Rose (T.faults store.old) (T.faults store.new) }
        ensures later { T.faults store.old ≤ T.faults store.new }
        ensures any_moment { Moves T.files T.may_leave T.moment T.image_since SameFiles store.old store.new }
    {
        match &turn.asked {
            Asked::File(name) => self.get_file(store, name, turn.last),
            Asked::Query(area, first, second) => {
                let (area, depths) = (*area, (*first, *second));
                self.make_plan(store, turn, &area, depths);
            }
            Asked::Select(area, first, second, _) => {
                let (area, depths) = (*area, (*first, *second));
                self.make_plan(store, turn, &area, depths);
            }
            Asked::Refuse(status) => self.refuse(*status, turn.last),
        }
    }

    // Gets a file, and puts the response with it into the output.
    fn get_file<T: Store>(&mut self, store: &mut T, name: &Text, last: bool)
        requires ready { IsReady self.old }
        ensures out { self.new.fault ≡ None → (files : Files) → T.files store.old ≡ Some files
            → (served : Served) → IsSentOf files served
            → self.new.out ≡ file_answer (is_json name.now) last (served.file name.now) }
        ensures hand { self.new.hand ≡ Hand.Empty }
        ensures same { (self.new.held ≡ self.old.held) × (self.new.closed ≡ self.old.closed) }
        ensures words { IfSome self.new.fault (λ cause. IsLastWord cause self.new.out) }
        ensures only { IfSome self.new.fault (λ cause. (cause ≡ Fault.Store) ⊎ (cause ≡ Fault.Memory)) }
        ensures gets { T.gets store.new ≤ T.gets store.old + 2 }
        ensures stores { self.new.fault ≡ Some Fault.Store → Rose (T.faults store.old) (T.faults store.new) }
        ensures later { T.faults store.old ≤ T.faults store.new }
        ensures any_moment { Moves T.files T.may_leave T.moment T.image_since SameFiles store.old store.new }
    {
        let json = is_json(name.as_str());
        match content_of(self.alloc(), store, name.as_str()) {
            Ok(content) => self.put_file(json, last, &content),
            Err(fault) => self.stop(fault),
        }
    }

    // Puts the response with a file into the output, or status 404 if there is no file.
    fn put_file(&mut self, json: bool, last: bool, content: &Option<Vec<u8>>)
        requires ready { IsReady self.old }
        ensures out { self.new.fault ≡ None → self.new.out ≡ file_answer json last (option_map (λ bytes. bytes.items) content.now) }
        ensures hand { self.new.hand ≡ Hand.Empty }
        ensures same { (self.new.held ≡ self.old.held) × (self.new.closed ≡ self.old.closed) }
        ensures words { IfSome self.new.fault (λ cause. IsLastWord cause self.new.out) }
        ensures only { IfSome self.new.fault (λ cause. cause ≡ Fault.Memory) }
    {
        if self.out.put_file(json, last, content).is_err() {
            self.stop_for_memory();
        }
    }

    // Makes the plan of the points that the turn asks for, and puts the head of the response into the output.
    fn make_plan<T: Store>(&mut self, store: &mut T, turn: Turn, area: &Box3, depths: (u8, u8))
        requires ready { IsReady self.old }
        requires wanted { Wants turn.asked area.now depths.0 depths.1 }
        requires ordered { IsOrdered area.now }
        requires depths { depths.0 ≤ depths.1 }
        ensures begins { self.new.fault ≡ None → (files : Files) → T.files store.old ≡ Some files
            → (served : Served) → IsSentOf files served
            → Begins turn area.now (served.plan area.now depths.0 depths.1) self.new }
        ensures begun { self.new.fault ≡ None → IsBegun turn self.new.hand }
        ensures found { self.new.fault ≡ None → (files : Files) → T.files store.old ≡ Some files
            → HasPlanIfOpen files turn (Some (record { area = area.now; first = depths.0; second = depths.1 })) self.new }
        ensures gets { Tells (GetsFiles area.now depths.0 depths.1 (T.gets store.old) (T.gets store.new)) (T.files store.old) }
        ensures plans { (files : Files) → T.files store.old ≡ Some files → HasPlanOf files self.new.hand }
        ensures same { (self.new.held ≡ self.old.held) × (self.new.closed ≡ self.old.closed) }
        ensures stops { IfSome self.new.fault (Stops (Hand.Decided turn) self.new) }
        ensures damaged { (file : QueryFile) → self.new.fault ≡ Some (Fault.Damaged file)
            → Tells (IsDamagedFor turn.asked file) (T.files store.old) }
        ensures undamaged { self.new.fault ≡ None → (files : Files) → T.files store.old ≡ Some files → IsUndamagedFor turn.asked files }
        ensures stores { self.new.fault ≡ Some Fault.Store → Rose (T.faults store.old) (T.faults store.new) }
        ensures later { T.faults store.old ≤ T.faults store.new }
        ensures any_moment { Moves T.files T.may_leave T.moment T.image_since SameFiles store.old store.new }
    {
        match plan_of(self.alloc(), store, area, depths) {
            Ok(Some(plan)) => self.begin(turn, plan),
            Ok(None) => self.refuse(404, turn.last),
            Err(fault) => self.stop(fault),
        }
    }

    // Puts the head of the response into the output and, if the plan has no tile, the last chunk.
    fn begin(&mut self, turn: Turn, plan: QueryPlan)
        requires ready { IsReady self.old }
        ensures out { self.new.fault ≡ None → self.new.out ≡ head_text (HeadKind.Query turn.last) ++ end_at plan 0 }
        ensures hand { self.new.fault ≡ None → self.new.hand ≡ hand_at turn plan 0 }
        ensures either { (self.new.hand ≡ Hand.Empty) ⊎ (self.new.hand ≡ Hand.Tiles turn plan 0) }
        ensures begun { self.new.fault ≡ None → IsBegun turn self.new.hand }
        ensures same { (self.new.held ≡ self.old.held) × (self.new.closed ≡ self.old.closed) }
        ensures stops { IfSome self.new.fault (Stops (Hand.Decided turn) self.new) }
        ensures only { IfSome self.new.fault (λ cause. cause ≡ Fault.Memory) }
    {
        let is_empty = plan.len() == 0;
        match self.out.put_query(turn.last, is_empty) {
            Ok(()) if is_empty => {}
            Ok(()) => self.hand = Hand::Tiles {
                turn,
                plan,
                done: 0,
            },
            Err(Memory) => self.stop_for_memory(),
        }
    }

    // Gets one tile of a plan, and puts its chunk into the output. The last chunk follows the last tile.
    fn get_tile<T: Store>(&mut self, store: &mut T, turn: Turn, plan: QueryPlan, done: usize)
        requires ready { IsReady self.old }
        requires within { done < length plan.tiles }
        ensures works { self.new.fault ≡ None → (files : Files) → T.files store.old ≡ Some files
            → (served : Served) → IsSentOf files served → IsTurnsPlan served turn plan
            → WorksOn served (Hand.Tiles turn plan done) self.old self.new }
        ensures one_step { self.new.fault ≡ None → IsOneStep (Hand.Tiles turn plan done) self.old self.new }
        ensures found { self.new.fault ≡ None → (files : Files) → T.files store.old ≡ Some files → HasFound files (Hand.Tiles turn plan done) self.new }
        ensures gets { (done < length plan.tiles) × (T.gets store.new ≤ T.gets store.old + 1) }
        ensures either { (self.new.hand ≡ Hand.Empty) ⊎ (self.new.hand ≡ Hand.Tiles turn plan (done + 1)) }
        ensures closed { self.new.closed ≡ self.old.closed }
        ensures stops { IfSome self.new.fault (Stops (Hand.Tiles turn plan done) self.new) }
        ensures damaged { (file : QueryFile) → self.new.fault ≡ Some (Fault.Damaged file)
            → Tells (IsDamagedIn (Hand.Tiles turn plan done) file) (T.files store.old) }
        ensures undamaged { self.new.fault ≡ None → (files : Files) → T.files store.old ≡ Some files → IsUndamagedIn (Hand.Tiles turn plan done) files }
        ensures stores { self.new.fault ≡ Some Fault.Store → Rose (T.faults store.old) (T.faults store.new) }
        ensures later { T.faults store.old ≤ T.faults store.new }
        ensures any_moment { Moves T.files T.may_leave T.moment T.image_since SameFiles store.old store.new }
    {
        tile_length_law();
        let mut points = Vec::new(self.alloc());
        match query_tile(self.alloc(), store, &plan, done, &mut points) {
            Ok(_) => self.put_kept(turn, plan, done, points),
            Err(error) => self.break_off(fault_of(error)),
        }
    }

    // Puts what is kept of the points of one tile into the output as a chunk. The last chunk follows the last tile.
    fn put_kept(&mut self, turn: Turn, plan: QueryPlan, done: usize, points: Vec<u8>)
        requires ready { IsReady self.old }
        requires within { done < length plan.tiles }
        requires whole { length points.items % packed_width ≡ 0 }
        ensures out { self.new.fault ≡ None → self.new.out ≡ chunk (kept_of turn.asked points.items) ++ end_at plan (done + 1) }
        ensures hand { self.new.fault ≡ None → self.new.hand ≡ hand_at turn plan (done + 1) }
        ensures either { (self.new.hand ≡ Hand.Empty) ⊎ (self.new.hand ≡ Hand.Tiles turn plan (done + 1)) }
        ensures same { (self.new.held ≡ self.old.held) × (self.new.closed ≡ self.old.closed) }
        ensures stops { IfSome self.new.fault (Stops (Hand.Tiles turn plan done) self.new) }
        ensures only { IfSome self.new.fault (λ cause. cause ≡ Fault.Memory) }
    {
        match kept_of(&turn.asked, points) {
            Ok(kept) => self.put_tile(turn, plan, done, &kept),
            Err(Memory) => self.break_off(Fault::Memory),
        }
    }

    // Puts the chunk of one tile into the output. The last chunk follows the last tile.
    fn put_tile(&mut self, turn: Turn, plan: QueryPlan, done: usize, points: &[u8])
        requires ready { IsReady self.old }
        requires within { done < length plan.tiles }
        ensures out { self.new.fault ≡ None → self.new.out ≡ chunk points.now ++ end_at plan (done + 1) }
        ensures hand { self.new.fault ≡ None → self.new.hand ≡ hand_at turn plan (done + 1) }
        ensures either { (self.new.hand ≡ Hand.Empty) ⊎ (self.new.hand ≡ Hand.Tiles turn plan (done + 1)) }
        ensures same { (self.new.held ≡ self.old.held) × (self.new.closed ≡ self.old.closed) }
        ensures stops { IfSome self.new.fault (Stops (Hand.Tiles turn plan done) self.new) }
        ensures only { IfSome self.new.fault (λ cause. cause ≡ Fault.Memory) }
    {
        let done = done + 1;
        let is_last = done == plan.len();
        match self.out.put_tile(points, is_last) {
            Ok(()) if is_last => {}
            Ok(()) => self.hand = Hand::Tiles { turn, plan, done },
            Err(Memory) => self.break_off(Fault::Memory),
        }
    }

    // Ends the session for this cause, with its status. If there is no memory for the status, memory is the cause.
    fn stop(&mut self, fault: Fault)
        requires { fault ≢ Fault.Link }
        ensures words { IfSome self.new.fault (λ cause. IsLastWord cause self.new.out) }
        ensures ends { self.new.fault ≢ None }
        ensures cause { (cause : Fault) → self.new.fault ≡ Some cause → (cause ≡ fault) ⊎ (cause ≡ Fault.Memory) }
        ensures same { self.new ≡ record self.old { out = self.new.out; fault = self.new.fault } }
    {
        let status = fault.last_status();
        match self.out.put_last_word(status) {
            Ok(()) => self.fault = Some(fault),
            Err(Memory) => self.fault = Some(Fault::Memory),
        }
    }

    // Ends the session because memory ran out, with status 507 if there is memory for it.
    fn stop_for_memory(&mut self)
        ensures words { IsLastWord Fault.Memory self.new.out }
        ensures same { self.new ≡ record self.old { out = self.new.out; fault = Some Fault.Memory } }
    {
        let _ = self.out.put_last_word(507);
        self.fault = Some(Fault::Memory);
    }

    // Ends the session in the middle of a response.
    fn break_off(&mut self, fault: Fault)
        ensures { self.new ≡ record self.old { out = []; fault = Some fault } }
    {
        self.out.clear();
        self.fault = Some(fault);
    }
}
