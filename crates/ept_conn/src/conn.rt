//! The bytes of a connection, cut into heads.

ghost use Rattle.std.specs.Prelude.{◌≡◌, ◌≤◌, ◌+◌, ◌↔◌, IsTrue, true, false, Some, None, IfOk, OnOk, OnErr, IfSome, IfNone, Err, is_some, length, take};
ghost use Rattle.ept_conn.specs.HeadEnd.{Whole, Long, front, head_end};
ghost use Rattle.ept_conn.specs.Held.{fresh, fed, has_turn};
ghost use Rattle.ept_conn.specs.Turns.{IsNext, IsIdle};

use crate::head::{drop_front, find_end, first};
use crate::turn::Turn;
use ept_http::{Asked, read_request};
use ept_point::Memory;
use std::alloc::{AllocError, Global};
use std::marker::Model;

/// The most bytes that are searched for the end of a head.
const MAX_HEAD: usize = 8192;

/// The most turns of a connection.
const MAX_TURNS: u32 = 65_536;

/// Why `feed` refuses bytes.
#[derive(Clone, Copy, Debug, PartialEq, Eq)]
pub enum ConnError {
    /// The last turn was returned.
    Closed,
    /// Memory ran out.
    Memory,
}

impl From<AllocError> for ConnError {
    ghost use Rattle.ept_conn.specs.declared.conn.ConnError.TheVariants.{Memory};

    ghost from_gives = { λ _ e. e ≡ Memory };

    fn from(_error: AllocError) -> ConnError {
        ConnError::Memory
    }
}

/// The bytes of a connection that no turn has taken yet. Contracts see these bytes, the number of turns returned, and
/// whether the last turn was.
#[derive(Debug, Drop)]
pub struct Conn {
    bytes: Vec<u8>,
    // The number of first bytes that are known to hold no end of a head.
    searched: usize,
    given: u32,
    ended: bool,
}

impl Model for Conn {
    ghost use Rattle.ept_conn.specs.Held.{Held, IsSearched};

    ghost Value = { Held };

    ghost view = { λ c. record { bytes = c.bytes.items; given = c.given; ended = c.ended } };

    ghost invariant = { λ c. IsSearched c.bytes.items c.searched c.given c.ended };
}

impl Conn {
    /// A connection that holds nothing and has returned no turn. It takes no memory.
    pub fn new(alloc: Global) -> Conn
        ensures { result ≡ fresh }
    {
        Conn {
            bytes: Vec::new(alloc),
            searched: 0,
            given: 0,
            ended: false,
        }
    }

    /// Appends bytes to those held.
    ///
    /// # Errors
    ///
    /// `Closed` if the last turn was returned, and `Memory` if memory runs out. Nothing has changed then.
    pub fn feed(&mut self, piece: &[u8]) -> Result<(), ConnError>
        ensures ok { OnOk result (self.new ≡ fed self.old piece.now) }
        ensures refused { result ≡ Err ConnError.Closed → self.old.ended ≡ true }
        ensures refusal_comes { self.old.ended ≡ true → result ≡ Err ConnError.Closed }
        ensures unchanged { OnErr result (self.new ≡ self.old) }
    {
        if self.ended {
            return Err(ConnError::Closed);
        }
        self.bytes.extend_from_slice(piece)?;
        self.find_head();
        Ok(())
    }

    /// Whether the last turn was returned.
    pub fn is_ended(&self) -> bool
        ensures { result ≡ self.now.ended }
    {
        self.ended
    }

    /// Whether `next` has a turn to return, unless memory runs out.
    #[tactic(auto, unfolding(crate::specs::Held::has_turn))]
    pub fn has_turn(&self) -> bool
        ensures { result ≡ has_turn self.now }
    {
        !self.ended && (self.is_full() || self.head_is_there())
    }

    // Whether a head ends in the first 8,192 bytes held.
    fn head_is_there(&self) -> bool
        ensures { result ≡ is_some (head_end (take 8192 self.now.bytes)) }
    {
        find_end(first(&self.bytes, MAX_HEAD), self.searched).is_some()
    }

    /// Returns the next turn, which is what the head at the start of the bytes held asks for. If no head ends in the
    /// first 8,192 bytes, it is status 431. Returns no turn if fewer bytes are held and no head ends in them, or if the
    /// last turn was returned before.
    ///
    /// # Errors
    ///
    /// Memory ran out for the name of a file. Nothing has changed then.
    pub fn next(&mut self) -> Result<Option<Turn>, Memory>
        ensures some { IfOk result (λ given. IfSome given (λ turn. IsNext self.old turn self.new)) }
        ensures none { IfOk result (λ given. IfNone given (IsIdle self.old × (self.new ≡ self.old))) }
        ensures unchanged { OnErr result (self.new ≡ self.old) }
    {
        if self.ended {
            return Ok(None);
        }
        match self.find_head() {
            Some(len) => Ok(Some(self.answer(len)?)),
            None if self.is_full() => Ok(Some(self.refuse())),
            None => Ok(None),
        }
    }

    // The turn of a whole head.
    fn answer(&mut self, len: usize) -> Result<Turn, Memory>
        requires going { self.old.ended ≡ false }
        requires head { front self.old.bytes ≡ Whole len }
        requires within { len ≤ length self.old.bytes }
        ensures ok { IfOk result (λ turn. IsNext self.old turn self.new) }
        ensures unchanged { OnErr result (self.new ≡ self.old) }
    {
        let (asked, closes) = read_request(*self.bytes.allocator(), &self.bytes[..len])?;
        let last = closes || self.given + 1 == MAX_TURNS;
        self.given += 1;
        if last {
            self.ended = true;
        } else {
            drop_front(&mut self.bytes, len);
            self.searched = 0;
        }
        Ok(Turn { asked, last })
    }

    // The turn of bytes in which no head ends within the limit.
    fn refuse(&mut self) -> Turn
        requires going { self.old.ended ≡ false }
        requires long { front self.old.bytes ≡ Long }
        ensures { IsNext self.old result self.new }
    {
        self.given += 1;
        self.ended = true;
        Turn {
            asked: Asked::Refuse(431),
            last: true,
        }
    }

    // Whether at least 8,192 bytes are held.
    fn is_full(&self) -> bool
        ensures { IsTrue result ↔ (8192 ≤ length self.now.bytes) }
    {
        self.bytes.len() >= MAX_HEAD
    }

    // Finds the end of the first head in the first 8,192 bytes held.
    fn find_head(&mut self) -> Option<usize>
        ensures value { result ≡ head_end (take 8192 self.old.bytes) }
        ensures same { self.new ≡ self.old }
    {
        let window = first(self.bytes.as_slice(), MAX_HEAD);
        let end = find_end(window, self.searched);
        if end.is_none() {
            self.searched = window.len();
        }
        end
    }
}
