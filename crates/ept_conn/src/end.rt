//! How a connection ends, and what it wants until then.

ghost use Rattle.std.specs.Prelude.{◌≡◌, IsTrue};
ghost use Rattle.ept_http.specs.AnswerHead.{is_refusal};
ghost use Rattle.ept_conn.specs.State.{end_of};
ghost use Rattle.ept_conn.specs.Works.{last_status};

use ept_query::QueryFile;

/// Why a session ends early: before the input has ended, and before the last turn has its response.
#[derive(Clone, Copy, Debug, PartialEq, Eq)]
pub enum Fault {
    /// The link failed.
    Link,
    /// The store failed.
    Store,
    /// A file that a query needs is missing or malformed.
    Damaged { file: QueryFile },
    /// Memory ran out.
    Memory,
}

/// How a connection ended.
#[derive(Clone, Copy, Debug, PartialEq, Eq)]
pub enum End {
    /// The input has ended, or the last turn has its response.
    Closed,
    /// The link failed: its count of faults rose.
    LinkFault,
    /// The store failed: its count of faults rose.
    StoreFault,
    /// A file that a query needs is missing or malformed.
    Damaged { file: QueryFile },
    /// Memory ran out.
    Memory,
}

/// What a session wants.
#[derive(Clone, Copy, Debug, PartialEq, Eq)]
pub enum Want {
    /// To be fed: bytes that came, or the end of the input.
    Read,
    /// To do one piece of work.
    Work,
    /// That bytes be sent.
    Write,
    /// Nothing more.
    End(End),
}

impl Fault {
    /// The end of a session for this cause.
    pub fn end(self) -> End
        ensures { result ≡ end_of self }
    {
        match self {
            Fault::Link => End::LinkFault,
            Fault::Store => End::StoreFault,
            Fault::Damaged { file } => End::Damaged { file },
            Fault::Memory => End::Memory,
        }
    }

    /// The status with which a session ends for this cause, if nothing of a response was sent.
    pub(crate) fn last_status(&self) -> u16
        ensures status { result ≡ last_status self.now }
        ensures refusal { IsTrue (is_refusal result) }
    {
        match self {
            Fault::Store | Fault::Damaged { .. } => 503,
            Fault::Link | Fault::Memory => 507,
        }
    }
}
