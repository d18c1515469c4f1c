//! How a run ends.

use crate::refusal::{MergeRefusal, Refusal};
use crate::status::OK;
use ept_check::{CheckError, Fault};
use ept_query::QueryError;
use ept_space::Key;

/// How a run ends: its status, and why that is not 0.
#[derive(Drop)]
pub struct Ended {
    /// The status with which the program ends.
    pub status: u8,
    /// Why the status is not 0. `None` if it is 0.
    pub failure: Option<Failure>,
}

/// Why a run does not end with status 0.
#[derive(Drop)]
pub enum Failure {
    /// The words, or the files that they name, are refused.
    Refused(Refusal),
    /// A part of a build is refused, or a merge: the greatest depth is 0, so the root has no octants.
    Shallow,
    /// Parts are not merged, for a cause that no part has.
    MergeRefused(MergeRefusal),
    /// A query is refused, or a selection.
    QueryRefused(QueryError),
    /// A dataset was checked, and this is wrong with the node of this key, the first node that has a fault.
    Unfit { key: Key, why: Fault },
    /// A dataset could not be checked.
    CheckRefused(CheckError),
    /// The command is carried out, and its line could not be written. This is the line, with its line feed.
    LineNotWritten(Vec<u8>),
}

impl Ended {
    ghost use Rattle.std.specs.Prelude.{◌≡◌, None, Some};
    ghost use Rattle.ept_command.specs.Statuses.{status_of};
    ghost use Rattle.ept_command.specs.declared.ended.Failure.TheVariants.{Refused};

    /// A run whose command is carried out.
    pub fn done() -> Self
        ensures status { result.status ≡ 0 }
        ensures failure { result.failure ≡ None }
    {
        Ended {
            status: OK,
            failure: None,
        }
    }

    /// A run that is refused.
    pub fn refused(refusal: &Refusal) -> Self
        ensures status { result.status ≡ status_of refusal.now }
        ensures failure { result.failure ≡ Some (Refused refusal.now) }
    {
        Ended {
            status: refusal.status(),
            failure: Some(Failure::Refused(*refusal)),
        }
    }
}
