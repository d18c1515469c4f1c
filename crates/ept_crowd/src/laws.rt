//! What holds for every list of calls of a crowd. The law is the contract of a function that does nothing.

ghost use Rattle.ept_crowd.specs.Laws.{EachIsServed, NumbersAscend};

use ept_base::Store;
use ept_poll::{PollLink, polls_law};

/// After any list of calls of a crowd, in any order, each of its connections has been served. Each connection that has
/// ended has been served to its end. The numbers of the live connections ascend.
pub fn crowd_law<L: PollLink, T: Store>()
    ensures served { EachIsServed L.PollLink T.Store }
    ensures numbers { NumbersAscend L.PollLink T.Store }
{
    polls_law();
}
