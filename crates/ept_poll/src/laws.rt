//! What holds for every list of polls. The law is the contract of a function that does nothing.

ghost use Rattle.ept_poll.specs.Runs.{SendsFronts, AnswersAtReads, EndsAsServed, GetsForTurns, StandsOn};

/// After any list of polls of one connection, what has gone out is a prefix of what may be sent for the bytes that
/// came. At its end it is what is sent at that end. There were no more calls of `get` than the turns of the bytes that
/// came take.
pub fn polls_law()
    ensures stands { StandsOn }
    ensures sends { SendsFronts }
    ensures reads { AnswersAtReads }
    ensures ends { EndsAsServed }
    ensures gets { GetsForTurns }
{}
