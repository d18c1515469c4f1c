//! What holds for every list of calls. Each law is the contract of a function that does nothing.

ghost use Rattle.ept_conn.specs.Served.{DecidedIsSent, ServedIsSent, ShutIsServed, CompleteIsServed, QueriesAreAnswered, SelectionsAreAnswered};
ghost use Rattle.ept_conn.specs.SessionCalls.{SendsAnswers, EndsSo, ReadsAnswered, WorksUnanswered, OwesTheRest};
ghost use Rattle.ept_conn.specs.Calls.{HoweverCut, AllAreGiven, TurnsAreThere, TurnsAreOne, JudgeGivesTurns, NextIsGiven, TurnsMayBeAsked};

use ept_filter::sift_law;
use ept_query::complete_law;

/// After any list of calls, the turns returned are, in order, the first turns of all the bytes fed. How these were cut
/// into pieces makes no difference. If no turn is due any more, they are all the turns.
pub fn turns_however_cut_law()
    ensures cut { HoweverCut }
    ensures all { AllAreGiven }
{}

/// Bytes have exactly one list of turns, and it is the list that any judge of heads gives. A turn asks only for what
/// may be asked for.
pub fn one_list_of_turns_law()
    ensures there { TurnsAreThere }
    ensures one { TurnsAreOne }
    ensures judged { JudgeGivesTurns }
    ensures next { NextIsGiven }
    ensures may_be_asked { TurnsMayBeAsked }
{}

/// For any list of calls of a session on one folder: What was sent and is to be sent now is what may be sent for the
/// bytes fed. It is the responses to their turns, in order, as far as the session has come. If the session is at its
/// end, it is what is sent at that end.
///
/// What is sent of a folder exists if it is decided which plans and tiles the folder has. It also exists if the done
/// gate is not open, and if the folder is complete. For a complete folder, what is sent of a query's tiles is exactly
/// the points of its box in nodes of its depths. What is sent of a selection's tiles is exactly what it keeps of these
/// points. Tiles are sent one after another.
pub fn session_law()
    ensures sends { SendsAnswers }
    ensures ends { EndsSo }
    ensures reads { ReadsAnswered }
    ensures works { WorksUnanswered }
    ensures owes { OwesTheRest }
    ensures sent { ServedIsSent }
    ensures decided { DecidedIsSent }
    ensures shut { ShutIsServed }
    ensures complete { CompleteIsServed }
    ensures queries { QueriesAreAnswered }
    ensures selections { SelectionsAreAnswered }
{
    complete_law();
    sift_law();
}
