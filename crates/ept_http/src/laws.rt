//! What holds for every head. Each law is the contract of a function that does nothing.

ghost use Rattle.ept_http.specs.Laws.{TextHasOneBox, TextHasOneRange, TargetAsksOnce, BytesHaveOneAnswer, AnswersMayBeAsked, BytesHaveAnAnswer, ThereIsAJudge};

/// A text spells at most one box, and at most one range of depths.
pub fn query_words_law()
    ensures one_box { TextHasOneBox }
    ensures one_range { TextHasOneRange }
{}

/// Bytes ask for at most one thing, and only for what may be asked for. `judge_law` states that they ask for something.
pub fn one_answer_law()
    ensures one_target { TargetAsksOnce }
    ensures one_answer { BytesHaveOneAnswer }
    ensures may_be_asked { AnswersMayBeAsked }
{}

/// Each list of bytes asks for something. So there is a judge, which gives what any bytes ask for.
pub fn judge_law()
    ensures each { BytesHaveAnAnswer }
    ensures judge { ThereIsAJudge }
{}
