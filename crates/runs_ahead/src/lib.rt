//! The one-thread run in which some processes run ahead: it handles each message to such a process when the message is sent, and has fewer
//! messages in its queue. No product code.
#![tactic(auto)]

ghost use Rattle.runs_ahead.specs.Laws.{OfEachAhead, AreSameEvents, AreAnswersEvents, EndsAlike, AreLeft, AreLeftWithin, AreGoodAlike};

/// A one-thread run in which some processes run ahead has the events of the plain one-thread run. Each process that runs ahead receives its
/// messages by a channel, in the message order, from a process that does not; it notes nothing, and it sends to processes that do not run
/// ahead. So it may handle a message when the message is sent.
///
/// - `events`: each event of the run is one of the plain run, in the same state. Between two of them the plain run has only events of
///   processes that run ahead.
/// - `answers`: each message that a process handles ahead is an event of the plain run, in the same state.
/// - `ends`: when nothing waits, nothing waits in the plain run after its last event. Then all states and the rows are the same.
/// - `left`, `left_within`: wherever the run is given up, also after some of the answers of an event, each process is in the state that some
///   number of its first events of the plain run leaves.
/// - `good`: if each event and each answer of such a run was in a good state, so was each event of the plain run.
pub fn ahead_law<M, S, K, N>()
    ensures events { OfEachAhead M S K N AreSameEvents }
    ensures answers { OfEachAhead M S K N AreAnswersEvents }
    ensures ends { OfEachAhead M S K N EndsAlike }
    ensures left { OfEachAhead M S K N AreLeft }
    ensures left_within { OfEachAhead M S K N AreLeftWithin }
    ensures good { OfEachAhead M S K N AreGoodAlike }
{}
