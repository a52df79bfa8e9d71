//! Timers and channels of the one-thread run: when a message arrives that a process sends to itself, and in which order messages arrive. No
//! product code.
#![tactic(auto)]

ghost use Rattle.timers.specs.Channel.{AreReceivedInOrder};
ghost use Rattle.timers.specs.Timer.{AreTimersOnTime};

/// In the one-thread run each timer comes at just the moment for which it is set, and no other message comes to its process later than that
/// moment while it is set. A timer is a message that a process sends to itself; at most one of its kind is set at a time.
pub fn timer_law<M, S, K, N, G>()
    ensures on_time { AreTimersOnTime M S K N G }
{}

/// In the one-thread run what one process receives by a channel is the beginning of what the other one sent, in that order. A channel is a
/// kind of message that one process alone sends, to one process, in the message order.
pub fn channel_law<M, S, K, N>()
    ensures in_order { AreReceivedInOrder M S K N }
{}
