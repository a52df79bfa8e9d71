//! What holds for every process, whatever letters come to it.
ghost use Rattle.std.specs.Prelude.{◌≢◌, ◌≤◌, List};
ghost use Rattle.vlink.specs.Order.{message_order};
ghost use Rattle.vlink.specs.declared.message.Message.{Message};
ghost use Rattle.virtual_time.specs.Law.{sent, times_in, Part, Act, acted, Emptying, SendsKept};
ghost use Rattle.reverse.specs.Rules.{rules_of};
ghost use Rattle.process_queues.specs.Queues.{Queues, StandsFor};

use reverse::{Actor, actor_rules_law};

/// What a process sends, whatever letters come to it, also letters that no run would send, and in whatever order it acts: what an undone
/// event sent is taken back, and nothing else. It is the law of one process of `virtual_time`, for every actor, and for every opening state
/// and part that a process represents.
///
/// - `sends`: each act but the emptying of the outbox (a letter is delivered, the first letter of the tray arrives, the next message is
///   handled, the oldest done event is committed) changes the signed count of each message in the outbox by as much as it changes how often
///   the committed and done events sent that message.
/// - `sent_once`: these counts are 1 or 0, whatever the events are: no message is sent twice.
pub fn sending_law<R: Actor>()
    ensures sends { (opening : R) (part : Part Message R) (queues : Queues R R.Record) → StandsFor (rules_of R.plain) R.is_value opening part queues →
        (act : Act Message) → act ≢ Emptying → (m : Message) → SendsKept (rules_of R.plain) opening part (acted (rules_of R.plain) opening act part) m }
    ensures sent_once { (opening : R) (events : List Message) (m : Message) → times_in message_order m (sent (rules_of R.plain) opening events) ≤ 1 }
{
    actor_rules_law::<R>();
}
