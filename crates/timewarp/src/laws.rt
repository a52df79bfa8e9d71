//! What holds for every run of a network, whatever its steps.
ghost use Rattle.std.specs.Prelude.{ℕ, ◌≡◌, ◌<◌, ◌≤◌, List, ◌++◌};
ghost use Rattle.vlink.specs.declared.message.Message.{Message};
ghost use Rattle.virtual_time.specs.Law.{rowed, rows_at, IsAscending, IsIn, earlier, times_in, made, IsBelow, one, events, IsNamed, Safe, history, CountLaw, NothingBefore, IsFinished, IsWhole};
ghost use Rattle.virtual_time.specs.declared.step.Step.{Step};
ghost use Rattle.network.specs.Words.{process_count};
ghost use Rattle.nodes.specs.Words.{opening, simulation_of};
ghost use Rattle.seqsim.specs.Committed.{after};

use network::Network;
use nodes::{Node, NodeRecord};
use seqsim::network_law;
use virtual_time::headline_law;
use vlink::{Message, Note};

/// The law of virtual time for a network: what holds after any steps, done in any order. It is the headline of `virtual_time`, for the
/// simulation of the network, whose one-thread run is that of `seqsim::run`.
///
/// - `safe`: at each process the committed events are the first ones of the one-thread run, and undoing all others leaves the state after
///   just these. With the done events below GVT they are all its events below GVT. Nothing that is earlier than GVT waits.
/// - `counts`: messages and antimessages balance. `once`: no message is made twice. `handled_once`: none is handled twice.
/// - `seen`: also before any moment that is not above GVT, the events are those of the one-thread run.
/// - `rises`: GVT never falls. `never_undone`: the events below GVT are the same after all later steps.
/// - `ascend`: the events of a process, first the committed ones and then the done ones, ascend in the message order.
/// - `committed_early`: each committed event is earlier than GVT.
/// - `floors`: no letter of the tray or outbox of a process, and no unhandled message, is earlier than its floor.
/// - `gvt_low`: GVT is at most the floor of each process.
/// - `outboxes`: each letter of an outbox, of either sign, goes to a process of the network.
/// - `rows`: the rows of the one-thread run are, at each process, those of its events in their order, from its opening state on.
/// - `whole`: in a finished world the committed events and their rows are those of the whole one-thread run.
pub fn world_law(network: &Network)
    ensures safe { (steps : List Step) → Safe (simulation_of network.now) (after network.now steps) }
    ensures counts { (steps : List Step) (m : Message) → CountLaw (simulation_of network.now) (after network.now steps) m }
    ensures once { (steps : List Step) (m : Message) → made (simulation_of network.now) (history (simulation_of network.now) (after network.now steps)) m ≤ 1 }
    ensures handled_once { (steps : List Step) (p : ℕ) (m : Message) →
        times_in (simulation_of network.now).rules.order m (history (simulation_of network.now) (after network.now steps) p) ≤ 1 }
    ensures seen { (steps : List Step) (g : ℕ) → g ≤ (after network.now steps).gvt → (p : ℕ) → IsBelow (simulation_of network.now) p g
        (earlier (simulation_of network.now).rules.order g (history (simulation_of network.now) (after network.now steps) p)) }
    ensures rises { (steps more : List Step) → (after network.now steps).gvt ≤ (after network.now (steps ++ more)).gvt }
    ensures never_undone { (steps more : List Step) (p : ℕ) →
        earlier (simulation_of network.now).rules.order (after network.now steps).gvt (history (simulation_of network.now) (after network.now (steps ++ more)) p)
        ≡ earlier (simulation_of network.now).rules.order (after network.now steps).gvt (history (simulation_of network.now) (after network.now steps) p) }
    ensures ascend { (steps : List Step) (p : ℕ) →
        IsAscending (simulation_of network.now).rules.order (history (simulation_of network.now) (after network.now steps) p) }
    ensures committed_early { (steps : List Step) (p : ℕ) (m : Message) →
        IsIn (simulation_of network.now).rules.order m ((after network.now steps).parts p).committed → m.time < (after network.now steps).gvt }
    ensures floors { (steps : List Step) (p : ℕ) → p < process_count network.now →
        NothingBefore (simulation_of network.now) ((after network.now steps).floors p) ((after network.now steps).parts p) }
    ensures gvt_low { (steps : List Step) (p : ℕ) → p < process_count network.now → (after network.now steps).gvt ≤ (after network.now steps).floors p }
    ensures outboxes { (steps : List Step) (p : ℕ) (m : Message) →
        IsNamed (simulation_of network.now).rules.order m ((after network.now steps).parts p).outbox → m.receiver < process_count network.now }
    ensures rows { (event_count p : ℕ) → rows_at p (one (simulation_of network.now) event_count).rows
        ≡ rowed (simulation_of network.now).rules (opening network.now p) (events (simulation_of network.now) event_count p) }
    ensures whole { (steps : List Step) → IsFinished (simulation_of network.now) (after network.now steps) →
        IsWhole (simulation_of network.now) (after network.now steps) }
{
    network_law(network);
    headline_law::<Message, Node, NodeRecord, Note>();
}
