//! The rows of each process determine the rows of the one-thread run of a network.
ghost use Rattle.std.specs.Prelude.{◌≡◌, ◌<◌, ℕ, [], map, List};
ghost use Rattle.vlink.specs.Order.{message_order};
ghost use Rattle.vlink.specs.Letters.{Row};
ghost use Rattle.virtual_time.specs.Law.{rowed, rows_at, one, IsFinished};
ghost use Rattle.virtual_time.specs.declared.step.Step.{Step};
ghost use Rattle.network.specs.Words.{process_count};
ghost use Rattle.nodes.specs.Words.{opening, simulation_of};
ghost use Rattle.trace_segments.specs.Words.{gathered, AreInMessageOrder, rows_of_event};
ghost use Rattle.seqsim.specs.Committed.{after, AreCommittedRows};
ghost use Rattle.network_actors.specs.Networks.{AreRowsOf};

use network::Network;
use network_actors::network_law;
use nodes::{Node, NodeRecord};
use trace_tables::rows_by_place_law;
use virtual_time::headline_law;
use vlink::{Message, Note, message_order_law};

/// The rows of the one-thread run are in message order, and the rows of each process, put in this order, are all of them. So a run that
/// gathers rows process by process has the very list of the one-thread run.
///
/// - `in_order`: the rows of the one-thread run are in message order.
/// - `by_process`: rows in message order that at each process are those of the one-thread run, after which nothing waits, are its rows.
/// - `gathered`: the rows of the committed events of each process, put one process after another, are the committed rows.
/// - `finished`: the committed rows of a finished world, sorted into message order so that those of each event stay in their order, are the
///   rows of the one-thread run. `trace_tables::put_in_message_order` sorts them so.
pub fn rows_by_process_law(network: &Network)
    ensures in_order { (rows : List Row) → AreRowsOf network.now rows → AreInMessageOrder rows }
    ensures by_process { (n : ℕ) → (one (simulation_of network.now) n).waiting ≡ [] → (rows : List Row) → AreInMessageOrder rows →
        ((p : ℕ) → rows_at p rows ≡ rows_at p (one (simulation_of network.now) n).rows) →
        AreRowsOf network.now rows }
    ensures gathered { (steps : List Step) (rows_of : ℕ → List Row) → ((p : ℕ) → p < process_count network.now →
        (rows_of p) ≡ rowed (simulation_of network.now).rules (opening network.now p) ((after network.now steps).parts p).committed) →
        AreCommittedRows network.now steps (gathered (process_count network.now) rows_of) }
    ensures finished { (steps : List Step) → IsFinished (simulation_of network.now) (after network.now steps) → (rows ordered : List Row) →
        AreCommittedRows network.now steps rows → AreInMessageOrder ordered → ((m : Message) → rows_of_event m ordered ≡ rows_of_event m rows) →
        AreRowsOf network.now ordered }
{
    network_law(network);
    message_order_law();
    rows_by_place_law();
    headline_law::<Message, Node, NodeRecord, Note>();
}
