//! The work of the writer's thread.
ghost use Rattle.std.specs.Prelude.{◌≡◌};

use crossbeam_channel::Receiver;
use network::Network;
use network_runs::NetworkRun;
use run_rows::{Counted, RunBatch, TraceRun, Writing};
use std::sync::Wait;
use trace_tables::Sink;

/// Counts the rows of batches and writes their lines, in the order in which the batches come, until no more can come. Rows are counted after a
/// fault too.
pub(crate) fn write_batches<'a, J: NetworkRun, K: TraceRun, S: Sink, T: Wait>(
    rt: &T,
    network: &Network,
    writing: Writing<'a, J, K, S>,
    counted: Counted<J>,
    batches: Receiver<RunBatch<J>>,
) -> (Writing<'a, J, K, S>, Counted<J>)
    requires { network.now ≡ J.plan }
{
    let mut writing = writing;
    let mut counted = counted;
    take_batches(rt, network, &mut writing, &mut counted, batches);
    (writing, counted)
}

/// Takes batches until no more can come.
fn take_batches<J: NetworkRun, K: TraceRun, S: Sink, T: Wait>(
    rt: &T,
    network: &Network,
    writing: &mut Writing<'_, J, K, S>,
    counted: &mut Counted<J>,
    batches: Receiver<RunBatch<J>>,
)
    requires { network.now ≡ J.plan }
{
    for batch in batches.iter(rt) {
        counted.take(network, &batch);
        writing.take(batch);
    }
}
