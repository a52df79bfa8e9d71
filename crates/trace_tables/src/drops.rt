//! Counts lost frames.
ghost use Rattle.std.specs.Prelude.{◌≡◌, ◌∷◌, ◌-◌, ◌^◌, ◌<◌, [], cond, OnOk};
ghost use Rattle.trace_tables.specs.Losses.{count_in, with_loss, with_losses};
ghost use Rattle.trace_segments.specs.Words.{is_in_network};
ghost use Rattle.trace_tables.specs.Cells.{with_known};

use crate::loss::{Loss, loss_order_law};
use network::Network;
use std::alloc::AllocError;
use std::collections::BTreeMap;
use trace_segments::is_in_network;

/// Counts one more loss.
fn add_loss(drops: &mut BTreeMap<Loss, u64>, loss: Loss) -> Result<(), AllocError>
    requires { count_in drops.old.entries loss < 2 ^ 64 - 1 }
    ensures { OnOk result (drops.new.entries ≡ with_loss drops.old.entries loss) }
{
    loss_order_law();
    *drops.entry(loss)?.or_insert(0) += 1;
    Ok(())
}

/// Counts one more loss, if the network has its virtual link and process.
pub fn add_known_loss(
    drops: &mut BTreeMap<Loss, u64>,
    network: &Network,
    loss: Loss,
) -> Result<(), AllocError>
    requires { count_in drops.old.entries loss < 2 ^ 64 - 1 }
    ensures { OnOk result (drops.new.entries ≡ with_losses drops.old.entries (cond (is_in_network network.now loss.vl.0 loss.place) (loss ∷ []) [])) }
{
    if !is_in_network(network, loss.vl, loss.place) {
        return Ok(());
    }
    add_loss(drops, loss)
}

/// A loss that was not counted before gets a count, if the network has its virtual link and process and the count is not 0.
pub fn put_known_loss(
    drops: &mut BTreeMap<Loss, u64>,
    network: &Network,
    loss: Loss,
    count: u64,
) -> Result<(), AllocError>
    ensures { OnOk result (drops.new.entries ≡ with_known network.now drops.old.entries loss count) }
{
    if count == 0 || !is_in_network(network, loss.vl, loss.place) {
        return Ok(());
    }
    loss_order_law();
    drops.insert(loss, count)?;
    Ok(())
}
