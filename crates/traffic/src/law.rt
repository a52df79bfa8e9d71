//! Laws of the offers of every network.
ghost use Rattle.std.specs.Prelude.{ℕ, ◌<◌, ◌≤◌, ◌↔◌};
ghost use Rattle.vlink.specs.declared.message.Message.{Message};
ghost use Rattle.virtual_time.specs.Law.{Simulation};
ghost use Rattle.row_types.specs.declared.rows.Stream.{Stream};
ghost use Rattle.network.specs.Words.{IsStreamInLimits};
ghost use Rattle.traffic.specs.Offers.{due_of, due_count, last_of};
ghost use Rattle.traffic.specs.Own.{OffersAsBefore};
ghost use Rattle.traffic.specs.Lawful.{IsOfNetwork, HasLawfulOffers};

use network::Network;

/// What the laws of virtual time require of offers: each occurs once, comes from no process, goes to a process, and is not after the end.
/// This holds for every simulation with the messages, processes, end and offers of a network, whatever its actors do (`laws`). And the
/// bursts that are drawn are just those that are due at or before the end of the run and of their stream (`due`).
pub fn offers_law<S, K, N>(network: &Network)
    ensures laws { (f : Simulation Message S K N) → IsOfNetwork network.now f → HasLawfulOffers f }
    ensures due { (stream : Stream) → IsStreamInLimits stream → (k : ℕ) →
        (k < due_count (last_of network.now.until stream) stream) ↔ (due_of stream k ≤ last_of network.now.until stream) }
{
    network.accepted_law();
    let _few = network.process_count();
}

/// A virtual link whose row has none of the optional keys of a stream offers one frame of its size in each period: at the moments, to the
/// node and with the numbers that its row alone says.
pub fn own_law()
    ensures same { OffersAsBefore }
{}
