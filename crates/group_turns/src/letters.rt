//! The moments of letters that a group has for others.
ghost use Rattle.std.specs.Prelude.{◌≡◌, ◌≢◌, ℕ, min, slice_get};
ghost use Rattle.std.specs.Option.{option_map};
ghost use Rattle.vlink.specs.Order.{message_order};
ghost use Rattle.virtual_time.specs.Law.{lowest, times_of};
ghost use Rattle.group_turns.specs.Section.{AreListed};

use crate::network_run::{NetworkGroup, OfGroups};
use group_exchange::GroupExchange;
use network_runs::NetworkRun;
use nodes::Node;
use vlink::Letter;

/// Returns the least moment of these letters, in ns, or the greatest number if there are none.
pub fn least_ns(letters: &[Letter]) -> u64
    ensures { result ≡ lowest 18446744073709551615 (times_of message_order letters.now) }
{
    let mut least_ns = u64::MAX;
    for letter in letters {
        least_ns = earlier(letter.message.time.ns(), least_ns);
    }
    least_ns
}

/// Lowers for each group the moment, in ns, to the least of the letters that this group has for it.
pub(crate) fn list_letters<J: NetworkRun>(
    letters_ns: &mut [u64],
    exchange: &GroupExchange<Node, OfGroups<J>>,
    group: &NetworkGroup<J>,
)
    ensures { AreListed J.owners group.now.held.flow.abroad letters_ns.old letters_ns.new }
{
    let letters = group.letters_abroad();
    for letter in letters {
        if let Some(owner) = exchange.owner(letter.message.receiver) {
            lower(letters_ns, usize::from(owner), letter.message.time.ns());
        }
    }
}

/// Lowers the moment at a place, if the place exists.
#[tactic(auto, using(crate::proofs::Listing::past))]
fn lower(moments_ns: &mut [u64], place: usize, moment_ns: u64)
    ensures there { slice_get moments_ns.new place ≡ option_map (min moment_ns) (slice_get moments_ns.old place) }
    ensures others { (other : ℕ) → other ≢ place → slice_get moments_ns.new other ≡ slice_get moments_ns.old other }
{
    if place >= moments_ns.len() {
        return;
    }
    moments_ns[place] = earlier(moment_ns, moments_ns[place]);
}

/// Returns the earlier of two moments, in ns.
fn earlier(one_ns: u64, other_ns: u64) -> u64
    ensures { result ≡ min one_ns other_ns }
{
    one_ns.min(other_ns)
}
