//! All that comes to a port with one priority: for each line a mixture of what the line bounds and what its virtual links can send.
ghost use Rattle.std.specs.Prelude.{◌≡◌, ◌≤◌};
ghost use Rattle.network_bounds.specs.Numbers.{WHOLE};
ghost use Rattle.network_bounds.specs.Mixing.{gaps_in, mixed_at, weight_of, with_share};

use crate::port::Port;
use crate::share::{Share, share_at};
use bound_numbers::{WHOLE, mixed};
use network::GREATEST_PORTS;

/// The mixture of all that comes to a port with one priority. All sums stop at the greatest number.
#[derive(Clone, Copy)]
pub struct Mixture {
    pub burst: u128,
    pub rate: u128,
    /// The greatest cost of a frame, in ns.
    pub greatest: u64,
}

/// How a mixture is made: how many parts of WHOLE are taken from what a line bounds, by port, and how virtual links count.
#[derive(Clone, Copy)]
pub struct Parts {
    pub of_line: [u32; GREATEST_PORTS],
    /// Whether by their gaps, otherwise by their BAGs.
    pub by_gap: bool,
}

/// Which mixture.
#[derive(Clone, Copy)]
pub enum Choice {
    /// That of the least rate.
    Least,
    /// This one.
    By(Parts),
}

impl Choice {
    /// Whether virtual links count by their gaps.
    fn by_gap(&self) -> bool
        ensures { result ≡ gaps_in self.now }
    {
        match self {
            Choice::Least => false,
            Choice::By(parts) => parts.by_gap,
        }
    }
}

/// Returns the weight of the line to this port: none if it bounds nothing.
fn weight_of(choice: Choice, input: usize, share: &Share) -> u32
    ensures value { result ≡ weight_of choice input share.now }
    ensures within { result ≤ WHOLE }
{
    if !share.is_bounding {
        return 0;
    }
    match choice {
        Choice::Least => {
            if share.line_rate < share.rate {
                WHOLE
            } else {
                0
            }
        }
        Choice::By(parts) => match parts.of_line.get(input) {
            Some(weight) => WHOLE.min(*weight),
            None => 0,
        },
    }
}

/// Adds what comes by one more line.
fn with_share(all: Mixture, weight: u32, share: &Share) -> Mixture
    requires { weight ≤ WHOLE }
    ensures { result ≡ with_share all weight share.now }
{
    Mixture {
        burst: mixed(weight, share.line_burst, share.burst).saturating_add(all.burst),
        rate: mixed(weight, share.line_rate, share.rate).saturating_add(all.rate),
        greatest: share.greatest.max(all.greatest),
    }
}

/// Returns all that comes to a port with one priority, by these weights.
pub fn mixed_at(port: &Port, choice: Choice, is_high: bool) -> Mixture
    ensures { result ≡ mixed_at port.now choice is_high }
{
    let mut all = Mixture {
        burst: 0,
        rate: 0,
        greatest: 0,
    };
    for input in 0..GREATEST_PORTS {
        let share = share_at(port, choice.by_gap(), input as u16, is_high);
        all = with_share(all, weight_of(choice, input, &share), &share);
    }
    all
}
