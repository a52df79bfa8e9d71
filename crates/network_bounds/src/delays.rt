//! How long a frame takes from a port to the end of its last bit, and how many bytes wait there.
ghost use Rattle.std.specs.Prelude.{◌≡◌, ◌≤◌, ◌-◌, ◌^◌, false, nat_lt};
ghost use Rattle.network_bounds.specs.declared.mixing.Choice.TheVariants.{Least};
ghost use Rattle.network_bounds.specs.declared.reason.Reason.TheVariants.{Number};
ghost use Rattle.network_bounds.specs.Mixing.{mixed_at};
ghost use Rattle.network_bounds.specs.Delays.{IsBound, bound_by, delay_of, first_mixed, first_of, fits_both, fits_first, fits_later, later_bound, later_delay, later_of, only_if, waiting_bound, waiting_of};

use crate::choosing::choose;
use crate::curves::is_first;
use crate::mixing::{Choice, Mixture, Parts, mixed_at};
use crate::port::Port;
use crate::reason::Reason;
use bound_numbers::{UNITS, first_ns};
use network::VirtualLink;
use vlink::{FrameSize, busy_ns, last_bit_ns};

/// The mixtures of a port.
#[derive(Clone, Copy)]
pub struct Weights {
    /// That of high frames, for their delay.
    pub first: Parts,
    /// Those of high and of low frames, for the delay of low ones.
    pub high: Parts,
    pub low: Parts,
    /// Those of high and of low frames, for how much waits.
    pub waiting_high: Parts,
    pub waiting_low: Parts,
}

/// What determines the delay of low frames: both bursts, and what high frames leave of the line.
#[derive(Clone, Copy)]
pub struct Later {
    pub burst: u128,
    pub left: u128,
}

/// The bounds of a port.
#[derive(Clone, Copy)]
pub struct PortBound {
    /// How long a high frame takes until its last bit has left, in ns.
    pub first: Result<u128, Reason>,
    /// How long a low frame waits.
    pub later: Result<Later, Reason>,
    /// How many bytes wait.
    pub waiting: Result<u128, Reason>,
}

impl PortBound {
    /// Returns the bounds by these weights.
    fn by(port: &Port, weights: &Weights) -> Self
        ensures { result ≡ bound_by port.now weights.now }
    {
        PortBound {
            first: first_bound(port, weights),
            later: later_bound(port, weights),
            waiting: waiting_bound(port, weights),
        }
    }

    /// Returns the bounds by weights that the program chooses.
    pub fn of(port: &Port) -> Self
        ensures { IsBound port.now result }
    {
        PortBound::by(port, &choose(port))
    }
}

/// Whether high frames come no faster than the line sends.
fn fits_first(high: &Mixture) -> bool
    ensures { result ≡ fits_first high.now }
{
    high.rate <= UNITS
}

/// Returns the number if it is below the greatest one.
fn held(burst: u128, number: u128) -> Result<u128, Reason>
    ensures { result ≡ only_if (nat_lt burst (2 ^ 128 - 1)) number Number }
{
    if burst < u128::MAX {
        Ok(number)
    } else {
        Err(Reason::Number)
    }
}

/// Returns how long a high frame takes, if one low frame costs at most `greatest` ns.
fn first_of(byte_ns: u16, high: &Mixture, greatest: u64) -> Result<u128, Reason>
    ensures { result ≡ first_of byte_ns high.now greatest }
{
    if fits_first(high) {
        held(high.burst, first_ns(byte_ns, high.burst, greatest))
    } else {
        Err(Reason::Rate)
    }
}

/// Returns how long a high frame takes, by these weights or by those of the least rate.
fn first_bound(port: &Port, weights: &Weights) -> Result<u128, Reason>
    ensures { result ≡ first_of port.now.byte_ns (first_mixed port.now weights.now) (mixed_at port.now Least false).greatest }
{
    let greatest = mixed_at(port, Choice::Least, false).greatest;
    let by = mixed_at(port, Choice::By(weights.first), true);
    if fits_first(&by) {
        first_of(port.byte_ns, &by, greatest)
    } else {
        first_of(port.byte_ns, &mixed_at(port, Choice::Least, true), greatest)
    }
}

/// Whether high and low frames come no faster than the line sends.
fn fits_both(high: &Mixture, low: &Mixture) -> bool
    ensures { result ≡ fits_both high.now low.now }
{
    high.rate.saturating_add(low.rate) <= UNITS
}

/// Whether high frames also leave something of the line.
fn fits_later(high: &Mixture, low: &Mixture) -> bool
    ensures { result ≡ fits_later high.now low.now }
{
    high.rate < UNITS && fits_both(high, low)
}

/// Returns what determines the delay of low frames.
fn later_of(high: &Mixture, low: &Mixture) -> Result<Later, Reason>
    ensures { result ≡ later_of high.now low.now }
{
    let burst = high.burst.saturating_add(low.burst);
    if fits_later(high, low) {
        if burst < u128::MAX {
            let left = UNITS.saturating_sub(high.rate);
            Ok(Later { burst, left })
        } else {
            Err(Reason::Number)
        }
    } else {
        Err(Reason::Rate)
    }
}

/// Returns the same, by these weights or by those of the least rate.
fn later_bound(port: &Port, weights: &Weights) -> Result<Later, Reason>
    ensures { result ≡ later_bound port.now weights.now }
{
    let high = mixed_at(port, Choice::By(weights.high), true);
    let low = mixed_at(port, Choice::By(weights.low), false);
    if fits_later(&high, &low) {
        later_of(&high, &low)
    } else {
        let high = mixed_at(port, Choice::Least, true);
        let low = mixed_at(port, Choice::Least, false);
        later_of(&high, &low)
    }
}

/// Returns how many bytes wait.
fn waiting_of(byte_ns: u16, high: &Mixture, low: &Mixture) -> Result<u128, Reason>
    requires { 1 ≤ byte_ns }
    ensures { result ≡ waiting_of byte_ns high.now low.now }
{
    let burst = high.burst.saturating_add(low.burst);
    if fits_both(high, low) {
        held(burst, burst / UNITS / u128::from(byte_ns))
    } else {
        Err(Reason::Rate)
    }
}

/// Returns the same, by these weights or by those of the least rate.
fn waiting_bound(port: &Port, weights: &Weights) -> Result<u128, Reason>
    ensures { result ≡ waiting_bound port.now weights.now }
{
    let high = mixed_at(port, Choice::By(weights.waiting_high), true);
    let low = mixed_at(port, Choice::By(weights.waiting_low), false);
    if fits_both(&high, &low) {
        waiting_of(port.byte_ns, &high, &low)
    } else {
        let high = mixed_at(port, Choice::Least, true);
        let low = mixed_at(port, Choice::Least, false);
        waiting_of(port.byte_ns, &high, &low)
    }
}

/// Returns how long a low frame takes until its last bit has left, in ns, if the least frame of its virtual link has `least` bytes.
fn later_delay(byte_ns: u16, least: FrameSize, later: Later) -> Result<u128, Reason>
    ensures { result ≡ later_delay byte_ns least later }
{
    if later.left == 0 {
        return Err(Reason::Rate);
    }
    let own = UNITS * u128::from(busy_ns(least, u32::from(byte_ns)));
    let last_bit = u128::from(last_bit_ns(least, u32::from(byte_ns)));
    Ok((later.burst.saturating_sub(own) / later.left).saturating_add(last_bit))
}

/// Returns how long a frame takes from the port until its last bit has left, in ns.
pub fn delay_of(
    is_end: bool,
    byte_ns: u16,
    bound: &PortBound,
    link: &VirtualLink,
    least: FrameSize,
) -> Result<u128, Reason>
    ensures { result ≡ delay_of is_end byte_ns bound.now link.now least }
{
    if is_first(is_end, link) {
        bound.first
    } else {
        later_delay(byte_ns, least, bound.later?)
    }
}
