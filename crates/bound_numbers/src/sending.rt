//! How long a high frame takes from a port until its last bit has left.
ghost use Rattle.std.specs.Prelude.{◌≡◌};
ghost use Rattle.bound_numbers.specs.Numbers.{first_ns};

/// The number of units of a mixture in one ns: SCALE times WHOLE.
pub const UNITS: u128 = 128_000_000_000_000;

/// Returns how long a high frame takes until its last bit has left, in ns.
///
/// `burst` is the burst of all high frames that come to the port, in units. `greatest` is the time of the longest low frame, which may be in
/// transmission, in ns. A byte takes `byte_ns` ns, and the last bit leaves 12 bytes before the line is free.
pub fn first_ns(byte_ns: u16, burst: u128, greatest: u64) -> u128
    ensures { result ≡ first_ns byte_ns burst greatest }
{
    let sent = (burst / UNITS).saturating_add(u128::from(greatest));
    sent.saturating_sub(12 * u128::from(byte_ns))
}
