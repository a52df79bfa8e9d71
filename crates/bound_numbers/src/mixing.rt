//! Mixtures of two bounds on what comes to a port by a line: that of the line, and that of its virtual links.
ghost use Rattle.std.specs.Prelude.{◌≡◌, ◌≤◌};
ghost use Rattle.port_bounds.specs.Mixtures.{mixed};
ghost use Rattle.bound_numbers.specs.Numbers.{WHOLE, capped};

/// The number of parts of a mixture.
pub const WHOLE: u32 = 1_000_000;

/// Returns the mixture: `weight` parts of the one and the others of the other.
///
/// It stops at the greatest number.
pub fn mixed(weight: u32, line: u128, flows: u128) -> u128
    requires { weight ≤ WHOLE }
    ensures { result ≡ capped (mixed WHOLE weight line flows) }
{
    let by_line = u128::from(weight).saturating_mul(line);
    let by_flows = u128::from(WHOLE - weight).saturating_mul(flows);
    by_line.saturating_add(by_flows)
}
