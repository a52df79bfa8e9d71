//! The destinations of a virtual link, in ascending order.
ghost use Rattle.std.specs.Prelude.{◌≡◌, IfOk};
ghost use Rattle.network.specs.Trees.{rising, destinations_of};

use network::Routed;
use network_paths::push_ends;
use std::alloc::{AllocError, Global};

/// Returns the numbers, each once, in ascending order.
pub fn rising_of(numbers: Vec<usize>) -> Vec<usize>
    ensures { result.items ≡ rising numbers.items }
{
    let mut found = numbers;
    found.sort_unstable();
    found.dedup();
    found
}

/// Returns the nodes at which the paths of a virtual link end, in ascending order.
pub fn destinations_of(alloc: Global, vl: &Routed) -> Result<Vec<usize>, AllocError>
    ensures { IfOk result (λ ends. ends.items ≡ destinations_of vl.now) }
{
    let mut ends = Vec::new(alloc);
    push_ends(&mut ends, vl.a())?;
    push_ends(&mut ends, vl.b())?;
    Ok(rising_of(ends))
}
