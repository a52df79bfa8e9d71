//! Finds a virtual link among the entries that a node has for virtual links.
ghost use Rattle.std.specs.Prelude.{◌≡◌, ◌<◌, ◌≤◌, ◌^◌, ℕ, map, length, IfOk, IfSome};
ghost use Rattle.nodes.specs.rules.Finding.{place_of, IsRising};

use std::alloc::{AllocError, Global};
use vlink::VlId;

/// An entry of a node for one virtual link.
pub trait Numbered {
    /// The number of the virtual link.
    ghost number: { Self → ℕ };

    fn number(&self) -> u16
        ensures { result ≡ number self.now };
}

/// A number is its own entry, in a list of numbers alone.
impl Numbered for u16 {
    ghost number = { λ number. number };

    #[inline(always)]
    fn number(&self) -> u16 {
        *self
    }
}

/// Returns the numbers of the entries in one dense list: a search in it touches fewer cache lines than one in the entries.
pub fn numbers_of<T: Numbered>(alloc: Global, entries: &[T]) -> Result<Vec<u16>, AllocError>
    ensures { IfOk result (λ numbers. numbers.items ≡ map T.number entries.now) }
{
    let mut numbers = Vec::with_capacity(alloc, entries.len())?;
    for entry in entries {
        numbers.push(entry.number())?;
    }
    Ok(numbers)
}

/// Returns the place of the entry of a virtual link. The numbers of the entries must ascend.
#[inline(always)]
pub fn place_of<T: Numbered>(entries: &[T], vl: VlId) -> Option<usize>
    requires { IsRising (map T.number entries.now) }
    ensures place { result ≡ place_of (map T.number entries.now) vl.0 }
    ensures within { IfSome result (λ place. place < length entries.now) }
    ensures small { IfSome result (λ place. place < 2 ^ 16) }
{
    search(entries, vl)
}

/// Does the same, as the search returns it: a place that is not beyond the number.
#[inline(always)]
fn search<T: Numbered>(entries: &[T], vl: VlId) -> Option<usize>
    requires { IsRising (map T.number entries.now) }
    ensures place { result ≡ place_of (map T.number entries.now) vl.0 }
    ensures within { IfSome result (λ place. place < length entries.now) }
    ensures small { IfSome result (λ place. place ≤ vl.0) }
{
    entries
        .binary_search_by_key(&vl.0, |entry| entry.number())
        .ok()
}
