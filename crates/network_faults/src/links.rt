//! Links by the nodes that they join.
ghost use Rattle.std.specs.Prelude.{◌≡◌, ℕ, ◌+◌, ◌^◌, ◌<◌, ◌==◌, if◌then◌else◌, Some, is_some, slice_index, vec_len, count_by, OnOk, IfOk};
ghost use Rattle.std.specs.HashMap.{Updates};
ghost use Rattle.network.specs.Wiring.{link_between, is_linked};
ghost use Rattle.network.specs.Faults.{touches};
ghost use Rattle.network_faults.specs.Lookups.{AreJoined, is_same_pair};

use network::Link;
use std::alloc::{AllocError, Global};
use std::collections::HashMap;

/// Links, and for each two nodes that a link joins the place of this link.
#[derive(Drop)]
pub struct Joined<'a> {
    pub links: &'a [Link],
    places: HashMap<(usize, usize), usize>,
    ghost placed: { AreJoined places links.now },
}

impl<'a> Joined<'a> {
    /// Indexes these links: the place for two nodes is that of the first link that joins them.
    pub fn new(alloc: Global, links: &'a [Link]) -> Result<Self, AllocError>
        ensures { IfOk result (λ joined. joined.links.now ≡ links.now) }
    {
        let mut places = HashMap::new(alloc);
        for (i, link) in links.iter().enumerate() {
            if !places.contains_key(&(link.a, link.b)) {
                put(&mut places, link.b, link.a, i)?;
                put(&mut places, link.a, link.b, i)?;
            }
        }
        Ok(Joined { links, places })
    }

    /// Returns the place of the first link that joins these nodes, or none if no link does.
    pub fn place(&self, x: usize, y: usize) -> Option<usize>
        ensures place { result ≡ link_between self.now.links.now x y }
        ensures linked { is_some result ≡ is_linked self.now.links.now x y }
    {
        self.places.get(&(x, y)).copied()
    }
}

/// Puts the place of the link from `x` to `y` into the map.
fn put(
    places: &mut HashMap<(usize, usize), usize>,
    x: usize,
    y: usize,
    place: usize,
) -> Result<(), AllocError>
    ensures { OnOk result (Updates is_same_pair places.old places.new (x, y) (Some place)) }
{
    places.insert((x, y), place)?;
    Ok(())
}

/// Adds one at the place `k`, if the list has that place.
fn count_up(counts: &mut Vec<usize>, k: usize)
    requires { (j : ℕ) → j < vec_len counts.old → slice_index counts.old.items j + 1 < 2 ^ 64 }
    ensures count_is { (j : ℕ) → j < vec_len counts.old → slice_index counts.new.items j ≡ slice_index counts.old.items j + (if k == j then 1 else 0) }
    ensures len { vec_len counts.new ≡ vec_len counts.old }
{
    if k < counts.len() {
        counts[k] += 1;
    }
}

/// Adds one for each node that the link names.
pub fn count_link(counts: &mut Vec<usize>, link: Link)
    requires { (j : ℕ) → j < vec_len counts.old → slice_index counts.old.items j + 2 < 2 ^ 64 }
    ensures count_is { (j : ℕ) → j < vec_len counts.old → slice_index counts.new.items j ≡ slice_index counts.old.items j + (if touches j link then 1 else 0) }
    ensures len { vec_len counts.new ≡ vec_len counts.old }
{
    count_up(counts, link.a);
    if link.b != link.a {
        count_up(counts, link.b);
    }
}

/// Makes a list of `count` zeros, one for each node.
pub fn no_counts(alloc: Global, count: usize) -> Result<Vec<usize>, AllocError>
    ensures counts { IfOk result (λ counts. (j : ℕ) → slice_index counts.items j ≡ 0) }
    ensures len { IfOk result (λ counts. vec_len counts ≡ count) }
{
    Ok(vec![in alloc; 0usize; count]?)
}

/// Counts, for each of `count` nodes, how many links name it.
pub fn link_counts(alloc: Global, count: usize, links: &[Link]) -> Result<Vec<usize>, AllocError>
    ensures counts { IfOk result (λ counts. (j : ℕ) → j < count → slice_index counts.items j ≡ count_by (touches j) links.now) }
    ensures len { IfOk result (λ counts. vec_len counts ≡ count) }
{
    let mut counts = no_counts(alloc, count)?;
    for link in links {
        count_link(&mut counts, *link);
    }
    Ok(counts)
}
