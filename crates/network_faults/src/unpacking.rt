//! The virtual links of packed paths.
ghost use Rattle.std.specs.Prelude.{◌≡◌, ℕ, List, ◌++◌, drop, map, slice_index_or, IfOk};
ghost use Rattle.std.specs.List.{flat_map};
ghost use Rattle.network.specs.Plan.{VlPlan};
ghost use Rattle.network.specs.Code.Views.{lists_of};
ghost use Rattle.network_faults.specs.Packed.{packed_lists_in, packed_lists_of, packed_path, packed_paths, packed_vl};
ghost use Rattle.network_faults.specs.RowLists.{RowLists, row_lists_of};

use crate::compaction::{join_free_pieces, moved};
use crate::packing::PackedRows;
use network::{Numbered, Routed};
use row_types::VirtualLink;
use std::alloc::{AllocError, Global};

/// The packed numbers that are left.
#[derive(Drop)]
struct Rest<'a> {
    numbers: &'a [usize],
}

impl<'a> Rest<'a> {
    /// Takes the next number, or 0 if none is left.
    fn number(&mut self) -> usize
        ensures value { result ≡ slice_index_or self.old.numbers.now 0 0 }
        ensures rest { self.new.numbers.now ≡ drop 1 self.old.numbers.now }
    {
        let Some((first, others)) = self.numbers.split_first() else {
            return 0;
        };
        self.numbers = others;
        *first
    }

    /// Takes a path.
    fn path(&mut self, alloc: Global) -> Result<Vec<usize>, AllocError>
        ensures { IfOk result (λ taken. (path later : List ℕ) → self.old.numbers.now ≡ packed_path path ++ later →
            (taken.items ≡ path) × (self.new.numbers.now ≡ later)) }
    {
        let len = self.number();
        let mut path = Vec::with_capacity(alloc, len)?;
        for _i in 0..len {
            path.push(self.number())?;
        }
        Ok(path)
    }

    /// Takes the paths of one network.
    fn paths(&mut self, alloc: Global) -> Result<Vec<Vec<usize>>, AllocError>
        ensures { IfOk result (λ taken. (paths : List (List ℕ)) (later : List ℕ) → self.old.numbers.now ≡ packed_paths paths ++ later →
            (lists_of taken ≡ paths) × (self.new.numbers.now ≡ later)) }
    {
        let len = self.number();
        let mut paths = Vec::with_capacity(alloc, len)?;
        for _i in 0..len {
            paths.push(self.path(alloc)?)?;
        }
        Ok(paths)
    }

    /// Takes the paths of a virtual link with these parameters.
    fn vl(&mut self, alloc: Global, link: VirtualLink) -> Result<Routed, AllocError>
        ensures { IfOk result (λ taken. (vl : VlPlan) (later : List ℕ) → vl.link ≡ link → self.old.numbers.now ≡ packed_vl vl ++ later →
            (taken ≡ vl) × (self.new.numbers.now ≡ later)) }
    {
        let a = self.paths(alloc)?;
        let b = self.paths(alloc)?;
        Ok(Routed::new(link, a, b))
    }
}

/// Makes virtual links of their parameters and their packed paths.
fn vls_of(alloc: Global, links: &[VirtualLink], paths: &[usize]) -> Result<Vec<Routed>, AllocError>
    ensures { IfOk result (λ made. (vls : List VlPlan) → links.now ≡ map (λ vl. vl.link) vls → paths.now ≡ flat_map packed_vl vls →
        made.items ≡ vls) }
{
    let mut rest = Rest { numbers: paths };
    let mut vls = Vec::with_capacity(alloc, links.len())?;
    for link in links {
        vls.push(rest.vl(alloc, *link)?)?;
    }
    Ok(vls)
}

/// Makes rows of packed ones.
pub fn unpacked(alloc: Global, packed: PackedRows) -> Result<Numbered, AllocError>
    ensures { IfOk result (λ numbered. (lists : RowLists) → packed_lists_of packed ≡ packed_lists_in lists → row_lists_of numbered ≡ lists) }
{
    let links = moved(alloc, packed.links)?;
    let outages = moved(alloc, packed.outages)?;
    let streams = moved(alloc, packed.streams)?;
    join_free_pieces(alloc, packed.vls.links.len())?;
    let vls = vls_of(
        alloc,
        packed.vls.links.as_slice(),
        packed.vls.paths.as_slice(),
    )?;
    Ok(Numbered {
        links,
        outages,
        vls,
        streams,
    })
}
