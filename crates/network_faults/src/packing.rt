//! Paths packed into one list of numbers. While the rows of a description are in memory, the virtual links that are made of them take no
//! small pieces of memory, so what the rows took is free in one piece once they are dropped.
ghost use Rattle.std.specs.Prelude.{◌≡◌, ◌+◌, ◌^◌, ◌<◌, ◌++◌, List, length, map, IfOk};
ghost use Rattle.std.specs.List.{list_any};
ghost use Rattle.network_rows.specs.declared.fault.DescFault.TheVariants.{UnknownName};
ghost use Rattle.network_rows.specs.declared.rows.VlRow.{VlRow};
ghost use Rattle.network.specs.Rows.{when};
ghost use Rattle.network.specs.Names.{names_of};
ghost use Rattle.network.specs.Plan.{path_numbers, paths_numbers, vl_plan};
ghost use Rattle.network.specs.Faults.{is_unknown, has_unknown, unknown_at_vl};
ghost use Rattle.network_faults.specs.Packed.{ArePacked, no_lists, packed_lists_of, packed_path, packed_paths, packed_vl};
ghost use Rattle.network_faults.specs.RowLists.{Gives};

use crate::each::{Review, key_at, row_at};
use crate::names::Names;
use crate::unknown::{check_keys, node_at};
use network::{Link, Outage, VlStream};
use network_rows::{DescFault, Key, Path, Paths, Place, Rows, Section, VlRow};
use row_types::VirtualLink;
use std::alloc::{AllocError, Global};

/// Virtual links, with all their paths packed.
#[derive(Drop)]
pub struct PackedVls {
    pub links: Vec<VirtualLink>,
    pub paths: Vec<usize>,
}

/// Rows with numbers in place of names, the paths of virtual links packed.
#[derive(Drop)]
pub struct PackedRows {
    pub links: Vec<Link>,
    pub outages: Vec<Outage>,
    pub vls: PackedVls,
    pub streams: Vec<VlStream>,
}

impl PackedRows {
    /// Makes empty lists with room for these rows.
    pub fn none(alloc: Global, rows: &Rows) -> Result<Self, AllocError>
        ensures { IfOk result (λ packed. packed_lists_of packed ≡ no_lists) }
    {
        let links = Vec::with_capacity(alloc, rows.links.as_slice().len())?;
        let outages = Vec::with_capacity(alloc, rows.outages.as_slice().len())?;
        let vls = PackedVls {
            links: Vec::with_capacity(alloc, rows.vls.as_slice().len())?,
            paths: Vec::new(alloc),
        };
        let streams = Vec::with_capacity(alloc, rows.streams.as_slice().len())?;
        Ok(PackedRows {
            links,
            outages,
            vls,
            streams,
        })
    }
}

/// Packs a path, whose key is at this place.
fn pack_path(
    packed: &mut Vec<usize>,
    names: &Names,
    path: &Path,
    place: Place,
) -> Result<(), DescFault>
    ensures { Gives (λ _. packed.new.items) result (when (list_any (is_unknown (names_of names.now.nodes.now)) path.now) (UnknownName place))
        (packed.old.items ++ packed_path (path_numbers (names_of names.now.nodes.now) path.now)) }
{
    packed.push(path.len())?;
    for k in 0..path.len() {
        packed.push(node_at(names, path.name(k), place)?)?;
    }
    Ok(())
}

/// Packs the paths of one network, whose key is at this place.
fn pack_paths(
    packed: &mut Vec<usize>,
    names: &Names,
    paths: &Paths,
    place: Place,
) -> Result<(), DescFault>
    ensures { Gives (λ _. packed.new.items) result (when (has_unknown (names_of names.now.nodes.now) paths.now) (UnknownName place))
        (packed.old.items ++ packed_paths (paths_numbers (names_of names.now.nodes.now) paths.now)) }
{
    packed.push(paths.len())?;
    for k in 0..paths.len() {
        pack_path(packed, names, paths.path(k), place)?;
    }
    Ok(())
}

/// Packs the paths of the row number `i`, counted from 0.
fn pack_vl(packed: &mut Vec<usize>, names: &Names, i: usize, row: &VlRow) -> Result<(), DescFault>
    requires { i + 1 < 2 ^ 64 }
    ensures { (earlier : List VlRow) → length earlier ≡ i →
        Gives (λ _. packed.new.items) result (unknown_at_vl (names_of names.now.nodes.now) earlier row.now)
        (packed.old.items ++ packed_vl (vl_plan (names_of names.now.nodes.now) row.now)) }
{
    check_keys(row.has_unknown_key, row_at(Section::Vl, i))?;
    pack_paths(packed, names, &row.a, key_at(Section::Vl, i, Key::A))?;
    pack_paths(packed, names, &row.b, key_at(Section::Vl, i, Key::B))
}

/// Packs the virtual links of rows.
#[derive(Drop)]
pub struct Vls<'a, 'b> {
    pub names: &'a Names<'b>,
}

impl<'a, 'b> Review for Vls<'a, 'b> {
    type Row = VlRow;

    type Seen = PackedVls;

    ghost faults = { λ s. unknown_at_vl (names_of s.names.now.nodes.now) };

    ghost saw = { λ s packed rows. ArePacked packed (map (vl_plan (names_of s.names.now.nodes.now)) rows) };

    fn review(&self, packed: &mut PackedVls, i: usize, row: &VlRow) -> Result<(), DescFault> {
        pack_vl(&mut packed.paths, self.names, i, row)?;
        // The check of the loan of `packed.links` has to see the type of optional keys.
        let _optional = row.link.own.last_size;
        packed.links.push(row.link)?;
        Ok(())
    }
}
