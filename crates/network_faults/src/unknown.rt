//! Makes rows with numbers in place of names, or finds the first key or name that is unknown.
ghost use Rattle.std.specs.Prelude.{◌≡◌, ◌+◌, ◌^◌, ◌<◌, ⊤, List, length, map};
ghost use Rattle.network_rows.specs.declared.fault.DescFault.TheVariants.{UnknownName};
ghost use Rattle.network_rows.specs.declared.rows.LinkRow.{LinkRow};
ghost use Rattle.network_rows.specs.declared.rows.OutageRow.{OutageRow};
ghost use Rattle.network.specs.Rows.{when};
ghost use Rattle.network.specs.Names.{names_of, number_of};
ghost use Rattle.network.specs.Plan.{byte_ns_of, link_plan, outage_plan};
ghost use Rattle.network.specs.Faults.{is_unknown, unknown_at_node, unknown_at_link, unknown_at_outage, unknown_names};
ghost use Rattle.network_paths.specs.Findings.{Finds};
ghost use Rattle.network_faults.specs.Packed.{no_lists, packed_lists_of, packed_lists_in};
ghost use Rattle.network_faults.specs.RowLists.{row_lists_in, Gives};

use crate::each::{Review, check_each, key_at, row_at};
use crate::names::Names;
use crate::packing::{PackedRows, Vls};
use crate::streams::number_streams;
use network::{Link, Outage};
use network_rows::{DescFault, Key, LinkRow, OutageRow, Place, Rows, Section};
use row_types::{NodeRow, Rate};
use std::alloc::Global;

/// Checks that the row at this place has no unknown key.
pub fn check_keys(has_unknown_key: bool, place: Place) -> Result<(), DescFault>
    ensures { Finds result (when has_unknown_key (UnknownName place)) }
{
    if has_unknown_key {
        return Err(DescFault::UnknownName(place));
    }
    Ok(())
}

/// Returns the number of the node with this name, which is at this place.
pub fn node_at(names: &Names, name: &str, place: Place) -> Result<usize, DescFault>
    ensures { Gives (λ n. n) result (when (is_unknown (names_of names.now.nodes.now) name.now) (UnknownName place)) (number_of (names_of names.now.nodes.now) name.now) }
{
    match names.number(name) {
        Some(number) => Ok(number),
        None => Err(DescFault::UnknownName(place)),
    }
}

/// Checks that no row of a node has an unknown key.
#[derive(Drop)]
struct NodeKeys {}

impl Review for NodeKeys {
    type Row = NodeRow;

    type Seen = ();

    ghost faults = { λ _. unknown_at_node };

    ghost saw = { λ _ _ _. ⊤ };

    fn review(&self, _seen: &mut (), i: usize, row: &NodeRow) -> Result<(), DescFault> {
        check_keys(row.has_unknown_key, row_at(Section::Node, i))
    }
}

/// Returns how long a byte takes at this rate, in ns.
fn byte_ns(rate: Rate) -> u16
    ensures { result ≡ byte_ns_of rate }
{
    match rate {
        Rate::Mbit10 => 800,
        Rate::Mbit100 => 80,
        Rate::Mbit1000 => 8,
    }
}

/// Makes the link of the row number `i`, counted from 0.
fn link_of(names: &Names, i: usize, row: &LinkRow) -> Result<Link, DescFault>
    requires { i + 1 < 2 ^ 64 }
    ensures { (earlier : List LinkRow) → length earlier ≡ i →
        Gives (λ link. link) result (unknown_at_link (names_of names.now.nodes.now) earlier row.now) (link_plan (names_of names.now.nodes.now) row.now) }
{
    check_keys(row.has_unknown_key, row_at(Section::Link, i))?;
    let a = node_at(names, row.a.as_str(), key_at(Section::Link, i, Key::A))?;
    let b = node_at(names, row.b.as_str(), key_at(Section::Link, i, Key::B))?;
    Ok(Link {
        a,
        b,
        byte_ns: byte_ns(row.mbit),
        propagation_ns: row.propagation_ns,
    })
}

/// Makes the links of rows.
#[derive(Drop)]
struct Links<'a, 'b> {
    names: &'a Names<'b>,
}

impl<'a, 'b> Review for Links<'a, 'b> {
    type Row = LinkRow;

    type Seen = Vec<Link>;

    ghost faults = { λ s. unknown_at_link (names_of s.names.now.nodes.now) };

    ghost saw = { λ s made rows. made.items ≡ map (link_plan (names_of s.names.now.nodes.now)) rows };

    fn review(&self, made: &mut Vec<Link>, i: usize, row: &LinkRow) -> Result<(), DescFault> {
        let link = link_of(self.names, i, row)?;
        made.push(link)?;
        Ok(())
    }
}

/// Makes the outage of the row number `i`, counted from 0.
fn outage_of(names: &Names, i: usize, row: &OutageRow) -> Result<Outage, DescFault>
    requires { i + 1 < 2 ^ 64 }
    ensures { (earlier : List OutageRow) → length earlier ≡ i →
        Gives (λ outage. outage) result (unknown_at_outage (names_of names.now.nodes.now) earlier row.now) (outage_plan (names_of names.now.nodes.now) row.now) }
{
    check_keys(row.has_unknown_key, row_at(Section::Outage, i))?;
    let from = node_at(
        names,
        row.from.as_str(),
        key_at(Section::Outage, i, Key::From),
    )?;
    let to = node_at(names, row.to.as_str(), key_at(Section::Outage, i, Key::To))?;
    Ok(Outage {
        from,
        to,
        from_ns: row.from_ns,
        to_ns: row.to_ns,
    })
}

/// Makes the outages of rows.
#[derive(Drop)]
struct Outages<'a, 'b> {
    names: &'a Names<'b>,
}

impl<'a, 'b> Review for Outages<'a, 'b> {
    type Row = OutageRow;

    type Seen = Vec<Outage>;

    ghost faults = { λ s. unknown_at_outage (names_of s.names.now.nodes.now) };

    ghost saw = { λ s made rows. made.items ≡ map (outage_plan (names_of s.names.now.nodes.now)) rows };

    fn review(&self, made: &mut Vec<Outage>, i: usize, row: &OutageRow) -> Result<(), DescFault> {
        let outage = outage_of(self.names, i, row)?;
        made.push(outage)?;
        Ok(())
    }
}

/// Packs the rows with numbers in place of names, if each key and each name is known.
pub fn number_rows(
    alloc: Global,
    packed: &mut PackedRows,
    names: &Names,
    rows: &Rows,
) -> Result<(), DescFault>
    requires names { names.now.nodes.now ≡ rows.now.nodes }
    requires none { packed_lists_of packed.old ≡ no_lists }
    ensures { Gives (λ _. packed_lists_of packed.new) result (unknown_names rows.now) (packed_lists_in (row_lists_in rows.now)) }
{
    let top = Place {
        section: Section::Top,
        row: None,
        key: None,
    };
    check_keys(rows.has_unknown_key, top)?;
    check_each(&NodeKeys {}, &mut (), rows.nodes.as_slice())?;
    check_each(&Links { names }, &mut packed.links, rows.links.as_slice())?;
    check_each(
        &Outages { names },
        &mut packed.outages,
        rows.outages.as_slice(),
    )?;
    check_each(&Vls { names }, &mut packed.vls, rows.vls.as_slice())?;
    number_streams(alloc, &mut packed.streams, rows)
}
