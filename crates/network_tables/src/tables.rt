//! The tables of a network, from its rows with numbers in place of names.
ghost use Rattle.std.specs.Prelude.{◌≡◌, [], ◌∷◌, ◌++◌, slice_set, ℕ, ◌+◌, ◌*◌, ◌^◌, ◌<◌, ◌≤◌, None, Some, is_none, ◌==◌, ◌&&◌, if◌then◌else◌, All, length, map, filter, vec_len, string_bytes, slice_index_or, IfOk, OnOk};
ghost use Rattle.network.specs.Limits.{greatest_processes};
ghost use Rattle.network.specs.Plan.{node_plan};
ghost use Rattle.network.specs.Trees.{destinations_of};
ghost use Rattle.network.specs.Lines.{line_name, is_outage_of, place_of_vl};
ghost use Rattle.network.specs.Code.Tables.{plan_with, AreTables};
ghost use Rattle.network.specs.Code.Views.{lists_of, outages_at};

use crate::lines::{line_names, lines_of, outage_table};
use crate::routes::{all_destinations, meetings_of};
use network::{LinePlan, Numbered, Outage, Routed, Tables};
use network_faults::Joined;
use row_types::NodeRow;
use std::alloc::{AllocError, Global};
use vlink::VlId;

/// Appends a value to the list at a place.
pub fn put<T: Drop>(table: &mut Vec<Vec<T>>, place: usize, value: T) -> Result<(), AllocError>
    requires { place < vec_len table.old }
    ensures put { OnOk result (lists_of table.new ≡ slice_set (lists_of table.old) place (slice_index_or (lists_of table.old) place [] ++ value ∷ [])) }
    ensures len { vec_len table.new ≡ vec_len table.old }
{
    let list = &mut table[place];
    list.push(value)?;
    Ok(())
}

/// Makes `count` empty lists.
pub fn no_lists<T: Drop>(alloc: Global, count: usize) -> Result<Vec<Vec<T>>, AllocError>
    ensures empty { IfOk result (λ table. (k : ℕ) → slice_index_or (lists_of table) k [] ≡ []) }
    ensures len { IfOk result (λ table. vec_len table ≡ count) }
{
    let mut table = Vec::new(alloc);
    for _ in 0..count {
        table.push(Vec::new(alloc))?;
    }
    Ok(table)
}

/// Extends the list up to this number. The numbers that are added have no place.
fn reach(places: &mut Vec<Option<usize>>, id: VlId) -> Result<(), AllocError>
    ensures reached { OnOk result (id.0 < vec_len places.new) }
    ensures same { OnOk result ((n : ℕ) → slice_index_or places.new.items n None ≡ slice_index_or places.old.items n None) }
{
    for _ in places.len()..usize::from(id.0) + 1 {
        places.push(None)?;
    }
    Ok(())
}

/// Gives the number this place, if it has none.
fn note_place(places: &mut Vec<Option<usize>>, id: usize, place: usize)
    requires { id < vec_len places.old }
    ensures stored { (n : ℕ) → slice_index_or places.new.items n None ≡ (if (id == n) && is_none (slice_index_or places.old.items n None) then Some place else slice_index_or places.old.items n None) }
    ensures len { vec_len places.new ≡ vec_len places.old }
{
    if places[id].is_none() {
        places[id] = Some(place);
    }
}

/// Makes a list with the place of the virtual link for each number, up to the greatest number in use. So a few small numbers take little
/// memory.
pub fn places_of(alloc: Global, vls: &[Routed]) -> Result<Vec<Option<usize>>, AllocError>
    ensures { IfOk result (λ places. (id : ℕ) → slice_index_or places.items id None ≡ place_of_vl vls.now id) }
{
    let mut places = Vec::new(alloc);
    for (i, vl) in vls.iter().enumerate() {
        let agreed = vl.link();
        reach(&mut places, agreed.id)?;
        let id = usize::from(agreed.id.0);
        note_place(&mut places, id, i);
    }
    Ok(places)
}

/// Makes the tables of a network with these nodes, links, outages and virtual links.
pub fn tables_of(
    alloc: Global,
    nodes: &[NodeRow],
    numbered: &Numbered,
) -> Result<Tables, AllocError>
    requires ends { All (λ link. (link.a ≤ length nodes.now) × (link.b ≤ length nodes.now)) numbered.now.links.items }
    requires few { length nodes.now + 2 * length numbered.now.links.items ≤ greatest_processes }
    ensures { (until seed : ℕ) → IfOk result (AreTables (plan_with until seed nodes.now numbered.now)) }
{
    let joined = Joined::new(alloc, numbered.links.as_slice())?;
    tables_over(alloc, nodes, numbered, &joined)
}

/// Does the same, with the links already indexed by the nodes that they join.
fn tables_over(
    alloc: Global,
    nodes: &[NodeRow],
    numbered: &Numbered,
    joined: &Joined,
) -> Result<Tables, AllocError>
    requires joined { joined.now.links.now ≡ numbered.now.links.items }
    requires ends { All (λ link. (link.a ≤ length nodes.now) × (link.b ≤ length nodes.now)) numbered.now.links.items }
    requires few { length nodes.now + 2 * length numbered.now.links.items ≤ greatest_processes }
    ensures { (until seed : ℕ) → IfOk result (AreTables (plan_with until seed nodes.now numbered.now)) }
{
    let lines = lines_of(alloc, nodes, joined.links)?;
    let by_line = tables_by_line(
        alloc,
        nodes,
        joined,
        lines.as_slice(),
        numbered.outages.as_slice(),
    )?;
    let meetings = meetings_of(
        alloc,
        nodes.len() + 1,
        joined,
        lines.as_slice(),
        numbered.vls.as_slice(),
    )?;
    let by_vl = tables_by_vl(alloc, numbered.vls.as_slice())?;
    Ok(Tables {
        lines,
        line_names: by_line.0,
        outages: by_line.1,
        meetings,
        destinations: by_vl.0,
        places: by_vl.1,
    })
}

/// Makes the names of these lines, and the outages of each.
fn tables_by_line(
    alloc: Global,
    nodes: &[NodeRow],
    joined: &Joined,
    lines: &[LinePlan],
    outages: &[Outage],
) -> Result<(Vec<String>, Vec<Vec<Outage>>), AllocError>
    requires { length joined.now.links.now < 2 ^ 32 }
    ensures names { IfOk result (λ made. map string_bytes made.0.items ≡ map (line_name (map node_plan nodes.now)) lines.now) }
    ensures outages { IfOk result (λ made. (k : ℕ) → k < length lines.now → outages_at made.1 k ≡ filter (is_outage_of joined.now.links.now k) outages.now) }
    ensures len { IfOk result (λ made. vec_len made.1 ≡ length lines.now) }
{
    let names = line_names(alloc, nodes, lines)?;
    let outages = outage_table(alloc, lines.len(), joined, outages)?;
    Ok((names, outages))
}

/// Makes the destinations of each virtual link, and for each number the place of the virtual link that has it.
fn tables_by_vl(
    alloc: Global,
    vls: &[Routed],
) -> Result<(Vec<Vec<usize>>, Vec<Option<usize>>), AllocError>
    ensures destinations { IfOk result (λ made. lists_of made.0 ≡ map destinations_of vls.now) }
    ensures places { IfOk result (λ made. (id : ℕ) → slice_index_or made.1.items id None ≡ place_of_vl vls.now id) }
{
    let destinations = all_destinations(alloc, vls)?;
    let places = places_of(alloc, vls)?;
    Ok((destinations, places))
}
