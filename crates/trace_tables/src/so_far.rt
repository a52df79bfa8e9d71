//! Tables that are counted while rows come.
ghost use Rattle.std.specs.Prelude.{◌≡◌, ◌+◌, ◌-◌, ◌^◌, ◌<◌, ◌++◌, ◌∷◌, [], List, length, IfOk, OnOk};
ghost use Rattle.vlink.specs.Letters.{Row};
ghost use Rattle.trace_tables.specs.SoFar.{AreInTables, IsSoFar};
ghost use Rattle.trace_tables.specs.Tables.{tables_of};

use crate::cells::Cells;
use crate::deliveries::deliveries_of;
use crate::drops::add_known_loss;
use crate::duplicates::add_duplicates;
use crate::loss::Loss;
use crate::tables::Tables;
use network::Network;
use std::alloc::{AllocError, Global};
use std::collections::BTreeMap;
use std::marker::Model;
use vlink::{Cause, Message, Note, Row};

/// The greatest number of rows that are counted before all have come. Later rows are stored, so that no count of rows exceeds 64 bits.
const MOST: u64 = 1 << 63;

/// The tables of rows that come batch by batch. The rows need not be stored.
///
/// After an error it represents no rows, and is of no use.
///
/// Clauses see the counts, of how many rows they are, and the rows that are stored: none before 2^63 are counted. Latencies are in ns.
#[derive(Drop)]
pub struct TablesSoFar {
    cells: Cells,
    drops: BTreeMap<Loss, u64>,
    counted: u64,
    rest: Vec<Row>,
}

impl Model for TablesSoFar {
    ghost use Rattle.trace_tables.specs.SoFar.{SoFarLists};

    ghost Value = { SoFarLists };

    ghost view = { λ t. record { cells = t.cells; drops = t.drops.entries; counted = t.counted; rest = t.rest.items } };
}

/// Counts a row.
#[inline(always)]
fn count_row(
    cells: &mut Cells,
    drops: &mut BTreeMap<Loss, u64>,
    network: &Network,
    row: &Row,
) -> Result<(), AllocError>
    requires { (earlier : List Row) × AreInTables network.now earlier cells.old drops.old.entries × (length earlier < 2 ^ 64 - 1) }
    ensures { OnOk result ((earlier : List Row) → AreInTables network.now earlier cells.old drops.old.entries
        → AreInTables network.now (earlier ++ row.now ∷ []) cells.new drops.new.entries) }
{
    match row.note {
        Note::Delivered { vl, latency } => {
            cells.add_latency(network, vl, row.place, latency);
            Ok(())
        }
        Note::Dropped { vl, cause, .. } => {
            let place = row.place;
            if cause == Cause::Duplicate && cells.add_duplicate(network, vl, place) {
                return Ok(());
            }
            add_known_loss(drops, network, Loss { vl, place, cause })
        }
    }
}

/// Counts each of the rows.
fn count_each(
    cells: &mut Cells,
    drops: &mut BTreeMap<Loss, u64>,
    network: &Network,
    rows: &[Row],
) -> Result<(), AllocError>
    requires { (earlier : List Row) × AreInTables network.now earlier cells.old drops.old.entries × (length earlier + length rows.now < 2 ^ 64) }
    ensures { OnOk result ((earlier : List Row) → AreInTables network.now earlier cells.old drops.old.entries
        → AreInTables network.now (earlier ++ rows.now) cells.new drops.new.entries) }
{
    for row in rows {
        count_row(cells, drops, network, row)?;
    }
    Ok(())
}

/// Stores a row behind those that are stored.
#[cold]
#[inline(never)]
fn keep(rest: &mut Vec<Row>, message: &Message, note: &Note) -> Result<(), AllocError>
    ensures { OnOk result (rest.new.items ≡ rest.old.items ++ record { message = message.now; place = message.now.receiver; note = note.now } ∷ []) }
{
    rest.push(Row {
        message: *message,
        place: message.receiver,
        note: *note,
    })?;
    Ok(())
}

impl TablesSoFar {
    /// Makes tables of no rows. It fails only if memory is refused.
    pub fn none(alloc: Global, network: &Network) -> Result<TablesSoFar, AllocError>
        ensures { IfOk result (λ tables. IsSoFar network.now tables []) }
    {
        Ok(TablesSoFar {
            cells: Cells::none(alloc, network)?,
            drops: BTreeMap::new(alloc),
            counted: 0,
            rest: Vec::new(alloc),
        })
    }

    /// Counts these rows after the others. It fails only if memory is refused.
    ///
    /// A row whose virtual link or process the network lacks is not counted, nor is a delivery at a process that is no destination of its
    /// virtual link.
    pub fn count(&mut self, network: &Network, rows: &[Row]) -> Result<(), AllocError>
        requires { (earlier : List Row) × IsSoFar network.now self.old earlier }
        ensures { OnOk result ((earlier : List Row) → IsSoFar network.now self.old earlier → IsSoFar network.now self.new (earlier ++ rows.now)) }
    {
        if !self.rest.is_empty() || rows.len() as u64 > MOST - self.counted {
            return self.rest.extend_from_slice(rows);
        }
        count_each(&mut self.cells, &mut self.drops, network, rows)?;
        self.counted += rows.len() as u64;
        Ok(())
    }

    /// Counts the row of this note, of the event of this message at its receiver, after the others. It fails only if memory is refused.
    ///
    /// It counts what `count` counts.
    pub fn count_note(
        &mut self,
        network: &Network,
        message: &Message,
        note: &Note,
    ) -> Result<(), AllocError>
        requires { (earlier : List Row) × IsSoFar network.now self.old earlier }
        ensures { OnOk result ((earlier : List Row) → IsSoFar network.now self.old earlier →
            IsSoFar network.now self.new (earlier ++ record { message = message.now; place = message.now.receiver; note = note.now } ∷ [])) }
    {
        if !self.rest.is_empty() || self.counted >= MOST {
            return keep(&mut self.rest, message, note);
        }
        let row = Row {
            message: *message,
            place: message.receiver,
            note: *note,
        };
        count_row(&mut self.cells, &mut self.drops, network, &row)?;
        self.counted += 1;
        Ok(())
    }

    /// Returns the tables of all rows that came. It fails only if memory is refused.
    pub fn tables(self, network: &Network) -> Result<Tables, AllocError>
        requires { (rows : List Row) × IsSoFar network.now self rows }
        ensures { IfOk result (λ tables. (rows : List Row) → IsSoFar network.now self rows → tables ≡ tables_of network.now rows) }
    {
        let TablesSoFar {
            mut cells,
            mut drops,
            rest,
            ..
        } = self;
        count_each(&mut cells, &mut drops, network, rest.as_slice())?;
        let latencies = deliveries_of(&cells, network)?;
        add_duplicates(&mut drops, network, &cells)?;
        Ok(Tables::new(latencies, drops))
    }
}
