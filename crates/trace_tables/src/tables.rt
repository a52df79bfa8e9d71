//! The tables of a run: latencies and losses.
ghost use Rattle.std.specs.Prelude.{◌≡◌, IfOk};
ghost use Rattle.trace_tables.specs.Tables.{tables_of};

use crate::destination::Destination;
use crate::latencies::Latencies;
use crate::loss::Loss;
use crate::so_far::TablesSoFar;
use network::Network;
use std::alloc::{AllocError, Global};
use std::collections::BTreeMap;
use std::marker::Model;
use vlink::Row;

/// The tables of a run: for each virtual link and each of its destinations the latencies there, and how many frames were dropped, by
/// virtual link, process and cause. All are identified by their numbers, so that the tables can be read without the network.
///
/// Clauses see it as its two tables. Latencies are in ns.
#[derive(Drop)]
pub struct Tables {
    latencies: BTreeMap<Destination, Latencies>,
    drops: BTreeMap<Loss, u64>,
}

impl Model for Tables {
    ghost use Rattle.trace_tables.specs.Tables.{TableLists};

    ghost Value = { TableLists };

    ghost view = { λ t. record { latencies = t.latencies.entries; drops = t.drops.entries } };
}

impl Tables {
    /// Makes the tables of these rows of a network. A row whose virtual link or process the network lacks is not counted, nor is a delivery
    /// at a process that is no destination of its virtual link. It fails only if memory is refused.
    pub fn of(alloc: Global, network: &Network, rows: &[Row]) -> Result<Tables, AllocError>
        ensures { IfOk result (λ tables. tables ≡ tables_of network.now rows.now) }
    {
        let mut tables = TablesSoFar::none(alloc, network)?;
        tables.count(network, rows)?;
        tables.tables(network)
    }

    /// Makes tables of these two parts.
    pub(crate) fn new(
        latencies: BTreeMap<Destination, Latencies>,
        drops: BTreeMap<Loss, u64>,
    ) -> Tables
        ensures { result ≡ record { latencies = latencies.entries; drops = drops.entries } }
    {
        Tables { latencies, drops }
    }

    /// Returns the latencies at each destination of each virtual link.
    pub fn latencies(&self) -> &BTreeMap<Destination, Latencies>
        ensures { result.now.entries ≡ self.now.latencies }
    {
        &self.latencies
    }

    /// Returns the count of each loss.
    pub fn drops(&self) -> &BTreeMap<Loss, u64>
        ensures { result.now.entries ≡ self.now.drops }
    {
        &self.drops
    }
}
