//! Tables of rows that come while a run goes on.
ghost use Rattle.std.specs.Prelude.{◌≡◌, [], ◌++◌, map, IfOk, OnOk};
ghost use Rattle.trace_tables.specs.Tables.{tables_of};

use network::Network;
use network_runs::NetworkRun;
use std::alloc::{AllocError, Global};
use std::marker::{Model, PhantomData};
use std::snapshot::Snapshot;
use trace_tables::{Tables, TablesSoFar};
use vlink::Row;

/// The tables of rows so far, and these rows, which have no bytes and are read by proofs alone.
///
/// Clauses see it as the rows.
#[derive(Drop)]
pub struct RowTables<J: NetworkRun> {
    tables: TablesSoFar,
    rows: Vec<Snapshot<Row>>,
    of: PhantomData<J>,
}

impl<J: NetworkRun> Model for RowTables<J> {
    ghost use Rattle.std.specs.Prelude.{List, map};
    ghost use Rattle.vlink.specs.Letters.{Row};
    ghost use Rattle.trace_tables.specs.SoFar.{IsSoFar};

    ghost Value = { List Row };

    ghost view = { λ t. map (λ s. s.value) t.rows.items };

    ghost invariant = { λ t. ∥ IsSoFar J.plan t.tables (map (λ s. s.value) t.rows.items) ∥₁ };
}

impl<J: NetworkRun> RowTables<J> {
    /// Makes the tables of no row. Only memory can be refused.
    pub fn none(alloc: Global, network: &Network) -> Result<Self, AllocError>
        requires { network.now ≡ J.plan }
        ensures { IfOk result (λ tables. tables ≡ []) }
    {
        Ok(RowTables {
            tables: TablesSoFar::none(alloc, network)?,
            rows: Vec::new(alloc),
            of: PhantomData,
        })
    }

    /// Counts these rows after the others. Only memory can be refused.
    pub fn with(self, network: &Network, rows: &[Row]) -> Result<Self, AllocError>
        requires { network.now ≡ J.plan }
        ensures { IfOk result (λ tables. tables ≡ self ++ rows.now) }
    {
        let RowTables {
            mut tables,
            rows: mut all,
            of,
        } = self;
        tables.count(network, rows)?;
        tell_rows(&mut all, rows)?;
        Ok(RowTables {
            tables,
            rows: all,
            of,
        })
    }

    /// Returns the tables of all rows. Only memory can be refused.
    pub fn tables(self, network: &Network) -> Result<Tables, AllocError>
        requires { network.now ≡ J.plan }
        ensures { IfOk result (λ tables. tables ≡ tables_of J.plan self) }
    {
        Ok(self.tables.tables(network)?)
    }
}

/// Adds these rows behind the others. Takes no memory.
fn tell_rows(all: &mut Vec<Snapshot<Row>>, rows: &[Row]) -> Result<(), AllocError>
    ensures { OnOk result (map (λ s. s.value) all.new.items ≡ map (λ s. s.value) all.old.items ++ rows.now) }
{
    for row in rows {
        all.reserve(1)?;
        all.push_reserved(Snapshot::of(row));
    }
    Ok(())
}
