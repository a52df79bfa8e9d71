//! The results of an ended run.
ghost use Rattle.std.specs.Prelude.{◌≡◌, true, List, [], IfOk};
ghost use Rattle.vlink.specs.Letters.{Row};
ghost use Rattle.virtual_time.specs.Law.{steps};
ghost use Rattle.trace_tables.specs.Tables.{tables_of};
ghost use Rattle.seqsim.specs.Committed.{AreCommittedRows};
ghost use Rattle.seqsim.specs.Networks.{AreRowsOf};
ghost use Rattle.worker_pool.specs.Runs.{IsEnded, IsJournalOf, HaveGoneBy};

use crate::ending::Unlocked;
use network_runs::NetworkRun;
use nodes::{Node, NodeRecord};
use run_rows::{Counted, moment_of, rows_law};
use seqsim::{network_law, rows_by_process_law};
use std::alloc::{AllocError, Global};
use trace_tables::{Tables, batches_in_order_law, put_in_message_order, tables_by_place_law};
use virtual_time::headline_law;
use vlink::{Message, Note, Row, Step, Time};

impl<J: NetworkRun> Unlocked<'_, J> {
    /// Returns the steps of the run, in their order, if its journal is stored. Only memory can be refused.
    pub(crate) fn steps(&self, alloc: Global) -> Result<Vec<Step>, AllocError>
        requires ended { IsEnded J.plan J.owners self.now.exchange.steps self.now.groups.items }
        requires keeps { J.keeps ≡ true }
        ensures { IfOk result (λ steps. IsJournalOf J.plan steps.items) }
    {
        Vec::from_slice(alloc, self.exchange.inner.step_list())
    }

    /// Returns the rows of all committed events, group by group. Only memory can be refused.
    fn gathered_rows(&self, alloc: Global) -> Result<Vec<Row>, AllocError>
        requires ended { IsEnded J.plan J.owners self.now.exchange.steps self.now.groups.items }
        requires kept { HaveGoneBy [] 0 self.now.groups.items }
        ensures { IfOk result (λ rows. AreCommittedRows J.plan self.now.exchange.steps rows.items) }
    {
        network_law(self.network);
        let mut rows = Vec::new(alloc);
        for place in 0..self.groups.len() {
            let group = &self.groups[place];
            rows.extend_from_slice(group.sealed())?;
        }
        Ok(rows)
    }

    /// Returns the rows of all events, in message order. Only memory can be refused.
    pub(crate) fn rows(&self, alloc: Global) -> Result<Vec<Row>, AllocError>
        requires ended { IsEnded J.plan J.owners self.now.exchange.steps self.now.groups.items }
        requires kept { HaveGoneBy [] 0 self.now.groups.items }
        ensures { IfOk result (λ rows. AreRowsOf J.plan rows.items) }
    {
        rows_by_process_law(self.network);
        let mut rows = self.gathered_rows(alloc)?;
        put_in_message_order(&mut rows)?;
        Ok(rows)
    }

    /// Returns the tables of the run: those of the rows that were counted, and of the rows that each process has from there on. No row of
    /// it is stored.
    ///
    /// It fails only if memory is refused, or was refused while rows were counted.
    pub(crate) fn tables(&self, counted: Counted<J>) -> Result<Tables, AllocError>
        requires ended { IsEnded J.plan J.owners self.now.exchange.steps self.now.groups.items }
        requires counted { HaveGoneBy counted.own.items counted.end self.now.groups.items }
        ensures whole { IfOk result (λ tables. (rows : List Row) × AreRowsOf J.plan rows × (tables ≡ tables_of J.plan rows)) }
        ensures each { IfOk result (λ tables. (rows : List Row) → AreRowsOf J.plan rows → tables ≡ tables_of J.plan rows) }
    {
        network_law(self.network);
        rows_law(self.network);
        batches_in_order_law();
        headline_law::<Message, Node, NodeRecord, Note>();
        tables_by_place_law();
        let Counted {
            tables,
            own,
            end,
            ..
        } = counted;
        let Some(mut tables) = tables else {
            return Err(AllocError);
        };
        let behind = Time::of_known(self.network.until().ns() + 1);
        for place in 0..self.groups.len() {
            let group = &self.groups[place];
            let from = moment_of(own.as_slice(), end, place);
            tables = tables.with(self.network, group.rows_between(from, behind))?;
        }
        tables.tables(self.network)
    }
}
