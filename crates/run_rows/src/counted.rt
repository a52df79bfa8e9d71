//! The tables of a run, of the rows that are counted while it goes on.
ghost use Rattle.std.specs.Prelude.{◌≡◌, ◌<◌, ◌≤◌, ℕ, length, replicate, IfOk, IfSome};
ghost use Rattle.run_rows.specs.Counts.{moment_at, moment_of, AreCountedBefore, IsPartOfGroup};

use crate::lawful_rows::rows_law;
use crate::row_tables::RowTables;
use crate::run_batch::RunBatch;
use network::Network;
use network_runs::NetworkRun;
use std::alloc::{AllocError, Global};
use std::marker::PhantomData;
use trace_tables::batches_in_order_law;
use vlink::{Row, Time};

/// The tables of rows of a run that can no longer change, or none if memory was refused. Of each group they count the rows before a moment
/// of its own, if one is listed, and otherwise before the moment `end`. By its type they are those of the rows that the one-thread run of
/// the network has there.
#[derive(Drop)]
pub struct Counted<J: NetworkRun> {
    pub tables: Option<RowTables<J>>,
    pub own: Vec<Time>,
    pub end: Time,
    of: PhantomData<J>,
    pub ghost of_run: { ∥ IfSome tables (AreCountedBefore J.plan (moment_at J.owners own.items end)) ∥₁ },
}

/// Returns the moment before which the rows of a group are counted.
pub fn moment_of(own: &[Time], end: Time, group: usize) -> Time
    ensures { result ≡ moment_of own.now end group }
{
    match own.get(group) {
        Some(moment) => *moment,
        None => end,
    }
}

/// Makes the moment 0 for each of `groups` groups.
fn first_moments(alloc: Global, groups: usize) -> Result<Vec<Time>, AllocError>
    ensures { IfOk result (λ own. own.items ≡ replicate groups 0) }
{
    vec![in alloc; Time::default(); groups]
}

impl<J: NetworkRun> Counted<J> {
    /// Makes a counter of no rows, in which no group has a moment of its own. Only memory can be refused.
    pub fn none(alloc: Global, network: &Network) -> Result<Self, AllocError>
        requires { network.now ≡ J.plan }
    {
        Counted::with_moments(alloc, network, Vec::new(alloc))
    }

    /// Makes a counter of no rows, in which each of `groups` groups has a moment of its own. Only memory can be refused.
    pub fn each(alloc: Global, network: &Network, groups: u16) -> Result<Self, AllocError>
        requires { network.now ≡ J.plan }
    {
        let own = first_moments(alloc, usize::from(groups))?;
        Counted::with_moments(alloc, network, own)
    }

    /// Makes a counter of no rows, in which the groups have these moments, all of them 0. Only memory can be refused.
    fn with_moments(alloc: Global, network: &Network, own: Vec<Time>) -> Result<Self, AllocError>
        requires network { network.now ≡ J.plan }
        requires first { (p : ℕ) → moment_of own.items 0 p ≡ 0 }
    {
        Ok(Counted {
            tables: Some(RowTables::none(alloc, network)?),
            own,
            end: Time::default(),
            of: PhantomData,
        })
    }

    /// Counts the rows of the next batch of the run; no group has a moment of its own. If memory is refused, no tables exist from then on.
    /// A batch that begins elsewhere than the last one ended is not counted, and changes nothing.
    pub fn take(&mut self, network: &Network, batch: &RunBatch<J>)
        requires { network.now ≡ J.plan }
    {
        rows_law(network);
        batches_in_order_law();
        let batch = &batch.batch;
        if !self.own.is_empty() || batch.from().ns() != self.end.ns() {
            return;
        }
        let Some(tables) = self.tables.take() else {
            return;
        };
        let Ok(tables) = tables.with(network, batch.rows()) else {
            return;
        };
        self.tables = Some(tables);
        self.end = batch.to();
    }

    /// Counts rows of a group, from its moment on up to this one, which is its moment from then on. It fails only if memory is or was
    /// refused; then no tables exist from then on.
    pub fn take_of_group(
        &mut self,
        network: &Network,
        group: usize,
        to: Time,
        rows: &[Row],
    ) -> Result<(), AllocError>
        requires network { network.now ≡ J.plan }
        requires listed { group < length self.old.own.items }
        requires later { moment_of self.old.own.items self.old.end group ≤ to }
        requires of_group { IsPartOfGroup J.plan J.owners group (moment_of self.old.own.items self.old.end group) to rows.now }
    {
        rows_law(network);
        batches_in_order_law();
        let Some(tables) = self.tables.take() else {
            return Err(AllocError);
        };
        let tables = tables.with(network, rows)?;
        self.tables = Some(tables);
        self.own[group] = to;
        Ok(())
    }
}
