//! Counts the rows of a run as they come.
ghost use Rattle.std.specs.Prelude.{◌≡◌, [], List, IfOk};
ghost use Rattle.vlink.specs.Letters.{Row};
ghost use Rattle.trace_tables.specs.SoFar.{IsSoFar};
ghost use Rattle.trace_tables.specs.Tables.{tables_of};

use actor_run::Recorder;
use network::Network;
use std::alloc::{AllocError, Global};
use trace_tables::{Tables, TablesSoFar};
use vlink::{Message, Note};

/// Counts each row in the tables of a network, and drops it.
#[derive(Drop)]
pub(crate) struct Counted<'a> {
    network: &'a Network,
    tables: TablesSoFar,
}

impl<'a> Counted<'a> {
    /// Makes a counter of rows for the tables of this network.
    pub(crate) fn none(alloc: Global, network: &'a Network) -> Result<Self, AllocError>
        ensures none { IfOk result (λ counted. IsSoFar counted.network.now counted.tables []) }
        ensures network { IfOk result (λ counted. counted.network.now ≡ network.now) }
    {
        Ok(Counted {
            network,
            tables: TablesSoFar::none(alloc, network)?,
        })
    }

    /// Returns the tables of the rows. It fails only if memory is refused.
    pub(crate) fn into_tables(self) -> Result<Tables, AllocError>
        requires { (rows : List Row) × IsSoFar self.network.now self.tables rows }
        ensures { IfOk result (λ tables. (rows : List Row) → IsSoFar self.entry.network.now self.entry.tables rows →
            tables ≡ tables_of self.entry.network.now rows) }
    {
        self.tables.tables(self.network)
    }
}

impl<'a> Recorder for Counted<'a> {
    type Purpose = Network;

    ghost has_taken = { λ counted rows. IsSoFar counted.network.now counted.tables rows };

    ghost purpose = { λ counted. counted.network.now };

    /// It stays a call of its own, so that the message stays whole in memory: inlined into the loop of the run, its fields would be copied
    /// one by one.
    #[inline(never)]
    fn take(&mut self, message: &Message, note: &Note) -> Result<(), AllocError> {
        self.tables.count_note(self.network, message, note)
    }
}
