//! The tables of what is committed.
ghost use Rattle.std.specs.Prelude.{◌≡◌, ℕ, List, map, IfOk, IfErr};
ghost use Rattle.vlink.specs.Letters.{Row};
ghost use Rattle.virtual_time.specs.declared.step.Step.{Step};
ghost use Rattle.virtual_time.specs.Law.{IsFinished};
ghost use Rattle.nodes.specs.Words.{simulation_of};
ghost use Rattle.trace_tables.specs.Tables.{tables_of};
ghost use Rattle.seqsim.specs.Networks.{AreRowsOf};
ghost use Rattle.actor_world.specs.declared.fault.StepFault.TheVariants.{OutOfMemory};
ghost use Rattle.seqsim.specs.Committed.{after, AreCommittedRows};
ghost use Rattle.timewarp.specs.Networks.{IsAfter};

use crate::laws::world_law;
use crate::world::World;
use actor_world::StepFault;
use seqsim::{layout_law, network_law};
use std::alloc::{AllocError, Global};
use trace_tables::{Tables, TablesSoFar, tables_by_place_law};

impl World {
    /// Makes the tables of the rows of all committed events, counted process by process.
    fn committed_tables(&self, alloc: Global) -> Result<Tables, AllocError>
        ensures { IfOk result (λ tables. (rows : List Row) × (tables ≡ tables_of self.now.plan rows) ×
            ((steps : List Step) → IsAfter self.now steps → AreCommittedRows self.now.plan steps rows)) }
    {
        layout_law(&self.network);
        network_law(&self.network);
        let mut tables = TablesSoFar::none(alloc, &self.network)?;
        for process in 0..self.network.process_count() {
            tables.count(&self.network, self.actors.sealed(process))?;
        }
        tables.tables(&self.network)
    }

    /// Makes the tables of the committed events. In a finished world they are those of the one-thread run. It fails only if memory is
    /// refused.
    pub fn tables(&self, alloc: Global) -> Result<Tables, StepFault>
        ensures sealed { IfOk result (λ tables. (steps : List Step) → IsAfter self.now steps → (rows : List Row) →
            AreCommittedRows self.now.plan steps rows → tables ≡ tables_of self.now.plan rows) }
        ensures rows { (steps : List Step) → IsAfter self.now steps → IfOk result (λ tables. (rows : List Row) × AreCommittedRows self.now.plan steps rows) }
        ensures whole { IfOk result (λ tables. (steps : List Step) → IsAfter self.now steps →
            IsFinished (simulation_of self.now.plan) (after self.now.plan steps) → (rows : List Row) → AreRowsOf self.now.plan rows →
            tables ≡ tables_of self.now.plan rows) }
        ensures memory { IfErr result (λ fault. fault ≡ OutOfMemory) }
    {
        network_law(&self.network);
        world_law(&self.network);
        tables_by_place_law();
        Ok(self.committed_tables(alloc)?)
    }
}
