//! Two halves of a mark for each group of a run.
ghost use Rattle.std.specs.Prelude.{◌≡◌, ◌+◌, length, OnOk, IfOk, IfErr};
ghost use Rattle.journal.specs.declared.fault.PoolFault.TheVariants.{OutOfMemory};
ghost use Rattle.group_exchange.specs.Views.{IsUnplaced};

use crate::mark::Standing;
use halves::{LeftHalf, RightHalf, pair};
use journal::PoolFault;
use std::alloc::Global;
use std::marker::Model;

/// Pairs of halves of marks, in order, before an exchange and its groups get them. They have no bytes. Clauses see their names.
#[derive(Drop)]
pub struct Pairs {
    pub(crate) lefts: Vec<LeftHalf<Standing>>,
    pub(crate) rights: Vec<RightHalf<Standing>>,
}

impl Model for Pairs {
    ghost use Rattle.std.specs.Prelude.{◌≡◌, ℕ, List, map, All};
    ghost use Rattle.group_exchange.specs.Views.{IsUnplaced};

    ghost Value = { List ℕ };

    ghost view = { λ p. map (λ b. b.name) p.lefts.items };

    ghost invariant = { λ p. (map (λ s. s.name) p.rights.items ≡ map (λ b. b.name) p.lefts.items)
        × All IsUnplaced (map (λ b. b.value) p.lefts.items) };
}

impl Pairs {
    /// Makes `count` pairs, under new names. They state no step yet. Only memory can be refused.
    pub fn new(alloc: Global, count: usize) -> Result<Pairs, PoolFault>
        ensures count { IfOk result (λ pairs. length pairs ≡ count) }
        ensures memory { IfErr result (λ fault. fault ≡ OutOfMemory) }
    {
        let mut pairs = Pairs {
            lefts: Vec::new(alloc),
            rights: Vec::new(alloc),
        };
        let blank = Standing::unplaced(alloc);
        let added = pairs.add_all(&blank, count);
        drop(blank);
        match added {
            Ok(()) => Ok(pairs),
            Err(fault) => Err(fault),
        }
    }

    /// Adds `count` pairs, which state no step.
    fn add_all(&mut self, mark: &Standing, count: usize) -> Result<(), PoolFault>
        requires { IsUnplaced mark.now }
        ensures more { OnOk result (length self.new ≡ length self.old + count) }
        ensures memory { IfErr result (λ fault. fault ≡ OutOfMemory) }
    {
        for made in 0..count {
            self.add(mark)?;
        }
        Ok(())
    }

    /// Adds one pair, which states no step.
    fn add(&mut self, mark: &Standing) -> Result<(), PoolFault>
        requires { IsUnplaced mark.now }
        ensures more { OnOk result (length self.new ≡ length self.old + 1) }
        ensures memory { IfErr result (λ fault. fault ≡ OutOfMemory) }
    {
        self.lefts.reserve(1)?;
        self.rights.reserve(1)?;
        let (left, right) = pair(mark);
        self.lefts.push_reserved(left);
        self.rights.push_reserved(right);
        Ok(())
    }
}
