//! Two halves of a mark for each process of a run.
ghost use Rattle.std.specs.Prelude.{◌≡◌, ℕ, List, map, replicate, length, ◌+◌, OnOk, IfOk, IfErr};
ghost use Rattle.journal.specs.declared.fault.PoolFault.TheVariants.{OutOfMemory};
ghost use Rattle.process_exchange.specs.Views.{unplaced};

use crate::mark::Standing;
use halves::{LeftHalf, RightHalf, pair};
use journal::PoolFault;
use std::alloc::Global;
use std::marker::Model;
use vlink::Time;

/// Pairs of halves of marks, in order, before an exchange and its processes get them. They have no bytes. Clauses see their names.
#[derive(Drop)]
pub struct Pairs {
    pub(crate) lefts: Vec<LeftHalf<Standing>>,
    pub(crate) rights: Vec<RightHalf<Standing>>,
}

impl Model for Pairs {
    ghost use Rattle.std.specs.Prelude.{◌≡◌, ℕ, List, map, replicate, length};
    ghost use Rattle.process_exchange.specs.Views.{unplaced};

    ghost Value = { List ℕ };

    ghost view = { λ p. map (λ b. b.name) p.lefts.items };

    ghost invariant = { λ p. (map (λ s. s.name) p.rights.items ≡ map (λ b. b.name) p.lefts.items)
        × (map (λ b. b.value) p.lefts.items ≡ replicate (length p.lefts.items) unplaced)
        × (map (λ s. s.value) p.rights.items ≡ replicate (length p.rights.items) unplaced) };
}

impl Pairs {
    /// Makes `count` pairs, under new names. They state no entry yet. Only memory can be refused.
    pub fn new(alloc: Global, count: usize) -> Result<Pairs, PoolFault>
        ensures count { IfOk result (λ pairs. length pairs ≡ count) }
        ensures memory { IfErr result (λ fault. fault ≡ OutOfMemory) }
    {
        let blank = Standing {
            last: None,
            seen: Time::default(),
        };
        let mut pairs = Pairs {
            lefts: Vec::new(alloc),
            rights: Vec::new(alloc),
        };
        for made in 0..count {
            pairs.add(&blank)?;
        }
        Ok(pairs)
    }

    /// Adds one pair, which states no entry.
    fn add(&mut self, mark: &Standing) -> Result<(), PoolFault>
        requires { mark.now ≡ unplaced }
        ensures more { OnOk result (length self.new ≡ length self.old + 1) }
        ensures memory { IfErr result (λ fault. fault ≡ OutOfMemory) }
    {
        self.lefts.reserve(1)?;
        self.rights.reserve(1)?;
        let (left, right) = pair(mark);
        self.lefts.push_reserved(left);
        self.rights.push_reserved(right);
        Ok(())
    }
}
