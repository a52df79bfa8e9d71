//! Rounds until the world is finished: in each one GVT is set, and each group has a turn.
ghost use Rattle.std.specs.Prelude.{◌≡◌, ◌<◌, ◌≤◌, ◌⊎◌, length, Err, IfErr, IfOk, OnErr, OnOk};
ghost use Rattle.virtual_time.specs.Law.{IsFinished, Laws};
ghost use Rattle.reverse.specs.Rules.{rules_of};
ghost use Rattle.reverse.specs.Setting.{simulation_of};
ghost use Rattle.group_exchange.specs.Views.{world_after};
ghost use Rattle.journal.specs.declared.fault.PoolFault.TheVariants.{Exhausted, JournalFull, OutOfMemory};
ghost use Rattle.group_exchange.specs.Effects.{CanDoMore, Publishes};
ghost use Rattle.group_end.specs.Together.{AreInPlace, AreOver, IsPublished, IsRefusal, UsesUp};

use crate::leaving::RowsLeave;
use crate::turn::take_turns;
use group_exchange::{Group, GroupExchange, GroupRun, publish};
use journal::{Gate, PoolFault};
use reverse::Actor;
use vlink::Time;

/// Sets GVT to the least of all floors and of the times of all letters on their way, and returns it.
fn set_gvt<R: Actor, J: GroupRun<R>>(exchange: &mut GroupExchange<R, J>) -> Result<Time, PoolFault>
    ensures ok { IfOk result (λ gvt. Publishes (simulation_of (rules_of R.plain) J.setting) J.owners exchange.old exchange.new gvt) }
    ensures unchanged { OnErr result (exchange.new ≡ exchange.old) }
    ensures long { result ≡ Err JournalFull → CanDoMore (simulation_of (rules_of R.plain) J.setting) exchange.old.limit }
    ensures faults { IfErr result (λ fault. (fault ≡ OutOfMemory) ⊎ (fault ≡ JournalFull)) }
{
    publish(exchange)
}

/// Gives rounds until GVT rises above this one. Returns the new one.
fn raise<R: Actor, J: GroupRun<R>, G: Gate, L: RowsLeave<R, J>>(
    exchange: &mut GroupExchange<R, J>,
    groups: &mut [Group<R, J>],
    gvt: Time,
    turn: u32,
    window: u64,
    gate: &G,
    rows: &L,
) -> Result<Time, PoolFault>
    requires laws { Laws (simulation_of (rules_of R.plain) J.setting) }
    requires in_place { AreInPlace groups.old }
    requires all { length groups.old ≡ length J.names }
    requires some { 1 ≤ turn }
    requires ahead { 1 ≤ window }
    requires published { IsPublished (simulation_of (rules_of R.plain) J.setting) exchange.old.steps gvt }
    requires before { gvt ≤ J.setting.until }
    ensures limit { exchange.new.limit ≡ exchange.old.limit }
    ensures in_place { OnOk result (AreInPlace groups.new) }
    ensures rises { IfOk result (λ new. gvt < new) }
    ensures published { IfOk result (λ new. IsPublished (simulation_of (rules_of R.plain) J.setting) exchange.new.steps new) }
    ensures used_up { result ≡ Err Exhausted → UsesUp (simulation_of (rules_of R.plain) J.setting) J.owners }
    ensures long { result ≡ Err JournalFull → CanDoMore (simulation_of (rules_of R.plain) J.setting) exchange.old.limit }
    ensures faults { IfErr result IsRefusal }
{
    loop {
        take_turns(exchange, groups, turn, window, gate, rows)?;
        let new = set_gvt(exchange)?;
        if gvt < new {
            return Ok(new);
        }
    }
}

/// Sets GVT and gives each group a turn, again and again, until the world is finished. In a turn a group posts what it did, takes its letters,
/// handles at most `turn` messages that are earlier than the GVT that it saw plus `window`, in ns, commits and posts. Behind each turn its
/// rows leave, if they do.
///
/// Its loops do finitely many rounds. What a round takes is not promised: rows that leave may wait for a lock.
///
/// The groups are all groups of the run, each at the place of its number. A refusal comes between two calls, and leaves what was done
/// before. `OutOfMemory`: memory was refused. `JournalFull`: the steps would pass the limit of the journal, so that more can be done. `Exhausted`: a process lacks
/// numbers for what its next message can send.
pub fn end<R: Actor, J: GroupRun<R>, G: Gate, L: RowsLeave<R, J>>(
    exchange: &mut GroupExchange<R, J>,
    groups: &mut [Group<R, J>],
    until: Time,
    turn: u32,
    window: u64,
    gate: &G,
    rows: &L,
) -> Result<(), PoolFault>
    requires laws { Laws (simulation_of (rules_of R.plain) J.setting) }
    requires in_place { AreInPlace groups.old }
    requires all { length groups.old ≡ length J.names }
    requires some { 1 ≤ turn }
    requires ahead { 1 ≤ window }
    requires until { until ≡ J.setting.until }
    ensures limit { exchange.new.limit ≡ exchange.old.limit }
    ensures in_place { OnOk result (AreInPlace groups.new) }
    ensures over { OnOk result (AreOver J.setting.until groups.new) }
    ensures finished { OnOk result (IsFinished (simulation_of (rules_of R.plain) J.setting) (world_after (simulation_of (rules_of R.plain) J.setting) exchange.new.steps)) }
    ensures used_up { result ≡ Err Exhausted → UsesUp (simulation_of (rules_of R.plain) J.setting) J.owners }
    ensures long { result ≡ Err JournalFull → CanDoMore (simulation_of (rules_of R.plain) J.setting) exchange.old.limit }
    ensures faults { IfErr result IsRefusal }
{
    let mut gvt = set_gvt(exchange)?;
    while gvt <= until {
        gvt = raise(exchange, groups, gvt, turn, window, gate, rows)?;
    }
    take_turns(exchange, groups, turn, window, gate, rows)
}
