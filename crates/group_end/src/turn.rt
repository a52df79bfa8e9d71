//! Turns that one thread gives, which holds the exchange and all groups.
ghost use Rattle.std.specs.Prelude.{◌≡◌, ◌⊎◌, ◌≤◌, length, Err, IfErr, IfOk, OnOk};
ghost use Rattle.vlink.specs.Order.{message_order};
ghost use Rattle.virtual_time.specs.Law.{Laws};
ghost use Rattle.reverse.specs.Rules.{rules_of};
ghost use Rattle.reverse.specs.Setting.{simulation_of};
ghost use Rattle.group_exchange.specs.Views.{is_of, world_after};
ghost use Rattle.group_exchange.specs.Effects.{CanDoMore, Works};
ghost use Rattle.journal.specs.declared.fault.PoolFault.TheVariants.{Exhausted, JournalFull, OutOfMemory};
ghost use Rattle.group_end.specs.Together.{AreInPlace, HasRested, HaveRested, IsRefusal, TookRound, TookTurn, UsesUp};

use crate::leaving::RowsLeave;
use group_exchange::{Group, GroupExchange, GroupRun, collect, post, work};
use journal::{Gate, PoolFault};
use reverse::Actor;

/// The group works. `Exhausted`: after the steps of the journal, and those of its block, a process of it lacks numbers.
fn worked<R: Actor, J: GroupRun<R>, G: Gate>(
    exchange: &GroupExchange<R, J>,
    group: &mut Group<R, J>,
    turn: u32,
    window: u64,
    gate: &G,
) -> Result<u64, PoolFault>
    ensures ok { IfOk result (λ count. Works (simulation_of (rules_of R.plain) J.setting) J.owners turn window group.old group.new count) }
    ensures used_up { result ≡ Err Exhausted → UsesUp (simulation_of (rules_of R.plain) J.setting) J.owners }
    ensures faults { IfErr result (λ fault. (fault ≡ OutOfMemory) ⊎ (fault ≡ Exhausted)) }
{
    match work(group, turn, window, gate) {
        Ok(count) => Ok(count),
        Err(fault) => {
            let _groups = exchange.groups();
            let _fits = exchange.fits(group);
            Err(fault)
        }
    }
}

/// Gives a group a turn: what it did before is posted, it takes its letters, works, and posts that. Then its rows leave, if they do.
fn give_turn<R: Actor, J: GroupRun<R>, G: Gate, L: RowsLeave<R, J>>(
    exchange: &mut GroupExchange<R, J>,
    group: &mut Group<R, J>,
    turn: u32,
    window: u64,
    gate: &G,
    rows: &L,
) -> Result<(), PoolFault>
    requires some { 1 ≤ turn }
    requires ahead { 1 ≤ window }
    ensures limit { exchange.new.limit ≡ exchange.old.limit }
    ensures number { OnOk result (group.new.number ≡ group.old.number) }
    ensures rested { OnOk result (HasRested message_order J.setting.until (world_after (simulation_of (rules_of R.plain) J.setting) exchange.old.steps).gvt group.new) }
    ensures turn { OnOk result (TookTurn (simulation_of (rules_of R.plain) J.setting) (is_of J.owners group.old.number) exchange.old.steps exchange.new.steps) }
    ensures used_up { result ≡ Err Exhausted → UsesUp (simulation_of (rules_of R.plain) J.setting) J.owners }
    ensures long { result ≡ Err JournalFull → CanDoMore (simulation_of (rules_of R.plain) J.setting) exchange.old.limit }
    ensures faults { IfErr result IsRefusal }
{
    group.stands_law();
    post(group, exchange)?;
    collect(group, exchange)?;
    let _count = worked(exchange, group, turn, window, gate)?;
    group.stands_law();
    post(group, exchange)?;
    rows.let_go(group)
}

/// Gives each group a turn, in order.
pub(crate) fn take_turns<R: Actor, J: GroupRun<R>, G: Gate, L: RowsLeave<R, J>>(
    exchange: &mut GroupExchange<R, J>,
    groups: &mut [Group<R, J>],
    turn: u32,
    window: u64,
    gate: &G,
    rows: &L,
) -> Result<(), PoolFault>
    requires laws { Laws (simulation_of (rules_of R.plain) J.setting) }
    requires in_place { AreInPlace groups.old }
    requires all { length groups.old ≡ length J.names }
    requires some { 1 ≤ turn }
    requires ahead { 1 ≤ window }
    ensures limit { exchange.new.limit ≡ exchange.old.limit }
    ensures in_place { OnOk result (AreInPlace groups.new) }
    ensures rested { OnOk result (HaveRested message_order J.setting.until (world_after (simulation_of (rules_of R.plain) J.setting) exchange.old.steps).gvt (length groups.new) groups.new) }
    ensures round { OnOk result (TookRound (simulation_of (rules_of R.plain) J.setting) exchange.old.steps exchange.new.steps) }
    ensures used_up { result ≡ Err Exhausted → UsesUp (simulation_of (rules_of R.plain) J.setting) J.owners }
    ensures long { result ≡ Err JournalFull → CanDoMore (simulation_of (rules_of R.plain) J.setting) exchange.old.limit }
    ensures faults { IfErr result IsRefusal }
{
    let _groups = exchange.groups();
    for place in 0..groups.len() {
        give_turn(exchange, &mut groups[place], turn, window, gate, rows)?;
    }
    Ok(())
}
