//! Chooses which processes of a run belong together.
ghost use Rattle.std.specs.Prelude.{◌≡◌, IfOk, length};
ghost use Rattle.network.specs.Words.{process_count};
ghost use Rattle.group_choice.specs.Groups.{HaveProcesses, group_count};
ghost use Rattle.group_exchange.specs.Keeps.{AreGrouped};
ghost use Rattle.worker_pool.specs.Runs.{IsGroupingOf};

use group_choice::{groups_asked, groups_of};
use group_exchange::Pairs;
use network::Network;
use std::alloc::{AllocError, Global};

/// For each process the number of its group, from 0, and how many groups there are.
#[derive(Drop)]
pub(crate) struct Grouping {
    pub owners: Vec<u16>,
    pub groups: u16,
}

/// Groups the processes of a network into `groups` groups, but at least one, and no more than processes; and makes for each group the pair
/// of its marks. Only memory can be refused.
pub(crate) fn marked_groups(
    alloc: Global,
    network: &Network,
    groups: u16,
) -> Result<(Grouping, Pairs), AllocError>
    ensures grouped { IfOk result (λ r. IsGroupingOf network.now r.0.groups r.0.owners.items) }
    ensures count { IfOk result (λ r. r.0.groups ≡ group_count (process_count network.now) groups) }
    ensures each { IfOk result (λ r. length r.1 ≡ r.0.groups) }
{
    let grouping = grouping_of(alloc, network, groups)?;
    match Pairs::new(alloc, usize::from(grouping.groups)) {
        Ok(pairs) => Ok((grouping, pairs)),
        Err(_) => {
            drop(grouping);
            Err(AllocError)
        }
    }
}

/// Groups the processes of a network into `groups` groups, but at least one, and no more than processes. Only memory can be refused.
fn grouping_of(alloc: Global, network: &Network, groups: u16) -> Result<Grouping, AllocError>
    ensures grouped { IfOk result (λ g. IsGroupingOf network.now g.groups g.owners.items) }
    ensures count { IfOk result (λ g. g.groups ≡ group_count (process_count network.now) groups) }
{
    let groups = groups_asked(network, groups);
    if groups == network.process_count() {
        return each_alone(alloc, groups);
    }
    let owners = groups_of(alloc, network, groups)?;
    Ok(Grouping { owners, groups })
}

/// Makes each process a group.
fn each_alone(alloc: Global, processes: u16) -> Result<Grouping, AllocError>
    ensures grouped { IfOk result (λ g. AreGrouped processes g.groups g.owners.items) }
    ensures used { IfOk result (λ g. HaveProcesses processes g.owners.items) }
    ensures groups { IfOk result (λ g. g.groups ≡ processes) }
{
    let mut owners = Vec::with_capacity(alloc, usize::from(processes))?;
    for process in 0..processes {
        owners.push(process)?;
    }
    Ok(Grouping {
        owners,
        groups: processes,
    })
}
