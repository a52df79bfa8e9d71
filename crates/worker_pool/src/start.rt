//! What a run of a network begins with.
ghost use Rattle.std.specs.Prelude.{◌≡◌, length};
ghost use Rattle.std.proofs.Props.{props};
ghost use Rattle.worker_pool.specs.Runs.{IsGroupingOf};

use crate::grouping::Grouping;
use crate::pace::Pace;
use group_exchange::Pairs;
use network::Network;
use network_runs::NetworkRun;
use std::marker::PhantomData;

/// What a run begins with: its network and its pace, whether its journal is stored, its groups, and the pairs of their marks.
#[derive(Drop)]
pub(crate) struct Start<'n> {
    pub network: &'n Network,
    pub pace: Pace,
    pub keeps: bool,
    pub grouping: Grouping,
    pub pairs: Pairs,
    pub ghost grouped: { IsGroupingOf network.now grouping.groups grouping.owners.items } by { Prim.hlevel props },
    pub ghost each: { length pairs ≡ grouping.groups },
}

/// What this run begins with, by its type.
#[derive(Drop)]
pub(crate) struct StartOf<'n, J: NetworkRun> {
    pub network: &'n Network,
    pub pace: Pace,
    pub keeps: bool,
    pub grouping: Grouping,
    pub pairs: Pairs,
    of: PhantomData<J>,
    pub ghost planned: { network.now ≡ J.plan },
    pub ghost kept: { keeps ≡ J.keeps },
    pub ghost owned: { grouping.owners.items ≡ J.owners },
    pub ghost grouped: { IsGroupingOf network.now grouping.groups J.owners } by { Prim.hlevel props },
    pub ghost named: { pairs ≡ J.names },
    pub ghost each: { length J.names ≡ grouping.groups },
}

impl<'n, J: NetworkRun> StartOf<'n, J> {
    ghost use Rattle.worker_pool.specs.Starts.{BeginsRun};

    /// Gives the run its names from what it begins with.
    pub(crate) fn of(start: Start<'n>) -> Self
        requires { BeginsRun J.plan J.keeps J.names J.owners start }
        ensures pace { result.pace ≡ start.entry.pace }
        ensures groups { result.grouping.groups ≡ start.entry.grouping.groups }
    {
        let Start {
            network,
            pace,
            keeps,
            grouping,
            pairs,
            ..
        } = start;
        StartOf {
            network,
            pace,
            keeps,
            grouping,
            pairs,
            of: PhantomData,
        }
    }
}
