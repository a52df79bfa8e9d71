//! The run of a network to which an exchange and its groups belong.
use group_exchange::{Group, GroupRun};
use network_runs::NetworkRun;
use nodes::Node;
use std::marker::PhantomData;
use turn_words::TurnRun;

/// A group of the run.
pub type NetworkGroup<J> = Group<Node, OfGroups<J>>;

/// The run of a network, as a run of its nodes and lines in groups.
pub struct OfGroups<J: NetworkRun> {
    of: PhantomData<J>,
}

impl<J: NetworkRun> GroupRun<Node> for OfGroups<J> {
    ghost use Rattle.seqsim.specs.Networks.{setting_of};

    ghost setting = { setting_of J.plan };

    ghost keeps = { J.keeps };

    ghost names = { J.names };

    ghost owners = { J.owners };
}

impl<J: NetworkRun> TurnRun for OfGroups<J> {
    ghost use Rattle.std.specs.Prelude.{length};

    ghost groups = { length J.names };
}
