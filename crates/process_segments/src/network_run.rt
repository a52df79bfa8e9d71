//! The run of a network to which an exchange and its processes belong.
use network_runs::NetworkRun;
use nodes::Node;
use process_exchange::ActorRun;
use std::marker::PhantomData;

/// The run of a network, as a run of its nodes and lines.
pub struct Of<J: NetworkRun> {
    of: PhantomData<J>,
}

impl<J: NetworkRun> ActorRun<Node> for Of<J> {
    ghost use Rattle.network_actors.specs.Networks.{setting_of};

    ghost setting = { setting_of J.plan };

    ghost keeps = { J.keeps };

    ghost names = { J.names };
}
