//! A virtual link at a switch on its path.
ghost use Rattle.nodes.specs.rules.Switch.{transit_number};

use crate::finding::Numbered;
use crate::outputs::Outputs;
use output_port::Priority;
use policer::Account;
use vlink::{FrameSize, VlId};

/// A virtual link at a switch that it goes through.
#[derive(Drop)]
pub struct Transit {
    pub vl: VlId,
    /// The greatest size of its frames.
    pub smax: FrameSize,
    /// The port at which its frames come in.
    pub input: u8,
    /// The list of its output ports in which its frames wait.
    pub priority: Priority,
    /// The ports at which its frames go out.
    pub outputs: Outputs,
    pub account: Account,
}

impl Numbered for Transit {
    ghost number = { transit_number };

    fn number(&self) -> u16 {
        self.vl.0
    }
}
