//! The equipment of a node: an end system, a switch or a line.
ghost use Rattle.std.specs.Prelude.{◌≡◌, ◌+◌, ◌≤◌, []};
ghost use Rattle.vlink.specs.Numbering.{greatest_number};
ghost use Rattle.std.specs.Option.{option_copied};
ghost use Rattle.reverse.specs.Sending.{replied};
ghost use Rattle.nodes.specs.rules.Node.{handled, port_in, regulator_in};
ghost use Rattle.nodes.specs.undoing.Changes.{undone, IsLastChange};
ghost use Rattle.reverse.specs.declared.sends.TheConstants.{MOST_SENT};

use crate::change::Change;
use crate::end_system::EndSystem;
use crate::line::Line;
use crate::switch::Switch;
use bag_regulator::BagRegulator;
use output_port::Port;
use reverse::Outbound;
use vlink::{Message, VlId};

/// The equipment of a node.
#[derive(Drop)]
pub enum Equipment {
    EndSystem(EndSystem),
    Switch(Switch),
    Line(Line),
}

impl Equipment {
    /// Handles a message, and returns what it changed.
    #[inline(always)]
    pub(crate) fn handle(&mut self, message: &Message, out: &mut Outbound) -> Change
        requires messages { out.old.messages ≡ [] }
        requires notes { out.old.notes ≡ [] }
        requires numbers { out.old.sender.counter + MOST_SENT ≤ greatest_number }
        ensures state { self.new ≡ (handled out.old.sender.number message.now self.old).equipment }
        ensures reply { out.new ≡ replied out.old (handled out.old.sender.number message.now self.old).reply }
        ensures change { result ≡ (handled out.old.sender.number message.now self.old).change }
        ensures last { IsLastChange result self.new }
    {
        match self {
            Equipment::EndSystem(end_system) => end_system.handle(message, out),
            Equipment::Switch(switch) => switch.handle(message, out),
            Equipment::Line(line) => {
                line.handle(message, out);
                Change::Nothing
            }
        }
    }

    /// Undoes the last change.
    pub(crate) fn take_back(&mut self, change: &Change)
        requires { IsLastChange change.now self.old }
        ensures { self.new ≡ undone change.now self.old }
    {
        match self {
            Equipment::EndSystem(end_system) => end_system.take_back(change),
            Equipment::Switch(switch) => switch.take_back(change),
            Equipment::Line(_) => {}
        }
    }

    /// Returns the regulator of a virtual link that the node sends.
    pub(crate) fn regulator(&self, vl: VlId) -> Option<&BagRegulator>
        ensures { option_copied result ≡ regulator_in self.now vl }
    {
        match self {
            Equipment::EndSystem(end_system) => end_system.regulator(vl),
            Equipment::Switch(_) | Equipment::Line(_) => None,
        }
    }

    /// Returns a port, if it exists.
    pub(crate) fn port(&self, port: u8) -> Option<&Port>
        ensures { option_copied result ≡ port_in self.now port }
    {
        match self {
            Equipment::EndSystem(end_system) => end_system.port(port),
            Equipment::Switch(switch) => switch.port(port),
            Equipment::Line(_) => None,
        }
    }
}
