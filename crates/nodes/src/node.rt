//! A process of the simulation: an end system, a switch or a line.
ghost use Rattle.std.specs.Prelude.{◌≡◌, ◌+◌, ◌<◌, ◌≤◌};
ghost use Rattle.vlink.specs.declared.time.TheConstants.{GREATEST_NS};
ghost use Rattle.std.specs.Option.{option_copied};
ghost use Rattle.vlink.specs.Numbering.{greatest_number};
ghost use Rattle.nodes.specs.rules.Node.{after, sends, notes, port_in, regulator_in};
ghost use Rattle.nodes.specs.undoing.Node.{node, IsNodeValue};
ghost use Rattle.nodes.specs.rules.Placed.{IsPlacedEquipment};
ghost use Rattle.reverse.specs.declared.sends.TheConstants.{MOST_SENT};

use crate::change::Change;
use crate::equipment::Equipment;
use bag_regulator::BagRegulator;
use output_port::Port;
use reverse::{Actor, Outbound, Reversible, Sends};
use sender::Sender;
use std::marker::Model;
use vlink::{Message, Time, VlId};

/// What an undo of an event of a node needs: how many messages the event sent, and what it changed.
#[derive(Clone, Copy)]
pub struct NodeRecord {
    pub sends: u8,
    pub change: Change,
}

/// A node of a network, or one direction of a link, as a process that handles messages.
///
/// Clauses see its number, the end of the run and the number of its next message, and the state of its equipment.
pub struct Node {
    sender: Sender,
    equipment: Equipment,
}

impl Model for Node {
    ghost use Rattle.nodes.specs.rules.Node.{NodeState};
    ghost use Rattle.nodes.specs.rules.Placed.{IsPlacedEquipment};

    ghost Value = { NodeState };

    ghost view = { λ n. record { sender = n.sender; equipment = n.equipment } };

    ghost invariant = { λ n. IsPlacedEquipment n.equipment };
}

impl Drop for Node {
    fn drop(self) {
        let Self {
            sender: _,
            equipment: _,
        } = self;
    }
}

impl Node {
    /// Makes a process that has sent nothing yet.
    pub(crate) fn of_equipment(number: u16, until: Time, equipment: Equipment) -> Self
        requires placed { IsPlacedEquipment equipment }
        requires until { until < GREATEST_NS }
        ensures { result ≡ record { sender = record { number = number; until = until; counter = 0 }; equipment = equipment } }
    {
        Node {
            sender: Sender::new(number, until),
            equipment,
        }
    }

    /// Handles a message, and leaves in `out` what the node sends and notes, in place of the previous contents. Returns the record by which
    /// the message is undone.
    #[inline(always)]
    fn step(&mut self, event: &Message, out: &mut Outbound) -> NodeRecord
        requires { self.old.sender.counter + MOST_SENT ≤ greatest_number }
        ensures state { self.new ≡ after self.old event.now }
        ensures messages { out.new.messages ≡ sends self.old event.now }
        ensures notes { out.new.notes ≡ notes self.old event.now }
        ensures saved { result ≡ node.saves self.old event.now }
        ensures valid { IsNodeValue self.old event.now }
    {
        self.sender.open(out);
        let change = self.equipment.handle(event, out);
        self.sender.go_on(out);
        NodeRecord {
            sends: out.messages().len() as u8,
            change,
        }
    }

    /// Returns the number of the next message that the node sends.
    pub fn counter(&self) -> u64
        ensures { result ≡ self.now.sender.counter }
    {
        self.sender.counter()
    }

    /// Returns the regulator of a virtual link, if the node is an end system that sends it.
    pub fn regulator(&self, vl: VlId) -> Option<&BagRegulator>
        ensures { option_copied result ≡ regulator_in self.now.equipment vl }
    {
        self.equipment.regulator(vl)
    }

    /// Returns the output port with this number, if the node has one. Port 0 of an end system is that of network A, port 1 that of network
    /// B.
    pub fn port(&self, port: u8) -> Option<&Port>
        ensures { option_copied result ≡ port_in self.now.equipment port }
    {
        self.equipment.port(port)
    }
}

impl Reversible for Node {
    ghost use Rattle.std.specs.Prelude.{◌+◌, ◌≤◌};
    ghost use Rattle.reverse.specs.declared.sends.TheConstants.{MOST_SENT};
    ghost use Rattle.vlink.specs.Numbering.{greatest_number};
    ghost use Rattle.nodes.specs.undoing.Node.{node, IsNodeValue};
    ghost use Rattle.nodes.specs.laws.Node.{node-undoes};

    type Event = Message;

    type Out = Sends;

    type Record = NodeRecord;

    ghost plain = { node };

    ghost is_value = { IsNodeValue };

    ghost can_apply = { λ s. s.sender.counter + MOST_SENT ≤ greatest_number };

    ghost undoes = { node-undoes };

    fn apply(&mut self, event: &Message) -> (Sends, NodeRecord) {
        let mut out = Outbound::new(0, Time::default(), 0);
        let kept = self.step(event, &mut out);
        (out.close(), kept)
    }

    fn undo(&mut self, _event: &Message, kept: NodeRecord) {
        self.sender.take_back(kept.sends);
        self.equipment.take_back(&kept.change);
    }
}

impl Actor for Node {
    ghost use Rattle.nodes.specs.rules.Placed.{IsPlaced};
    ghost use Rattle.nodes.specs.laws.Node.{number-stays, end-stays, sends-own, sends-timely, sends-numbered, counter-grows};
    ghost use Rattle.nodes.specs.laws.NodeSending.{place-stays, sends-later};

    ghost number = { λ s. s.sender.number };

    ghost end = { λ s. s.sender.until };

    ghost is_placed = { IsPlaced };

    ghost numbers_suffice = { λ s h. h };

    ghost number_stays = { number-stays };

    ghost end_stays = { end-stays };

    ghost place_stays = { λ s e h. place-stays s e h };

    ghost own_sends = { sends-own };

    ghost later_sends = { λ s e h. sends-later s e h };

    ghost timely_sends = { sends-timely };

    ghost numbered_sends = { sends-numbered };

    ghost counter_grows = { counter-grows };

    fn id(&self) -> u16 {
        self.sender.number()
    }

    fn until(&self) -> Time {
        self.sender.until()
    }

    fn has_numbers(&self) -> bool {
        self.sender.has_numbers()
    }

    #[inline(always)]
    fn handle(&mut self, event: &Message, out: &mut Outbound) -> NodeRecord {
        self.step(event, out)
    }
}
