//! The output ports of a virtual link at a switch.
ghost use Rattle.std.specs.Prelude.{◌≡◌, ◌≤◌, length};
ghost use Rattle.nodes.specs.rules.Outputs.{marked_from};
ghost use Rattle.network.specs.declared.limits.TheConstants.{GREATEST_PORTS};

use arrayvec::ArrayVec;
use network::GREATEST_PORTS;
use std::marker::Model;

/// The output ports of a virtual link at a switch. A list has them too, so that a frame goes to each without a look at the others.
///
/// Clauses see them as a mark for each port.
#[derive(Drop)]
pub struct Outputs {
    ports: ArrayVec<u8, GREATEST_PORTS>,
    marks: [bool; GREATEST_PORTS],
}

impl Model for Outputs {
    ghost use Rattle.std.specs.Prelude.{◌≡◌, Bool, List};
    ghost use Rattle.nodes.specs.rules.Outputs.{marked_from};

    ghost Value = { List Bool };

    ghost view = { λ o. o.marks };

    ghost invariant = { λ o. o.ports.items ≡ marked_from 0 o.marks };
}

impl Outputs {
    /// Makes the ports with these marks.
    pub(crate) fn new(marks: [bool; GREATEST_PORTS]) -> Self
        ensures { result ≡ marks }
    {
        let mut ports = ArrayVec::new();
        for port in 0..GREATEST_PORTS as u8 {
            if marks[usize::from(port)] {
                ports.push(port);
            }
        }
        Outputs { ports, marks }
    }

    /// Returns the ports that are marked, in ascending order.
    pub(crate) fn ports(&self) -> &[u8]
        ensures ports { result.now ≡ marked_from 0 self.now }
        ensures few { length result.now ≤ GREATEST_PORTS }
    {
        self.ports.as_slice()
    }
}
