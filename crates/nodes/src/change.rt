//! What an event changed in a node, and where.
//! Inlined functions return a change, and do not write it behind `&mut`: a change that is dropped is then never made.
ghost use Rattle.std.specs.Prelude.{◌≡◌, option_map};
ghost use Rattle.output_port.specs.declared.event.PortRecord.TheVariants as saved;
ghost use Rattle.output_port.specs.declared.event.PutRecord.{PutRecord};
ghost use Rattle.nodes.specs.rules.Ports.{port_change};
ghost use Rattle.nodes.specs.rules.Switch.{transit_change};

use crate::copies::CopiesRecord;
use crate::receiving::ReceivingRecord;
use bag_regulator::RegRecord;
use output_port::{PortRecord, PutRecord};
use policer::AccountRecord;

/// What an event changed in a node: the place of the element that it changed, and the record of that element.
#[derive(Clone, Copy)]
pub enum Change {
    /// No element changed.
    Nothing,
    /// The regulator of a virtual link that the node sends, and the ports to which copies of its frame were put.
    Source {
        place: u16,
        copies: CopiesRecord,
        kept: RegRecord,
    },
    /// The checks of a virtual link that the node receives.
    Reception {
        place: u16,
        kept: ReceivingRecord,
    },
    /// The account of a virtual link that goes through the node.
    Transit {
        place: u16,
        kept: AccountRecord,
    },
    /// A port.
    Outlet {
        port: u8,
        kept: PortRecord,
    },
}

impl Change {
    /// Makes the change of an account, if it judged the frame.
    #[inline(always)]
    pub(crate) fn of_transit(place: u16, kept: Option<AccountRecord>) -> Self
        ensures { result ≡ transit_change place kept }
    {
        match kept {
            Some(kept) => Change::Transit { place, kept },
            None => Change::Nothing,
        }
    }

    /// Makes the change of a frame put to a port, if the port exists.
    #[inline(always)]
    pub(crate) fn of_put(port: u8, kept: Option<PutRecord>) -> Self
        ensures { result ≡ port_change port (option_map (λ (k : PutRecord). saved.Put k) kept) }
    {
        match kept {
            Some(kept) => Change::Outlet {
                port,
                kept: PortRecord::Put(kept),
            },
            None => Change::Nothing,
        }
    }

    /// Makes the change of an event at a port, if the port exists.
    #[inline(always)]
    pub(crate) fn of_port(port: u8, kept: Option<PortRecord>) -> Self
        ensures { result ≡ port_change port kept }
    {
        match kept {
            Some(kept) => Change::Outlet { port, kept },
            None => Change::Nothing,
        }
    }
}
