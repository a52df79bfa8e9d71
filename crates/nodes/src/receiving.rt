//! The checks of one virtual link at a receiver.
ghost use Rattle.std.specs.Prelude.{◌≡◌, ◌<◌, length};
ghost use Rattle.integrity.specs.Integrity.{integrity};
ghost use Rattle.integrity.specs.declared.checking.Checked.TheVariants.{Passed};
ghost use Rattle.reverse.specs.Sending.{replied};
ghost use Rattle.nodes.specs.rules.EndSystem.{check_of, checked, received, received_kept, received_reply, redundant, with_check};
ghost use Rattle.nodes.specs.undoing.Changes.{unreceived};

use integrity::{Checked, Integrity};
use redundancy::{Delivery, Received, Redundancy};
use reverse::{Outbound, Reversible};
use vlink::{Cause, Frame, Net, Note, Time};

/// What an undo of a frame needs: the check of its network as it was, and redundancy management as it was if it saw the frame.
#[derive(Clone, Copy)]
pub struct ReceivingRecord {
    pub net: Net,
    pub check: Option<u8>,
    pub delivery: Option<Option<(u8, Time)>>,
}

/// The checks of the frames of one virtual link at a receiver: integrity checking on each network, and then redundancy management (ARINC
/// 664 Part 7).
#[derive(Clone, Copy)]
pub struct Receiving {
    pub a: Integrity,
    pub b: Integrity,
    pub redundancy: Redundancy,
}

impl Receiving {
    /// Receives a frame. It is delivered if it passes the check of its network and redundancy management then passes it; otherwise it is
    /// lost.
    #[inline(always)]
    pub fn receive(&mut self, at: Time, frame: &Frame, out: &mut Outbound) -> ReceivingRecord
        requires { length out.old.notes < 2 }
        ensures state { self.new ≡ received at frame.now self.old }
        ensures reply { out.new ≡ replied out.old (received_reply at frame.now self.old) }
        ensures kept { result ≡ received_kept frame.now self.old }
    {
        let (verdict, check) = self.check(frame);
        let delivery = match verdict {
            Checked::Passed => Some(self.deliver(at, frame, out)),
            Checked::Refused => {
                out.lose(Cause::Integrity, frame);
                None
            }
        };
        ReceivingRecord {
            net: frame.net,
            check,
            delivery,
        }
    }

    /// Undoes a frame, by its record.
    pub fn take_back(&mut self, kept: ReceivingRecord)
        ensures { self.new ≡ unreceived kept self.old }
    {
        let ReceivingRecord {
            net,
            check,
            delivery,
        } = kept;
        if let Some(last) = delivery {
            self.redundancy.take_back(last);
        }
        match net {
            Net::A => self.a.take_back(check),
            Net::B => self.b.take_back(check),
        }
    }

    /// Does the integrity check on the network of the frame.
    #[inline(always)]
    fn check(&mut self, frame: &Frame) -> (Checked, Option<u8>)
        ensures state { self.new ≡ with_check frame.now.net (integrity.after (check_of frame.now.net self.old) frame.now.number) self.old }
        ensures verdict { result.0 ≡ integrity.out (check_of frame.now.net self.old) frame.now.number }
        ensures kept { result.1 ≡ check_of frame.now.net self.old }
    {
        match frame.net {
            Net::A => self.a.apply(&frame.number),
            Net::B => self.b.apply(&frame.number),
        }
    }

    /// Does redundancy management of a frame that passed the check of its network. The latency counts from the offer, in ns.
    #[inline(always)]
    fn deliver(&mut self, at: Time, frame: &Frame, out: &mut Outbound) -> Option<(u8, Time)>
        requires { length out.old.notes < 2 }
        ensures state { self.new ≡ redundant at frame.now self.old Passed }
        ensures reply { out.new ≡ replied out.old (checked at frame.now self.old Passed) }
        ensures kept { result ≡ self.old.redundancy.last }
    {
        let received = Received {
            number: frame.number,
            at,
        };
        let (delivery, last) = self.redundancy.apply(&received);
        match delivery {
            Delivery::Delivered => out.note(Note::Delivered {
                vl: frame.vl,
                latency: at.ns().saturating_sub(frame.offered.ns()),
            }),
            Delivery::Duplicate => out.lose(Cause::Duplicate, frame),
        }
        last
    }
}
