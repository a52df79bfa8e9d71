//! Rows of single nodes.
use crate::tests::messages::{message, tell_message};
use crate::tests::playing::{Played, play_script};
use crate::tests::words::{tell, tell_number};
use network::Network;
use nodes::Node;
use output_port::Port;
use reverse::{Actor, Sends};
use std::alloc::Global;
use std::mem::forget;
use traffic::offers;
use vlink::{Cause, FrameSize, Message, Note, VlId};

// A network, the number of a process, and the messages that it receives, of which it does not see receiver, sender and number. Then what
// each message makes it send and note. Then the number of its next message with its regulator of virtual link 1 and its ports 0 and 1, as
// far as it has them, now and when the messages are undone, one after another. `none` means that the network does not have the process.
//
// Behind `offers` are the offers of a network: the first words of PCG for the state 42 and the stream 54, 2707161783 and 2068313097, leave
// 326 and 851 modulo 1001.
pub const ROWS: &str = "\
node one 0, offer@0:1.64 => 3.0.0/carry@5760:1.64.0.0.0.0 0.0.1/free@6720:0 ; | #2 (1 after 0) (busy 0) #0 (0) (idle 0)
node short 0, offer@0:1.64 => 3.0.0/carry@5760:1.64.0.0.0.0 ; | #1 (1 after 0) (busy 0) #0 (0) (idle 0)
node one 2, arrive@5860:0:1.64 arrive@5860:0:1.64 => 2.2.0/enqueue@21860:1:1.64.0.0.0.0 ; lost 1 Policed 64 ; | #1 (idle 0) (idle 0) #1 (idle 0) (idle 0) #0 (idle 0) (idle 0)
node one 2, arrive@5860:1:1.64 arrive@5860:0:9.64 arrive@5860:0:1.65 enqueue@5860:1:9.64 => lost 1 Unknown 64 ; lost 9 Unknown 64 ; lost 1 TooLong 65 ; lost 9 Unknown 64 ; | #0 (idle 0) (idle 0) #0 (idle 0) (idle 0) #0 (idle 0) (idle 0) #0 (idle 0) (idle 0) #0 (idle 0) (idle 0)
node one 2, free@100:1 free@100:9 carry@100:1.64 => ; ; ; | #0 (idle 0) (idle 0) #0 (idle 0) (idle 0) #0 (idle 0) (idle 0) #0 (idle 0) (idle 0)
node one 2, arrive@100:9:1.64 enqueue@100:24:1.64 release@100:1 => ; ; ; | #0 (idle 0) (idle 0) #0 (idle 0) (idle 0) #0 (idle 0) (idle 0) #0 (idle 0) (idle 0)
node one 0, free@100:1 arrive@100:1:1.64 enqueue@100:0:1.64 release@100:1 carry@100:1.64 => ; ; ; ; ; | #0 (0) (idle 0) #0 (0) (idle 0) #0 (0) (idle 0) #0 (0) (idle 0) #0 (0) (idle 0) #0 (0) (idle 0)
node one 3, arrive@100:0:1.64 free@100:0 offer@100:1.64 => ; ; ; | #0 #0 #0 #0
node one 3, carry@5760:1.64 => 2.3.0/arrive@5860:0:1.64.0.0.0.0 ; | #1 #0
node outage 3, carry@5760:1.64 => lost 1 Outage 64 ; | #0 #0
node outage_before 3, carry@5760:1.64 => 2.3.0/arrive@5860:0:1.64.0.0.0.0 ; | #1 #0
node narrow 2, enqueue@0:1:1.1518 enqueue@1:1:1.1518 enqueue@2:1:1.64 free@123040:1 => 5.2.0/carry@122080:1.1518.0.0.0.0 2.2.1/free@123040:1 ; ; lost 1 PortFull 64 ; 5.2.2/carry@245120:1.1518.0.0.0.0 2.2.3/free@246080:1 ; | #4 (idle 0) (busy 0) #2 (idle 0) (busy 1518) #2 (idle 0) (busy 1518) #2 (idle 0) (busy 0) #0 (idle 0) (idle 0)
node mixed 2, enqueue@0:1:1.1518 enqueue@10:1:1.64 enqueue@20:1:54.64 free@123040:1 free@129760:1 => 5.2.0/carry@122080:1.1518.0.0.0.0 2.2.1/free@123040:1 ; ; ; 5.2.2/carry@128800:54.64.0.0.0.0 2.2.3/free@129760:1 ; 5.2.4/carry@135520:1.64.0.0.0.0 2.2.5/free@136480:1 ; | #6 (idle 0) (busy 0) #4 (idle 0) (busy 64) #2 (idle 0) (busy 128) #2 (idle 0) (busy 64) #2 (idle 0) (busy 0) #0 (idle 0) (idle 0)
offers mixed, => 0.4097.0/offer@0:1.64.0 0.4150.0/offer@326:54.64.0 0.4150.1/offer@1000851:54.64.0 ;
offers shared, => 0.4097.0/offer@0:1.64.0 0.4097.1/offer@500000:1.64.1 0.4097.2/offer@1000000:1.64.0 0.4097.3/offer@1500000:1.64.1 0.4097.4/offer@2000000:1.64.0 ;
node shared 0, offer@0:1.64.2 => lost 1 QueueFull 64 ; | #0 (0) (idle 0) #0 (0) (idle 0)
node by_frames 2, arrive@5860:0:1.64 arrive@645860:0:1.64 => 2.2.0/enqueue@21860:1:1.64.0.0.0.0 ; lost 1 Policed 64 ; | #1 (idle 0) (idle 0) #1 (idle 0) (idle 0) #0 (idle 0) (idle 0)
node shallow 0, offer@0:1.64 offer@10:1.64 offer@20:1.64 free@6720:0 release@1000000:1 => 3.0.0/carry@5760:1.64.0.0.0.0 0.0.1/free@6720:0 ; 0.0.2/release@1000000:1 ; lost 1 QueueFull 64 ; ; 3.0.3/carry@1005760:1.64.1.0.10.1000000 0.0.4/free@1006720:0 ; | #5 (2 after 1000000) (busy 0) #3 (1 after 0) (idle 0) #3 (1 after 0) (busy 0) #3 (1 after 0) (busy 0) #2 (1 after 0) (busy 0) #0 (0) (idle 0)
node one 1, offer@0:1.64 => lost 1 Unknown 64 ; | #0 (idle 0) #0 (idle 0)
node one 0, arrive@27720:0:1.64 => lost 1 Unknown 64 ; | #0 (0) (idle 0) #0 (0) (idle 0)
node two 0, offer@0:1.64 => 4.0.0/carry@5760:1.64.0.0.0.0 0.0.1/free@6720:0 8.0.2/carry@5760:1.64.0.1.0.0 0.0.3/free@6720:1 ; | #4 (1 after 0) (busy 0) (busy 0) #0 (0) (idle 0) (idle 0)
node two 1, arrive@27720:0:1.64 arrive@27730:1:1.64.0.1 arrive@40000:0:1.64.3 arrive@40010:1:1.64.1.1 => delivered 1 27720 ; lost 1 Duplicate 64 ; lost 1 Integrity 64 ; delivered 1 40010 ; | #0 (idle 0) (idle 0) #0 (idle 0) (idle 0) #0 (idle 0) (idle 0) #0 (idle 0) (idle 0) #0 (idle 0) (idle 0)
node one 4, carry@0:1.64 => 0.4.0/arrive@100:0:1.64.0.0.0.0 ; | #1 #0
node one 5, carry@0:1.64 => 1.5.0/arrive@100:0:1.64.0.0.0.0 ; | #1 #0
node one 6, carry@0:1.64 => 2.6.0/arrive@100:1:1.64.0.0.0.0 ; | #1 #0
node one 7, => none
node two 2, => | #0 (idle 0) (idle 0)
node two 3, => | #0 (idle 0) (idle 0)
node two 4, carry@0:1.64 => 2.4.0/arrive@100:0:1.64.0.0.0.0 ; | #1 #0
node two 5, carry@0:1.64 => 0.5.0/arrive@100:0:1.64.0.0.0.0 ; | #1 #0
node two 6, carry@0:1.64 => 1.6.0/arrive@100:0:1.64.0.0.0.0 ; | #1 #0
node two 7, carry@0:1.64 => 2.7.0/arrive@100:1:1.64.0.0.0.0 ; | #1 #0
node two 8, carry@0:1.64.0.1 => 3.8.0/arrive@100:0:1.64.0.1.0.0 ; | #1 #0
node two 9, carry@0:1.64.0.1 => 0.9.0/arrive@100:1:1.64.0.1.0.0 ; | #1 #0
node two 10, carry@0:1.64.0.1 => 1.10.0/arrive@100:1:1.64.0.1.0.0 ; | #1 #0
node two 11, carry@0:1.64.0.1 => 3.11.0/arrive@100:1:1.64.0.1.0.0 ; | #1 #0
node two 12, => none";

impl Played for Node {
    fn event(word: &str) -> Message {
        message(word)
    }

    fn is_ready(&self) -> bool {
        self.has_numbers()
    }

    fn tell_answer(answer: &Sends, told: &mut String) {
        tell_messages(answer.messages.as_slice(), told);
        for note in answer.notes.as_slice() {
            tell_note(note, told);
        }
        tell(told, "; ");
    }

    fn tell_state(&self, told: &mut String) {
        tell(told, " #");
        tell_number(told, self.counter());
        if let Some(regulator) = self.regulator(VlId(1)) {
            regulator.tell_state(told);
        }
        tell_port(self.port(0), told);
        tell_port(self.port(1), told);
    }
}

fn tell_port(port: Option<&Port>, told: &mut String) {
    if let Some(port) = port {
        port.tell_state(told);
    }
}

fn tell_messages(messages: &[Message], told: &mut String) {
    for message in messages {
        tell_message(message, told);
    }
}

fn tell_note(note: &Note, told: &mut String) {
    match *note {
        Note::Delivered { vl, latency } => tell_delivered(vl, latency, told),
        Note::Dropped { vl, cause, size } => tell_lost(vl, cause, size, told),
    }
}

fn tell_delivered(vl: VlId, latency: u64, told: &mut String) {
    tell(told, "delivered ");
    tell_number(told, u64::from(vl.0));
    tell(told, " ");
    tell_number(told, latency);
    tell(told, " ");
}

fn tell_lost(vl: VlId, cause: Cause, size: FrameSize, told: &mut String) {
    tell(told, "lost ");
    tell_number(told, u64::from(vl.0));
    let _ = write!(told, " {cause:?} ");
    tell_number(told, u64::from(size.bytes()));
    tell(told, " ");
}

// Writes the answers of this process to the script.
pub fn tell_node(alloc: Global, network: &Network, number: u16, script: &str, told: &mut String) {
    if number >= network.process_count() {
        return tell(told, "none");
    }
    if let Ok(mut node) = Node::new(alloc, network, number) {
        play_script(alloc, &mut node, script, told);
        forget(node);
    }
}

pub fn tell_offers(alloc: Global, network: &Network, told: &mut String) {
    if let Ok(offered) = offers(alloc, network) {
        tell_messages(&offered, told);
        tell(told, ";");
        forget(offered);
    }
}
