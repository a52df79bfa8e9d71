//! The hand of a group of processes.
ghost use Rattle.std.specs.Prelude.{◌≡◌, ◌≤◌, ◌<◌, ◌+◌, ℕ, List, [], ◌++◌, false, All, Contains, OnOk, OnErr, IfOk, IfErr, IfSome, IfNone, IsPermutation, drop, length, slice_get, take};
ghost use Rattle.vlink.specs.declared.message.Message.{Message};
ghost use Rattle.virtual_time.specs.Law.{World};
ghost use Rattle.reverse.specs.Rules.{rules_of, is_before};
ghost use Rattle.reverse.specs.Setting.{Setting};
ghost use Rattle.group_queues.specs.Block.{AddsCommits};
ghost use Rattle.group_queues.specs.DoneEvents.{DoneEvent, messages_of};
ghost use Rattle.group_hand.specs.Hands.{StandsForGroup, CommitsTold, StaysDone, IsAsBefore};
ghost use Rattle.group_queues.specs.Sealing.{rows_in};
ghost use Rattle.group_hand.specs.declared.fault.HandFault.TheVariants.{OutOfMemory};

use crate::fault::HandFault;
use crate::oldest::is_early;
use crate::rollback::Undoing;
use group_queues::{DoneEvents, Letters, Rows};
use reverse::{Actor, Outbound, actor_rules_law};
use std::alloc::Global;
use std::marker::Model;
use vlink::{Message, Row, Time};

/// The processes of a group: their actors, one queue of all messages that they have to handle, and one list of their done events.
///
/// Between calls no letter of the group is on its way to a member, and no letter waits in an outbox.
#[derive(Drop)]
pub struct Hand<R: Actor> {
    /// The actors by their numbers; none if the process is elsewhere.
    pub(crate) members: Vec<Option<R>>,
    /// The done events in the order of their messages.
    pub(crate) done: DoneEvents<R::Record>,
    /// What a rollback needs; empty between calls.
    pub(crate) undoing: Undoing<R::Record>,
    /// The rows of committed events.
    pub(crate) rows: Rows,
    pub(crate) letters: Letters,
    pub(crate) out: Outbound,
}

impl<R: Actor> Model for Hand<R> {
    ghost use Rattle.std.specs.Prelude.{◌≡◌, ℕ, []};
    ghost use Rattle.reverse.specs.Rules.{rules_of};
    ghost use Rattle.group_hand.specs.Hands.{Held};
    ghost use Rattle.group_hand.specs.Undoing.{CameTo};

    ghost Value = { Held R R.Record };

    ghost view = { λ h. record { members = h.members.items; done = h.done.events; rows = h.rows; flow = h.letters } };

    // the state of each member came from what it has done
    ghost invariant = { λ h. ((p : ℕ) → CameTo (rules_of R.plain) R.is_value h.members.items h.done.events p) × (h.undoing.aside.events ≡ []) × (h.undoing.back.items ≡ []) };
}

impl<R: Actor + Drop> Hand<R> {
    /// Makes a group that has done nothing, of these members, by their numbers, with these offers in the queue. `keeps` states whether the
    /// words of its block are stored to be read.
    pub fn new(
        alloc: Global,
        members: Vec<Option<R>>,
        offers: Vec<Message>,
        keeps: bool,
    ) -> Result<Self, HandFault>
        ensures members { IfOk result (λ hand. hand.members ≡ members.items) }
        ensures queue { IfOk result (λ hand. IsPermutation offers.items hand.flow.queue) }
        ensures done { IfOk result (λ hand. hand.done ≡ []) }
        ensures rows { IfOk result (λ hand. hand.rows ≡ record { all = []; left = 0 }) }
        ensures extra { IfOk result (λ hand. hand.flow.extra ≡ []) }
        ensures tray { IfOk result (λ hand. hand.flow.tray ≡ []) }
        ensures abroad { IfOk result (λ hand. hand.flow.abroad ≡ []) }
        ensures words { IfOk result (λ hand. hand.flow.words ≡ []) }
        ensures keeps { IfOk result (λ hand. hand.flow.keeps ≡ keeps) }
        ensures memory { IfErr result (λ fault. fault ≡ OutOfMemory) }
    {
        match Letters::of_offers(alloc, offers, keeps) {
            Ok(letters) => Ok(Hand {
                members,
                done: DoneEvents::new(alloc),
                undoing: Undoing::new(alloc),
                rows: Rows::new(alloc),
                letters,
                out: Outbound::new(0, Time::default(), 0),
            }),
            Err(_fault) => Err(HandFault::OutOfMemory),
        }
    }
}

impl<R: Actor> Hand<R> {
    /// Returns the first message of the queue, if any: the least of all that the members have to handle, if none of them rolled back.
    pub fn next(&mut self) -> Option<Message>
        ensures same { IsAsBefore self.old self.new }
        ensures among { IfSome result (Contains self.old.flow.queue) }
        ensures first { IfSome result (λ m. All (λ x. is_before x m ≡ false) self.old.flow.queue) }
        ensures none { IfNone result (self.old.flow.queue ≡ []) }
    {
        self.letters.first()
    }

    /// Commits the done events that are earlier than the moment, in ns, the oldest first, up to one whose signed count is not 1, or one
    /// that does not come before the first message of the queue. Their rows are sealed. A refusal leaves all as it was. The list is in
    /// message order, so each look is at its front.
    pub fn commit_below(&mut self, moment: Time) -> Result<(), HandFault>
        ensures did { CommitsTold (rules_of R.plain) R.is_value moment self.old self.new }
        ensures sealed { OnOk result ((ds : List (DoneEvent R.Record)) × (self.old.done ≡ ds ++ self.new.done)
            × (self.new.rows ≡ record self.old.rows { all = self.old.rows.all ++ rows_in ds }) × All (λ m. m.time < moment) (messages_of ds)) }
        ensures left { OnOk result (StaysDone moment self.new) }
        ensures words { AddsCommits self.old.flow.words self.new.flow.words }
        ensures flow { self.new.flow ≡ record self.old.flow { words = self.new.flow.words; room = self.new.flow.room } }
        ensures memory { IfErr result (λ fault. fault ≡ OutOfMemory) }
        ensures unchanged { OnErr result (IsAsBefore self.old self.new) }
    {
        actor_rules_law::<R>();
        if !is_early(self.done.oldest_time(), moment) {
            return Ok(());
        }
        let first = self.letters.first();
        match self
            .letters
            .commit_early(&mut self.done, &mut self.rows, moment, &first)
        {
            Ok(_count) => Ok(()),
            Err(_fault) => Err(HandFault::OutOfMemory),
        }
    }

    /// Returns the rows of committed events, without those that have left, in the order of their events.
    pub fn rows(&self) -> &[Row]
        ensures { result.now ≡ drop self.now.rows.left self.now.rows.all }
    {
        self.rows.as_slice()
    }

    /// Lets the oldest rows leave, while they are earlier than the moment, in ns. A refusal leaves all as it was.
    pub fn let_rows_go(&mut self, moment: Time) -> Result<(), HandFault>
        ensures rows { self.new ≡ record self.old { rows = record self.old.rows { left = self.new.rows.left } } }
        ensures gone { (count : ℕ) × (self.new.rows.left ≡ self.old.rows.left + count)
            × (count ≤ length (drop self.old.rows.left self.old.rows.all))
            × All (λ row. row.message.time < moment) (take count (drop self.old.rows.left self.old.rows.all)) }
        ensures late { OnOk result (IfSome (slice_get (drop self.new.rows.left self.new.rows.all) 0) (λ row. moment ≤ row.message.time)) }
        ensures stands { (x : Setting R) (v : World Message R) → StandsForGroup (rules_of R.plain) R.is_value x v self.old → StandsForGroup (rules_of R.plain) R.is_value x v self.new }
        ensures memory { IfErr result (λ fault. fault ≡ OutOfMemory) }
    {
        actor_rules_law::<R>();
        match self.rows.let_go(moment) {
            Ok(()) => Ok(()),
            Err(_fault) => Err(HandFault::OutOfMemory),
        }
    }
}
