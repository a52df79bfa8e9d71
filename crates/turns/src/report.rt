//! When a group should get a turn, and when it should meet the others.
//!
//! These are functions of numbers, and their clauses are exact. When a thread reads the numbers that others write has no clause: an older one
//! costs a turn or a rollback.
ghost use Rattle.std.specs.Prelude.{◌≡◌, ◌⊎◌, ◌↔◌, true, false, min, IsTrue};
ghost use Rattle.turns.specs.Meeting.{CanRaise, EndsTurn, HasLetters, IsBehind, IsCalled, IsDue, IsToMeet, WaitsForGvt};

use crate::{BEHIND_NS, LEAD_NS, LOOKS_BEFORE_POST, MOST_UNPOSTED, MOST_WITH_LETTERS};

/// How far a group is.
#[derive(Clone, Copy)]
pub struct Report {
    /// Its number.
    pub number: u16,
    /// The moment of its next event, in ns.
    pub next_ns: u64,
    /// The GVT that it saw, in ns.
    pub seen_ns: u64,
    /// How many messages it handled since its block was posted.
    pub unposted: u32,
    /// The least moment of its letters for others that are not posted, in ns, or the greatest number if it has none.
    pub letters_ns: u64,
    /// Whether it did something that is not posted.
    pub has_block: bool,
}

impl Report {
    /// Returns the moment to announce to others, in ns: no letter of the group reaches them before it.
    pub(crate) fn first_ns(&self) -> u64
        ensures { result ≡ min self.now.next_ns self.now.letters_ns }
    {
        self.next_ns.min(self.letters_ns)
    }

    /// Whether it has letters for others that are not posted.
    pub(crate) fn has_letters(&self) -> bool
        ensures { IsTrue result ↔ HasLetters self.now }
    {
        self.letters_ns != u64::MAX
    }

    /// Whether it should post at the end of its turn: others wait for its letters; or another worker than its own gave it the turn, and may
    /// not come back.
    pub(crate) fn is_to_post(&self, is_own: bool) -> bool
        ensures { IsTrue result ↔ (HasLetters self.now ⊎ ((self.now.has_block ≡ true) × (is_own ≡ false))) }
    {
        self.has_letters() || (self.has_block && !is_own)
    }

    /// Whether its next event is due: before the limit, in ns, and within the window.
    pub(crate) fn is_due(&self, limit_ns: u64, window_ns: u64) -> bool
        ensures { IsTrue result ↔ IsDue self.now limit_ns window_ns }
    {
        self.next_ns < limit_ns && !self.waits_for_gvt(window_ns)
    }

    /// Whether its next event is beyond the window, in ns.
    pub(crate) fn waits_for_gvt(&self, window_ns: u64) -> bool
        ensures { IsTrue result ↔ WaitsForGvt self.now window_ns }
    {
        self.next_ns >= self.seen_ns.saturating_add(window_ns)
    }

    /// Whether it should post and look for letters before it goes on: it has not posted for long; or a letter waits that comes before its
    /// next event; or its next event waits for GVT; or nothing is due, and GVT is much further on, or what it did has not been posted for a
    /// while, after so many looks in vain of its worker. The least letter that waits, GVT, the limit and the window are in ns.
    pub(crate) fn is_to_meet(
        &self,
        letter_ns: u64,
        gvt_ns: u64,
        limit_ns: u64,
        window_ns: u64,
        looks: u64,
    ) -> bool
        ensures { IsTrue result ↔ IsToMeet self.now letter_ns gvt_ns limit_ns window_ns looks }
    {
        if self.unposted >= MOST_UNPOSTED || self.is_called(letter_ns, limit_ns) {
            return true;
        }
        if self.next_ns < limit_ns {
            return self.waits_for_gvt(window_ns) && self.can_raise(gvt_ns);
        }
        self.is_behind(gvt_ns, window_ns, looks)
    }

    /// Whether a letter waits that comes no later than its next event, and is before the limit, in ns.
    fn is_called(&self, letter_ns: u64, limit_ns: u64) -> bool
        ensures { IsTrue result ↔ IsCalled self.now letter_ns limit_ns }
    {
        letter_ns <= self.next_ns && letter_ns < limit_ns
    }

    /// Whether a meeting can help while its next event waits for GVT, in ns: it has something to post, or has not seen the last GVT.
    fn can_raise(&self, gvt_ns: u64) -> bool
        ensures { IsTrue result ↔ CanRaise self.now gvt_ns }
    {
        self.has_block || gvt_ns > self.seen_ns
    }

    /// Whether GVT, in ns, is much further on than what it saw; or what it did has not been posted for a while.
    fn is_behind(&self, gvt_ns: u64, window_ns: u64, looks: u64) -> bool
        ensures { IsTrue result ↔ IsBehind self.now gvt_ns window_ns looks }
    {
        let is_late = looks >= LOOKS_BEFORE_POST || window_ns < LEAD_NS;
        gvt_ns >= self.seen_ns.saturating_add(BEHIND_NS) || (is_late && self.has_block)
    }

    /// Whether it should meet the others once it has handled `handled` messages in its turn: it has letters for them, or a letter waits
    /// that comes before its next event. The least letter that waits is in ns.
    pub(crate) fn ends_turn(&self, letter_ns: u64, handled: u32) -> bool
        ensures { IsTrue result ↔ EndsTurn self.now letter_ns handled }
    {
        (handled >= MOST_WITH_LETTERS && self.has_letters()) || letter_ns <= self.next_ns
    }
}
