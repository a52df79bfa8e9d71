//! The tally of a process: the signed count of each message.
ghost use Rattle.std.specs.Prelude.{◌≡◌, ◌≢◌, ◌↔◌, ◌+◌, ◌<◌, ◌^◌, ◌<ℤ◌, [], ◌∷◌, List, IsTrue, pos, ◌+ℤ◌, Some, OnOk, OnErr, IfOk, IfSome, false, not};
ghost use Rattle.std.specs.Option.{MatchOption, option_copied};
ghost use Rattle.vlink.specs.declared.message.Message.{Message};
ghost use Rattle.virtual_time.specs.declared.letter.Sign.TheVariants.{Plus};
ghost use Rattle.virtual_time.specs.Law.{IsPresent, plus_of, is_plus};
ghost use Rattle.antimessages.specs.Letters.{weight};
ghost use Rattle.vlink.specs.Order.{message_order};
ghost use Rattle.vlink.specs.Letters.{Letter};
ghost use Rattle.antimessages.specs.Counting.{signed_count, HaveSameCounts, change_by, present_after};
ghost use Rattle.antimessages.specs.Occurrences.{letters_of, count_with, AreTallied, IsTally};

use crate::fault::OutOfMemory;
use crate::occurrence::{Occurrence, occurrence_order_law};
use crate::occurrences::{
    begins_after, last_of, next_after, put, put_first, take, take_first, take_last,
};
use std::alloc::Global;
use std::collections::BTreeMap;
use std::marker::Model;
use vlink::{Letter, Message, Sign};

/// What a letter does to its message in a tally. A message is present if its signed count is above 0.
#[derive(Clone, Copy)]
pub enum Change {
    /// The message was absent and is present now.
    BecamePresent,
    /// The message was present and is absent now.
    BecameAbsent,
    /// The message is present as before, or absent as before.
    Same,
}

/// The signed count of each message: the number of its plus letters that arrived, minus the number of its minus letters.
///
/// Clauses see letters with these counts, in the order of their messages and without opposite pairs. They use only their signed counts. A
/// message whose count is 3 has three entries, and one whose count is -2 has two: so no number limits a count.
pub struct Tally {
    signs: BTreeMap<Occurrence, Sign>,
}

impl Model for Tally {
    ghost use Rattle.std.specs.Prelude.{List};
    ghost use Rattle.vlink.specs.Letters.{Letter};
    ghost use Rattle.vlink.specs.declared.message.Message.{Message};
    ghost use Rattle.antimessages.specs.Occurrences.{letters_of, AreTallied};

    ghost Value = { List Letter };

    ghost view = { λ t. letters_of t.signs.entries };

    ghost invariant = { λ t. AreTallied t.signs.entries };
}

impl Drop for Tally {
    fn drop(self) {
        let Self { signs: _ } = self;
    }
}

impl Tally {
    /// Makes a tally in which each count is 0. Takes no memory.
    pub fn new(alloc: Global) -> Self
        ensures { result ≡ [] }
    {
        Tally {
            signs: BTreeMap::new(alloc),
        }
    }

    /// Returns the signed count of a message.
    pub fn count(&self, message: &Message) -> i128
        ensures count { result ≡ signed_count message_order message.now self.now }
        ensures small { result <ℤ pos (2 ^ 63) }
    {
        match last_of(&self.signs, message) {
            None => 0,
            Some((ordinal, Sign::Plus)) => i128::from(ordinal) + 1,
            Some((ordinal, Sign::Minus)) => -1 - i128::from(ordinal),
        }
    }

    /// Whether the signed count of a message is 0. If the message comes before all others that are tallied, this needs no search.
    #[inline(always)]
    pub fn is_zero(&self, message: &Message) -> bool
        ensures { IsTrue result ↔ (signed_count message_order message.now self.now ≡ pos 0) }
    {
        occurrence_order_law();
        begins_after(&self.signs, message) || last_of(&self.signs, message).is_none()
    }

    /// Returns the first present message of those that come after `newest`, or of all if `newest` is none.
    pub fn next_after(&self, newest: Option<&Message>) -> Option<Message>
        ensures { result ≡ present_after message_order (option_copied newest.entry) self.now }
    {
        next_after(&self.signs, newest)
    }

    /// Tallies the letter: its message's count rises by 1 for a plus and falls by 1 for a minus, also below 0. Returns whether the message
    /// thereby became present or absent. A refusal changes nothing.
    pub fn add(&mut self, letter: Letter) -> Result<Change, OutOfMemory>
        ensures count { OnOk result (signed_count message_order letter.message self.new
            ≡ signed_count message_order letter.message self.old +ℤ weight letter.sign) }
        ensures others { OnOk result ((m : Message) → m ≢ letter.message →
            signed_count message_order m self.new ≡ signed_count message_order m self.old) }
        ensures change { IfOk result (λ change. change ≡ change_by message_order letter self.old) }
        ensures unchanged { OnErr result (self.new ≡ self.old) }
    {
        occurrence_order_law();
        let (message, sign) = (&letter.message, letter.sign);
        if put_first(&mut self.signs, message, sign)? {
            return Ok(change_at(None, sign));
        }
        self.add_further(letter)
    }

    /// Does what `add` does, with two searches.
    fn add_further(&mut self, letter: Letter) -> Result<Change, OutOfMemory>
        ensures count { OnOk result (signed_count message_order letter.message self.new
            ≡ signed_count message_order letter.message self.old +ℤ weight letter.sign) }
        ensures others { OnOk result ((m : Message) → m ≢ letter.message →
            signed_count message_order m self.new ≡ signed_count message_order m self.old) }
        ensures change { IfOk result (λ change. change ≡ change_by message_order letter self.old) }
        ensures unchanged { OnErr result (self.new ≡ self.old) }
    {
        occurrence_order_law();
        let last = last_of(&self.signs, &letter.message);
        let change = change_at(last, letter.sign);
        count_letter(&mut self.signs, &letter.message, last, letter.sign)?;
        Ok(change)
    }

    /// Lowers the count of a present message by 1. If the message is not present it changes nothing. Takes no memory.
    pub fn take_present(&mut self, message: &Message)
        ensures present { IsPresent message_order self.old message.now → HaveSameCounts message_order self.old (plus_of message.now ∷ self.new) }
        ensures absent { (IsPresent message_order self.old message.now → ⊥) → self.new ≡ self.old }
    {
        occurrence_order_law();
        if !take_first(&mut self.signs, message) {
            take_last(&mut self.signs, message);
        }
    }

    /// The signed counts determine the letters of a tally: two tallies with the same counts are equal.
    pub fn counts_law(&self)
        ensures tally { IsTally self.now }
        ensures told { (other : List Letter) → IsTally other → HaveSameCounts message_order self.now other → self.now ≡ other }
    {
        occurrence_order_law();
        let _len = self.signs.len();
    }
}

/// Adds a letter of this sign to the message, or removes one of the other sign. `last` is the last ordinal and the sign of the letters that
/// count. A refusal changes nothing.
fn count_letter(
    signs: &mut BTreeMap<Occurrence, Sign>,
    message: &Message,
    last: Option<(u64, Sign)>,
    sign: Sign,
) -> Result<(), OutOfMemory>
    requires tallied { AreTallied signs.old.entries }
    requires last { MatchOption last (signed_count message_order message.now (letters_of signs.old.entries) ≡ pos 0)
        (λ x. signed_count message_order message.now (letters_of signs.old.entries) ≡ count_with x.1 (x.0 + 1)) }
    requires room { IfSome last (λ x. x.0 + 1 < 2 ^ 63) }
    ensures tallied { AreTallied signs.new.entries }
    ensures counted { OnOk result ((signed_count message_order message.now (letters_of signs.new.entries)
        ≡ signed_count message_order message.now (letters_of signs.old.entries) +ℤ weight sign)
        × ((m : Message) → m ≢ message.now →
        signed_count message_order m (letters_of signs.new.entries) ≡ signed_count message_order m (letters_of signs.old.entries))) }
    ensures unchanged { OnErr result (signs.new.entries ≡ signs.old.entries) }
{
    occurrence_order_law();
    let Some((ordinal, tallied)) = last else {
        return put(signs, message, 0, sign);
    };
    if is_equal(tallied, sign) {
        return put(signs, message, ordinal + 1, sign);
    }
    take(signs, message, ordinal, tallied);
    Ok(())
}

/// Returns what a letter of this sign does to its message. `last` is the last ordinal and the sign of the message's letters that count.
fn change_at(last: Option<(u64, Sign)>, sign: Sign) -> Change
    ensures { (m : Message) (tally : List Letter) → MatchOption last (signed_count message_order m tally ≡ pos 0)
        (λ x. signed_count message_order m tally ≡ count_with x.1 (x.0 + 1)) →
        result ≡ change_by message_order (record { message = m; sign = sign }) tally }
{
    occurrence_order_law();
    match sign {
        Sign::Plus => match last {
            None => Change::BecamePresent,
            Some(_) => Change::Same,
        },
        Sign::Minus => {
            if is_one(last) {
                Change::BecameAbsent
            } else {
                Change::Same
            }
        }
    }
}

/// Whether one plus letter of a message counts and no other, by its last ordinal and sign.
fn is_one(last: Option<(u64, Sign)>) -> bool
    ensures { IsTrue result ↔ (last ≡ Some (0, Plus)) }
{
    match last {
        Some((ordinal, Sign::Plus)) => ordinal == 0,
        Some((_, Sign::Minus)) => false,
        None => false,
    }
}

/// Whether the two signs are equal.
fn is_equal(first: Sign, second: Sign) -> bool
    ensures same { IsTrue result → first ≡ second }
    ensures opposite { result ≡ false → is_plus first ≡ not (is_plus second) }
{
    match (first, second) {
        (Sign::Plus, Sign::Plus) => true,
        (Sign::Minus, Sign::Minus) => true,
        (Sign::Plus, Sign::Minus) => false,
        (Sign::Minus, Sign::Plus) => false,
    }
}
