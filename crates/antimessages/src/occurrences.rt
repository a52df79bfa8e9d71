//! The tallied letters, as a map from each occurrence to its sign.
ghost use Rattle.std.specs.Prelude.{◌≡◌, ◌+◌, ◌<◌, ◌^◌, pos, ◌∷◌, false, Option, IsSome, IsTrue, IfSome, IfOk, OnOk, OnErr};
ghost use Rattle.std.specs.Option.{MatchOption, option_copied, option_map};
ghost use Rattle.std.specs.List.{find};
ghost use Rattle.std.specs.Map.{lookup};
ghost use Rattle.std.specs.BTreeMap.{is_at, insert_entry};
ghost use Rattle.vlink.specs.declared.message.Message.{Message};
ghost use Rattle.virtual_time.specs.declared.letter.Sign.TheVariants.{Plus};
ghost use Rattle.virtual_time.specs.Law.{IsPresent, plus_of, is_plus};
ghost use Rattle.vlink.specs.Order.{message_order};
ghost use Rattle.antimessages.specs.Counting.{signed_count, HaveSameCounts, is_after, present_after};
ghost use Rattle.antimessages.specs.Occurrences.{AreTallied, letters_of, letter_at, occurrence_of, occurrence_cmp, count_with, behind, BeginsWithOne};

use crate::fault::OutOfMemory;
use crate::occurrence::{Occurrence, is_before, is_same, occurrence_order_law};
use std::collections::BTreeMap;
use std::collections::btree_map::Range;
use std::ops::Bound;
use vlink::{Message, Sign};

/// Returns the last ordinal of a message and the sign of its letters, if any of them count.
pub(crate) fn last_of(signs: &BTreeMap<Occurrence, Sign>, message: &Message) -> Option<(u64, Sign)>
    requires { AreTallied signs.now.entries }
    ensures count { MatchOption result (signed_count message_order message.now (letters_of signs.now.entries) ≡ pos 0)
        (λ x. signed_count message_order message.now (letters_of signs.now.entries) ≡ count_with x.1 (x.0 + 1)) }
    ensures room { IfSome result (λ x. x.0 + 1 < 2 ^ 63) }
{
    occurrence_order_law();
    let _len = signs.len();
    let end = Occurrence {
        message: *message,
        ordinal: u64::MAX,
    };
    let (last, sign) = signs.range(..=end).next_back()?;
    if is_same(&last.message, message) {
        Some((last.ordinal, *sign))
    } else {
        None
    }
}

/// If no letter of the message counts, adds one of this sign, and returns true. Otherwise it returns false and changes nothing. A refusal
/// changes nothing.
pub(crate) fn put_first(
    signs: &mut BTreeMap<Occurrence, Sign>,
    message: &Message,
    sign: Sign,
) -> Result<bool, OutOfMemory>
    requires { AreTallied signs.old.entries }
    ensures tallied { AreTallied signs.new.entries }
    ensures none { IfOk result (λ first. IsTrue first → signed_count message_order message.now (letters_of signs.old.entries) ≡ pos 0) }
    ensures counts { IfOk result (λ first. IsTrue first →
        HaveSameCounts message_order (letters_of signs.new.entries) (letter_at (occurrence_of message.now 0, sign) ∷ letters_of signs.old.entries)) }
    ensures stays { IfOk result (λ first. first ≡ false → signs.new.entries ≡ signs.old.entries) }
    ensures unchanged { OnErr result (signs.new.entries ≡ signs.old.entries) }
{
    occurrence_order_law();
    let first = Occurrence {
        message: *message,
        ordinal: 0,
    };
    match signs.insert(first, sign)? {
        None => Ok(true),
        Some(tallied) => {
            put_back(signs, message, tallied);
            Ok(false)
        }
    }
}

/// Gives this sign to the first letter of a message, which must exist. Takes no memory.
fn put_back(signs: &mut BTreeMap<Occurrence, Sign>, message: &Message, sign: Sign)
    requires { IsSome (lookup (is_at (occurrence_cmp (occurrence_of message.now 0))) signs.old.entries) }
    ensures { signs.new.entries ≡ insert_entry occurrence_cmp signs.old.entries (occurrence_of message.now 0) sign }
{
    occurrence_order_law();
    let first = Occurrence {
        message: *message,
        ordinal: 0,
    };
    let _sign = signs.insert(first, sign);
}

/// Adds one letter of this sign for the message, which has `ordinal` such letters. A refusal changes nothing.
pub(crate) fn put(
    signs: &mut BTreeMap<Occurrence, Sign>,
    message: &Message,
    ordinal: u64,
    sign: Sign,
) -> Result<(), OutOfMemory>
    requires tallied { AreTallied signs.old.entries }
    requires last { signed_count message_order message.now (letters_of signs.old.entries) ≡ count_with sign ordinal }
    ensures tallied { AreTallied signs.new.entries }
    ensures counts { OnOk result (HaveSameCounts message_order (letters_of signs.new.entries) (letter_at (occurrence_of message.now ordinal, sign) ∷ letters_of signs.old.entries)) }
    ensures unchanged { OnErr result (signs.new.entries ≡ signs.old.entries) }
{
    occurrence_order_law();
    let next = Occurrence {
        message: *message,
        ordinal,
    };
    signs.insert(next, sign)?;
    Ok(())
}

/// Removes the last letter of a message.
pub(crate) fn take(
    signs: &mut BTreeMap<Occurrence, Sign>,
    message: &Message,
    ordinal: u64,
    sign: Sign,
)
    requires tallied { AreTallied signs.old.entries }
    requires last { signed_count message_order message.now (letters_of signs.old.entries) ≡ count_with sign (ordinal + 1) }
    ensures tallied { AreTallied signs.new.entries }
    ensures counts { HaveSameCounts message_order (letters_of signs.old.entries) (letter_at (occurrence_of message.now ordinal, sign) ∷ letters_of signs.new.entries) }
{
    occurrence_order_law();
    let last = Occurrence {
        message: *message,
        ordinal,
    };
    let _sign = signs.remove(&last);
}

/// If the first message that counts is this one, with one plus letter alone, removes that letter and returns true. Otherwise it returns
/// false and changes nothing.
pub(crate) fn take_first(signs: &mut BTreeMap<Occurrence, Sign>, message: &Message) -> bool
    requires { AreTallied signs.old.entries }
    ensures tallied { AreTallied signs.new.entries }
    ensures counts { IsTrue result →
        HaveSameCounts message_order (letters_of signs.old.entries) (letter_at (occurrence_of message.now 0, Plus) ∷ letters_of signs.new.entries) }
    ensures one { IsTrue result → signed_count message_order message.now (letters_of signs.old.entries) ≡ pos 1 }
    ensures unchanged { result ≡ false → signs.new.entries ≡ signs.old.entries }
{
    occurrence_order_law();
    let _len = signs.len();
    if !begins_with_one(signs, message) {
        return false;
    }
    let Some(_first) = signs.pop_first() else {
        return false;
    };
    true
}

/// Whether the first message that counts is this one, with one plus letter alone.
fn begins_with_one(signs: &BTreeMap<Occurrence, Sign>, message: &Message) -> bool
    ensures { IsTrue result → BeginsWithOne message.now signs.now.entries }
{
    let mut entries = signs.iter();
    let Some((first, Sign::Plus)) = entries.next() else {
        return false;
    };
    if !is_same(&first.message, message) {
        return false;
    }
    match entries.next() {
        Some((second, _)) => !is_same(&second.message, message),
        None => true,
    }
}

/// Removes the last letter of a message if it is a plus. Otherwise it changes nothing.
pub(crate) fn take_last(signs: &mut BTreeMap<Occurrence, Sign>, message: &Message)
    requires { AreTallied signs.old.entries }
    ensures tallied { AreTallied signs.new.entries }
    ensures counts { IsPresent message_order (letters_of signs.old.entries) message.now →
        HaveSameCounts message_order (letters_of signs.old.entries) (plus_of message.now ∷ letters_of signs.new.entries) }
    ensures unchanged { (IsPresent message_order (letters_of signs.old.entries) message.now → ⊥) → signs.new.entries ≡ signs.old.entries }
{
    match last_of(signs, message) {
        Some((ordinal, Sign::Plus)) => take(signs, message, ordinal, Sign::Plus),
        Some((_, Sign::Minus)) => {}
        None => {}
    }
}

/// Whether all letters that count are of messages that come after this one.
#[inline(always)]
pub(crate) fn begins_after(signs: &BTreeMap<Occurrence, Sign>, message: &Message) -> bool
    requires { AreTallied signs.now.entries }
    ensures { IsTrue result → signed_count message_order message.now (letters_of signs.now.entries) ≡ pos 0 }
{
    occurrence_order_law();
    let _len = signs.len();
    match signs.first_key_value() {
        Some((first, _)) => is_before(message, &first.message),
        None => true,
    }
}

/// Returns the first present message of those that come after `newest`, or of all if `newest` is none.
pub(crate) fn next_after(
    signs: &BTreeMap<Occurrence, Sign>,
    newest: Option<&Message>,
) -> Option<Message>
    requires { AreTallied signs.now.entries }
    ensures { result ≡ present_after message_order (option_copied newest.entry) (letters_of signs.now.entries) }
{
    occurrence_order_law();
    let _len = signs.len();
    let (first, sign) = signs.first_key_value()?;
    if is_plus(*sign) && is_after(newest, &first.message) {
        return Some(first.message);
    }
    first_plus(signs.range((behind(newest), Bound::Unbounded)))
}

/// Whether the sign is a plus.
fn is_plus(sign: Sign) -> bool
    ensures { result ≡ is_plus sign }
{
    match sign {
        Sign::Plus => true,
        Sign::Minus => false,
    }
}

/// Whether the message comes after `newest`, or `newest` is none.
fn is_after(newest: Option<&Message>, message: &Message) -> bool
    ensures { result ≡ is_after message_order (option_copied newest.entry) message.now }
{
    match newest {
        Some(newest) => is_before(newest, message),
        None => true,
    }
}

/// Returns the bound at which the occurrences of messages that come after `newest` begin: behind all of its own.
fn behind(newest: Option<&Message>) -> Bound<Occurrence>
    ensures { result ≡ behind (option_copied newest.entry) }
{
    match newest {
        Some(message) => Bound::Excluded(Occurrence {
            message: *message,
            ordinal: u64::MAX,
        }),
        None => Bound::Unbounded,
    }
}

/// Returns the message of the first of these entries that is a plus, or none.
fn first_plus(entries: Range<'_, Occurrence, Sign>) -> Option<Message>
    ensures { result ≡ option_map (λ e. e.0.message) (find (λ e. is_plus e.1) entries.entry) }
{
    let mut rest = entries;
    while let Some((occurrence, sign)) = rest.next() {
        match sign {
            Sign::Plus => return Some(occurrence.message),
            Sign::Minus => {}
        }
    }
    None
}
