//! Tallies the front letter of the tray.
ghost use Rattle.std.specs.Prelude.{◌≡◌, ◌≢◌, ◌↔◌, ◌+ℤ◌, pos, not, drop, IsTrue, OnOk, OnErr, IfOk};
ghost use Rattle.vlink.specs.declared.message.Message.{Message};
ghost use Rattle.virtual_time.specs.Law.{is_plus};
ghost use Rattle.vlink.specs.Order.{message_order};
ghost use Rattle.antimessages.specs.Letters.{weight};
ghost use Rattle.antimessages.specs.Counting.{signed_count, change_by};

use antimessages::{Change, OutOfMemory, Tally, rewind};
use std::collections::VecDeque;
use vlink::{Letter, Sign};

/// Whether the letter brings a message that is not done, or cancels one that is done, and no letter of that message counts in the tally.
/// The tally does not contain the done events.
pub fn is_change(tally: &Tally, letter: &Letter, is_done: bool) -> bool
    ensures { IsTrue result ↔ (is_done ≡ not (is_plus letter.now.sign)) × (signed_count message_order letter.now.message tally.now ≡ pos 0) }
{
    match letter.sign {
        Sign::Plus => !is_done && tally.is_zero(&letter.message),
        Sign::Minus => is_done && tally.is_zero(&letter.message),
    }
}

/// Tallies the letter, which is the front one of the tray, and removes it from the tray. Returns what it did to its message. A refusal
/// changes nothing.
pub fn tally_front(
    tally: &mut Tally,
    tray: &mut VecDeque<Letter>,
    letter: Letter,
) -> Result<Change, OutOfMemory>
    ensures count { OnOk result (signed_count message_order letter.message tally.new ≡ signed_count message_order letter.message tally.old +ℤ weight letter.sign) }
    ensures others { OnOk result ((m : Message) → m ≢ letter.message → signed_count message_order m tally.new ≡ signed_count message_order m tally.old) }
    ensures change { IfOk result (λ change. change ≡ change_by message_order letter tally.old) }
    ensures tray { OnOk result (tray.new.items ≡ drop 1 tray.old.items) }
    ensures unchanged { OnErr result (tally.new ≡ tally.old) }
    ensures tray_unchanged { OnErr result (tray.new.items ≡ tray.old.items) }
{
    let change = tally.add(letter)?;
    pop_front(tray);
    Ok(change)
}

/// Removes the front letter of the tray. A tray that becomes empty begins at its front again.
pub fn pop_front(tray: &mut VecDeque<Letter>)
    ensures { tray.new.items ≡ drop 1 tray.old.items }
{
    let _front = tray.pop_front();
    rewind(tray);
}
