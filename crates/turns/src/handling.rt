//! The messages of a turn.
//!
//! A group handles no more messages in its turn than a turn has, and none further ahead of the GVT that it saw than the window: both have
//! clauses. Which of these messages are due has none, since that depends on the moments that others announce.
ghost use Rattle.std.specs.Prelude.{◌≡◌, ◌↔◌, ◌+◌, ◌<◌, ℕ, IfOk, IsTrue, min};
ghost use Rattle.turns.specs.Meeting.{most_u32};
ghost use Rattle.turns.specs.Turn.{IsPiece, IsTurn};

use crate::common::Common;
use crate::pieces::messages_of_piece;
use crate::seat::Seat;
use crate::tasks::Tasks;

/// The group handles messages as long as they are due, as many as a turn has, and announces now and then how far it is. It ends where it is
/// to meet the others. Returns whether a message was handled.
pub(crate) fn handle_due<G: Drop, K: Tasks<G>>(
    common: &Common<G, K>,
    seat: &mut Seat<G>,
) -> Result<bool, K::Fault>
    ensures turn { IfOk result (λ has_worked. (handled : ℕ)
        × IsTurn K.handles K.stays common.now.turn common.now.window_ns seat.old.group seat.new.group handled
        × (IsTrue has_worked ↔ (0 < handled)) × (seat.new.unposted ≡ min (seat.old.unposted + handled) most_u32)) }
{
    let handled = handle_pieces(common, seat)?;
    seat.unposted = seat.unposted.saturating_add(handled);
    Ok(handled != 0)
}

/// The same, but for the count of messages that are not posted. Returns how many messages were handled.
fn handle_pieces<G: Drop, K: Tasks<G>>(
    common: &Common<G, K>,
    seat: &mut Seat<G>,
) -> Result<u32, K::Fault>
    ensures turn { IfOk result (λ handled. IsTurn K.handles K.stays common.now.turn common.now.window_ns seat.old.group seat.new.group handled) }
    ensures unposted { seat.new.unposted ≡ seat.old.unposted }
{
    let turn = common.turn;
    let groups = common.signals.moments.groups();
    let mut handled = 0;
    for _ in 0..turn {
        let most = messages_of_piece(groups, turn, handled);
        let count = handle_piece(common, seat, most)?;
        handled += count;
        let is_done = count < most || handled >= turn || ends_turn(common, seat, handled);
        if is_done {
            return Ok(handled);
        }
    }
    Ok(handled)
}

/// The group handles messages that are due, at most `most`, no further ahead of the GVT that it saw than the window. It announces how far
/// it is: no further than its earliest letter that is not posted. Returns how many messages.
fn handle_piece<G: Drop, K: Tasks<G>>(
    common: &Common<G, K>,
    seat: &mut Seat<G>,
    most: u32,
) -> Result<u32, K::Fault>
    ensures piece { IfOk result (λ count. IsPiece K.handles K.stays common.now.window_ns most seat.old.group seat.new.group count) }
    ensures unposted { seat.new.unposted ≡ seat.old.unposted }
{
    let tasks = &common.tasks;
    let moments = &common.signals.moments;
    let report = tasks.report(seat);
    // A letter that waits is to arrive before what is later.
    let limit_ns = moments.limit_ns().min(moments.letter_ns(report.number));
    let due_ns = limit_ns.saturating_sub(report.seen_ns);
    let count = tasks.handle(&mut seat.group, most, due_ns.min(common.window_ns))?;
    seat.next_ns = tasks.next_ns(&mut seat.group);
    moments.tell(report.number, tasks.report(seat).first_ns());
    Ok(count)
}

/// Whether a group should meet the others once it has handled `handled` messages in its turn, by the moments that the workers announce.
fn ends_turn<G: Drop, K: Tasks<G>>(common: &Common<G, K>, seat: &Seat<G>, handled: u32) -> bool {
    let report = common.tasks.report(seat);
    report.ends_turn(common.signals.moments.letter_ns(report.number), handled)
}
