//! How many messages a group handles before it announces how far it is.
ghost use Rattle.std.specs.Prelude.{◌≡◌, ◌≢◌, ◌-◌, ◌≤◌, min};
ghost use Rattle.turns.specs.declared.TheConstants.{PIECE};

use crate::PIECE;

/// Returns how many messages one of so many groups may handle before it announces how far it is, if it has handled `handled` in its turn.
/// Nobody needs to know how far the only group is.
pub(crate) fn messages_of_piece(groups: usize, turn: u32, handled: u32) -> u32
    ensures alone { groups ≡ 1 → result ≡ turn - handled }
    ensures left { result ≤ turn - handled }
    ensures among { groups ≢ 1 → result ≡ min (turn - handled) PIECE }
{
    let left = turn.saturating_sub(handled);
    if groups == 1 { left } else { left.min(PIECE) }
}
