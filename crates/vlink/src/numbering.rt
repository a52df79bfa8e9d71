//! Sequence numbers of frames.
ghost use Rattle.std.specs.Prelude.{◌≡◌};
ghost use Rattle.vlink.specs.Numbering.{next_number, steps_between};

/// The sequence number after `number`: 0, 1, .. 255, 1, 2, .. (ARINC 664 Part 7). The first frame of a virtual link has 0.
pub fn next_sn(number: u8) -> u8
    ensures { result ≡ next_number number }
{
    if number == u8::MAX { 1 } else { number + 1 }
}

/// Returns how many steps of `next_sn` lead from `last` to `number`: 0 to 254 if `last` is 1 or more, and `number` itself if `last` is 0
/// (profile).
pub fn steps(last: u8, number: u8) -> u8
    ensures { result ≡ steps_between last number }
{
    if last == 0 {
        number
    } else {
        ((u16::from(number) + 255 - u16::from(last)) % 255) as u8
    }
}
