//! Reads one line of a journal's text as a step.
ghost use Rattle.std.specs.Prelude.{◌≡◌, ◌∷◌, ◌++◌, IfSome, IfNone};
ghost use Rattle.journal_text.specs.Text.{Fits, step_line};
ghost use Rattle.journal_text.specs.Fronts.{BeginsWithNone};

use crate::number::read_number;
use vlink::Step;

/// Reads the process and the place of a Take, which stand behind `T`.
fn read_take(text: &[u8]) -> Option<(Step, &[u8])>
    ensures found { IfSome result (λ r. Fits r.0 × (84 ∷ 32 ∷ text.now ≡ step_line r.0 ++ r.1.now)) }
    ensures none { IfNone result (BeginsWithNone Fits step_line (84 ∷ 32 ∷ text.now)) }
{
    let (process, behind) = read_number(text, b' ')?;
    let (place, rest) = read_number(behind, b'\n')?;
    Some((Step::Take { process, place }, rest))
}

/// Reads the step with this letter, whose numbers stand behind the blank.
fn read_numbers(letter: u8, text: &[u8]) -> Option<(Step, &[u8])>
    ensures found { IfSome result (λ r. Fits r.0 × (letter ∷ 32 ∷ text.now ≡ step_line r.0 ++ r.1.now)) }
    ensures none { IfNone result (BeginsWithNone Fits step_line (letter ∷ 32 ∷ text.now)) }
{
    if letter == b'T' {
        return read_take(text);
    }
    let (process, rest) = read_number(text, b'\n')?;
    let step = match letter {
        b'A' => Step::Arrive { process },
        b'R' => Step::Run { process },
        b'P' => Step::Post { process },
        b'C' => Step::Commit { process },
        _ => return None,
    };
    Some((step, rest))
}

/// Reads the step whose line is at the front of a text. Also returns the text behind the line.
pub fn read_step(text: &[u8]) -> Option<(Step, &[u8])>
    ensures found { IfSome result (λ r. Fits r.0 × (text.now ≡ step_line r.0 ++ r.1.now)) }
    ensures none { IfNone result (BeginsWithNone Fits step_line text.now) }
{
    match text {
        [b'G', b'\n', rest @ ..] => Some((Step::Gvt, rest)),
        [letter, b' ', rest @ ..] => read_numbers(*letter, rest),
        _ => None,
    }
}
