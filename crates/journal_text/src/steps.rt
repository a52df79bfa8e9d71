//! Reads a whole text as a list of steps.
ghost use Rattle.std.specs.Prelude.{ℕ, List, ◌≡◌, ◌<◌, ◌≤◌, All, length, IfOk, IfErr, IsErrOf};
ghost use Rattle.virtual_time.specs.declared.step.Step.{Step};
ghost use Rattle.journal_text.specs.declared.fault.LinesFault.TheVariants.{TooMany, BadLine};
ghost use Rattle.journal_text.specs.Text.{Fits, steps_text};
ghost use Rattle.journal_text.specs.Lines.{lines, IsFirstBad, HasCause, AreRead, IsRefused};

use crate::fault::LinesFault;
use crate::line::read_step;
use crate::line_counting::count_lines;
use std::alloc::Global;
use vlink::Step;

/// Reads the steps of a text with this many lines.
fn read_lines(alloc: Global, text: &[u8], count: usize) -> Result<Vec<Step>, LinesFault>
    requires { count ≡ length (lines text.now) }
    ensures steps { IfOk result (λ steps. steps_text steps.items ≡ text.now) }
    ensures fits { IfOk result (λ steps. All Fits steps.items) }
    ensures fault { IfErr result (HasCause text.now count) }
{
    let mut steps = Vec::with_capacity(alloc, count)?;
    let mut rest = text;
    while !rest.is_empty() {
        match read_step(rest) {
            Some((step, behind)) => {
                steps.push(step)?;
                rest = behind;
            }
            None => return Err(LinesFault::BadLine(steps.len() as u64 + 1)),
        }
    }
    Ok(steps)
}

/// Reads the steps of a journal text, one a line, if it has at most `most` lines. A line is `T p i` (Take), `A p` (Arrive), `R p` (Run), `P
/// p` (Post), `G` (Gvt) or `C p` (Commit), with one blank between, numbers from 0 to 4294967295 in decimal digits without leading zeros,
/// and a line feed at its end. The empty text has no steps.
///
/// `TooMany` is checked first, and takes no memory; a last line without a line feed counts as a line. `BadLine` gives the first line, from
/// 1, that does not have this form. `OutOfMemory` means that no memory was left for the steps, 12 bytes each and one for each line; it can
/// come before a bad line is reached.
pub fn read_steps(alloc: Global, text: &[u8], most: u64) -> Result<Vec<Step>, LinesFault>
    ensures steps { IfOk result (λ steps. steps_text steps.items ≡ text.now) }
    ensures fits { IfOk result (λ steps. All Fits steps.items) }
    ensures within { IfOk result (λ steps. length steps.items ≤ most) }
    ensures fault { IfErr result (HasCause text.now most) }
    // So the text and the limit determine the result, unless memory is refused.
    ensures accepts { (steps : List Step) → All Fits steps → steps_text steps ≡ text.now → length steps ≤ most
        → AreRead steps result }
    ensures refuses { (n : ℕ) → length (lines text.now) ≤ most → IsFirstBad text.now n → IsRefused (BadLine n) result }
    ensures limit { most < length (lines text.now) → IsErrOf result TooMany }
{
    let count = count_lines(text);
    if count as u64 > most {
        return Err(LinesFault::TooMany);
    }
    read_lines(alloc, text, count)
}
