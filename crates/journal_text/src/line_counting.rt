//! Counts the lines of a text.
ghost use Rattle.std.specs.Prelude.{◌≡◌, length};
ghost use Rattle.journal_text.specs.Lines.{lines};

/// Returns the number of lines of a text. A last line without a line feed counts.
pub fn count_lines(text: &[u8]) -> usize
    ensures { result ≡ length (lines text.now) }
{
    let mut count = 0;
    let mut begins = true;
    for byte in text {
        if begins {
            count += 1;
        }
        begins = *byte == b'\n';
    }
    count
}
