//! A number at the front of a text.
ghost use Rattle.std.specs.Prelude.{ℕ, List, ◌∷◌, ◌≡◌, ◌≢◌, ◌<◌, ◌^◌, ◌++◌, ◌↔◌, IsTrue, false, IfSome, IfNone};
ghost use Rattle.std.specs.Char.{is_ascii_digit};
ghost use Rattle.journal_text.specs.Text.{number_then};
ghost use Rattle.journal_text.specs.Fronts.{LeadingDigit, BeginsWithNone};

/// Returns the text behind this byte, if the byte stands at the front.
fn behind_byte(text: &[u8], byte: u8) -> Option<&[u8]>
    ensures found { IfSome result (λ rest. text.now ≡ byte ∷ rest.now) }
    ensures none { IfNone result ((rest : List ℕ) → text.now ≢ byte ∷ rest) }
{
    match text {
        [first, rest @ ..] if *first == byte => Some(rest),
        _ => None,
    }
}

/// Whether the text begins with a digit other than 0.
fn is_leading(text: &[u8]) -> bool
    ensures { IsTrue result ↔ LeadingDigit text.now }
{
    match text {
        [first, ..] => (b'1'..=b'9').contains(first),
        [] => false,
    }
}

/// Reads the number at the front of a text, if it begins with a digit other than 0 and this byte ends it. Also returns the text behind that
/// byte.
fn read_digits(text: &[u8], end: u8) -> Option<(u32, &[u8])>
    requires leading { LeadingDigit text.now }
    requires end { is_ascii_digit end ≡ false }
    ensures found { IfSome result (λ r. (r.0 < 2 ^ 32) × (text.now ≡ number_then end r.0 ++ r.1.now)) }
    ensures none { IfNone result (BeginsWithNone (λ n. n < 2 ^ 32) (number_then end) text.now) }
{
    let mut value = 0;
    let mut rest = text;
    while let [byte, behind @ ..] = rest {
        if *byte == end {
            return Some((value as u32, behind));
        }
        if !byte.is_ascii_digit() {
            return None;
        }
        value = value * 10 + u64::from(*byte - b'0');
        if value > u64::from(u32::MAX) {
            return None;
        }
        rest = behind;
    }
    None
}

/// Reads the number at the front of a text, if this byte ends it. Also returns the text behind that byte.
pub fn read_number(text: &[u8], end: u8) -> Option<(u32, &[u8])>
    requires { is_ascii_digit end ≡ false }
    ensures found { IfSome result (λ r. (r.0 < 2 ^ 32) × (text.now ≡ number_then end r.0 ++ r.1.now)) }
    ensures none { IfNone result (BeginsWithNone (λ n. n < 2 ^ 32) (number_then end) text.now) }
{
    if is_leading(text) {
        return read_digits(text, end);
    }
    let behind = behind_byte(text, b'0')?;
    let rest = behind_byte(behind, end)?;
    Some((0, rest))
}
