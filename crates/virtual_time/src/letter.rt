//! Letters: messages with a sign.
/// Whether a letter brings its message or cancels it.
#[derive(Clone, Copy, PartialEq, Eq)]
pub enum Sign {
    Plus,
    Minus,
}

/// A message with a sign: positive if the letter brings the message, negative for the antimessage, which cancels it.
#[derive(Clone, Copy, PartialEq, Eq)]
pub struct Letter<M> {
    pub message: M,
    pub sign: Sign,
}
