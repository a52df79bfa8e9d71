//! A line of the table of keys.
use crate::key::{Key, Word};

/// Which rows have a key.
#[derive(Clone, Copy)]
pub enum Presence {
    /// Each row has it.
    Required,
    /// Each row whose kind is `switch` has it; no other row may.
    ForSwitches,
    /// Each row may have it. An absent key means this number.
    Optional(u64),
    /// Each row may have it. An absent key means this word.
    OptionalWord(Word),
    /// Each row may have it. An absent key means no value.
    MayBeAbsent,
}

/// What the value at a key must be: its type, and with it the limit.
#[derive(Clone, Copy)]
pub enum ValueType {
    /// An integer from the first number to the second.
    Integer(u64, u64),
    /// An integer from the first number to the second, and greater than the integer at another key of its row.
    IntegerAbove(Key, u64, u64),
    /// An integer that is one of three.
    OneOfThree(u64, u64, u64),
    /// An integer that is one of eight.
    OneOf([u64; 8]),
    /// A text that is one of two words.
    EitherWord(Word, Word),
    /// A text that names a node: ASCII letters, digits, `_` and `-`, and as many of them as from the first number to the second.
    NodeName(u64, u64),
    /// Any text. It refers to a node by its name.
    Reference,
    /// A list of paths. A path is a list of references; the two numbers are the least and the greatest number of them.
    Paths(u64, u64),
}

/// A line of the table of keys.
#[derive(Clone, Copy)]
pub struct Rule {
    pub key: Key,
    /// Which rows have the key.
    pub presence: Presence,
    /// What its value must be.
    pub value_type: ValueType,
}
