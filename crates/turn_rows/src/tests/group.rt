//! A group of plain lists.
use std::alloc::{AllocError, Global};

// How long a token takes to the next group, in ns.
const HOP_NS: u64 = 10_000;

// A token that a group handles at a moment, in ns, and that visits a number of groups from there.
#[derive(Clone, Copy)]
pub struct Token {
    pub time_ns: u64,
    pub hops: u64,
}

#[derive(Drop)]
pub struct Group {
    pub number: u16,
    // The number of groups.
    groups: u16,
    // The GVT that it saw, in ns.
    pub seen_ns: u64,
    pub waiting: Vec<Token>,
    // What goes to the next group.
    pub abroad: Vec<Token>,
    pub has_block: bool,
    pub handled: u64,
}

impl Group {
    fn new(alloc: Global, number: u16, groups: u16) -> Self {
        Group {
            number,
            groups,
            seen_ns: 0,
            waiting: Vec::new(alloc),
            abroad: Vec::new(alloc),
            has_block: false,
            handled: 0,
        }
    }

    // Returns the number of the group to which its tokens go.
    pub fn next(&self) -> u16 {
        let next = self.number.saturating_add(1);
        if next < self.groups { next } else { 0 }
    }

    // Returns the least moment of a token that waits, in ns.
    pub fn next_ns(&self) -> u64 {
        least_ns(&self.waiting)
    }

    // Handles the first token that waits, if it is before the limit, in ns. Returns whether one was.
    pub fn handle(&mut self, limit_ns: u64) -> Result<bool, AllocError> {
        let first_ns = self.next_ns();
        if first_ns >= limit_ns {
            return Ok(false);
        }
        let Some(token) = taken(&mut self.waiting, first_ns) else {
            return Ok(false);
        };
        self.has_block = true;
        self.handled = self.handled.saturating_add(1);
        if token.hops != 0 {
            self.abroad.push(Token {
                time_ns: token.time_ns.saturating_add(HOP_NS),
                hops: token.hops.saturating_sub(1),
            })?;
        }
        Ok(true)
    }
}

// Returns the least moment of these tokens, in ns, or the greatest number if there are none.
pub fn least_ns(tokens: &[Token]) -> u64 {
    let mut least_ns = u64::MAX;
    for token in tokens {
        least_ns = least_ns.min(token.time_ns);
    }
    least_ns
}

// Takes a token of this moment, in ns, out of a list.
fn taken(tokens: &mut Vec<Token>, time_ns: u64) -> Option<Token> {
    let place = tokens.iter().position(|token| token.time_ns == time_ns)?;
    if place < tokens.len() {
        Some(tokens.swap_remove(place))
    } else {
        None
    }
}

// Makes groups with tokens, a microsecond apart, that visit a number of groups.
pub fn groups_of(
    alloc: Global,
    groups: u16,
    tokens: u64,
    hops: u64,
) -> Result<Vec<Group>, AllocError> {
    let mut list = Vec::new(alloc);
    for number in 0..groups {
        let mut group = Group::new(alloc, number, groups);
        for token in 0..tokens {
            let time_ns = token.saturating_mul(1000);
            group.waiting.push(Token { time_ns, hops })?;
        }
        list.push(group)?;
    }
    Ok(list)
}
