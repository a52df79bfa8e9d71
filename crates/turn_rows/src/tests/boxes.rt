//! What groups of plain lists have for each other.
use super::group::{Group, Token, least_ns};
use std::alloc::AllocError;

// What waits for each group, and from which moment on it may have something to do, in ns.
#[derive(Drop)]
pub struct Boxes {
    pub boxes: Vec<Vec<Token>>,
    pub floors_ns: Vec<u64>,
}

impl Boxes {
    // Returns GVT, in ns.
    pub fn gvt_ns(&self) -> u64 {
        let mut gvt_ns = u64::MAX;
        for floor_ns in &self.floors_ns {
            gvt_ns = gvt_ns.min(*floor_ns);
        }
        for tokens in &self.boxes {
            gvt_ns = gvt_ns.min(least_ns(tokens));
        }
        gvt_ns
    }

    // Sets the floor of a group to its first token.
    fn set_floor(&mut self, group: &Group) {
        if let Some(floor_ns) = self.floors_ns.get_mut(usize::from(group.number)) {
            *floor_ns = group.next_ns();
        }
    }

    // Puts what a group has for the next one into its box.
    pub fn post(&mut self, group: &mut Group) -> Result<(), AllocError> {
        if let Some(tokens) = self.boxes.get_mut(usize::from(group.next())) {
            for token in &group.abroad {
                tokens.push(*token)?;
            }
            group.abroad.clear();
        }
        group.has_block = false;
        self.set_floor(group);
        Ok(())
    }

    // Moves what lies in the box of a group to the group.
    pub fn collect(&mut self, group: &mut Group) -> Result<(), AllocError> {
        if let Some(tokens) = self.boxes.get_mut(usize::from(group.number)) {
            for token in tokens.iter() {
                group.waiting.push(*token)?;
            }
            tokens.clear();
        }
        self.set_floor(group);
        Ok(())
    }
}
