//! A table of the traffic between each two clusters.
use std::alloc::{AllocError, Global};

/// A number for each two of a number of clusters.
#[derive(Drop)]
pub(crate) struct Matrix {
    side: usize,
    cells: Vec<u64>,
}

impl Matrix {
    /// Makes a table of zeros.
    pub(crate) fn new(alloc: Global, side: usize) -> Result<Self, AllocError> {
        Ok(Matrix {
            side,
            cells: vec![in alloc; 0u64; side.saturating_mul(side)]?,
        })
    }

    /// Returns the number for these two.
    pub(crate) fn at(&self, one: usize, other: usize) -> u64 {
        match self
            .cells
            .get(one.saturating_mul(self.side).saturating_add(other))
        {
            Some(cell) => *cell,
            None => 0,
        }
    }

    /// Adds `more` for these two, in either order.
    pub(crate) fn add(&mut self, one: usize, other: usize, more: u64) {
        self.add_one_way(one, other, more);
        self.add_one_way(other, one, more);
    }

    fn add_one_way(&mut self, one: usize, other: usize, more: u64) {
        if let Some(cell) = self
            .cells
            .get_mut(one.saturating_mul(self.side).saturating_add(other))
        {
            *cell = cell.saturating_add(more);
        }
    }
}
