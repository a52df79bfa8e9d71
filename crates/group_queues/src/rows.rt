//! The rows of committed events, of which the oldest can leave.
ghost use Rattle.std.specs.Prelude.{◌≡◌, ◌+◌, ◌<◌, ◌≤◌, ℕ, true, false, [], ◌++◌, All, IfSome, OnOk, OnErr, drop, length, map, slice_get, take, vec_capacity, vec_len};
ghost use Rattle.group_queues.specs.Rows.{Sealed};

use std::alloc::{AllocError, Global};
use std::marker::Model;
use std::snapshot::Snapshot;
use vlink::{Row, Time};

/// The rows of committed events. Those that have left exist as snapshots, which have no bytes and are read by proofs alone.
#[derive(Drop)]
pub struct Rows {
    left: Vec<Snapshot<Row>>,
    pub(crate) there: Vec<Row>,
}

impl Model for Rows {
    ghost use Rattle.std.specs.Prelude.{◌++◌, length, map};
    ghost use Rattle.group_queues.specs.Rows.{Sealed};

    ghost Value = { Sealed };

    ghost view = { λ r. record { all = map (λ s. s.value) r.left.items ++ r.there.items; left = length r.left.items } };
}

impl Rows {
    /// Makes an empty list.
    pub fn new(alloc: Global) -> Self
        ensures { result ≡ record { all = []; left = 0 } }
    {
        Rows {
            left: Vec::new(alloc),
            there: Vec::new(alloc),
        }
    }

    /// Returns those that have not left, the oldest first.
    pub fn as_slice(&self) -> &[Row]
        ensures { result.now ≡ drop self.now.left self.now.all }
    {
        &self.there
    }

    /// Lets the oldest rows leave, while they are earlier than the moment. A refusal leaves all as it was.
    pub fn let_go(&mut self, moment: Time) -> Result<(), AllocError>
        ensures all { self.new.all ≡ self.old.all }
        ensures gone { (count : ℕ) × (self.new.left ≡ self.old.left + count) × (count ≤ length (drop self.old.left self.old.all))
            × All (λ row. row.message.time < moment) (take count (drop self.old.left self.old.all)) }
        ensures late { OnOk result (IfSome (slice_get (drop self.new.left self.new.all) 0) (λ row. moment ≤ row.message.time)) }
        ensures unchanged { OnErr result (self.new ≡ self.old) }
    {
        let count = count_before(&self.there, moment);
        self.left.reserve(count)?;
        move_first(&mut self.there, &mut self.left, count);
        Ok(())
    }
}

/// Returns how many of these rows come before the first that is not earlier than the moment.
fn count_before(rows: &[Row], moment: Time) -> usize
    ensures within { result ≤ length rows.now }
    ensures early { All (λ row. row.message.time < moment) (take result rows.now) }
    ensures late { IfSome (slice_get rows.now result) (λ row. moment ≤ row.message.time) }
{
    for place in 0..rows.len() {
        if !is_early(&rows[place], moment) {
            return place;
        }
    }
    rows.len()
}

/// Whether the row is earlier than the moment.
#[inline(always)]
fn is_early(row: &Row, moment: Time) -> bool
    ensures yes { result ≡ true → row.now.message.time < moment }
    ensures no { result ≡ false → moment ≤ row.now.message.time }
{
    row.message.time < moment
}

/// Moves the first `count` rows to the end of `left`, which has room for them.
fn move_first(there: &mut Vec<Row>, left: &mut Vec<Snapshot<Row>>, count: usize)
    requires enough { count ≤ vec_len there.old }
    requires room { vec_len left.old + count ≤ vec_capacity left.old }
    ensures there { there.new.items ≡ drop count there.old.items }
    ensures left { map (λ s. s.value) left.new.items ≡ map (λ s. s.value) left.old.items ++ take count there.old.items }
{
    for place in 0..count {
        left.push_reserved(Snapshot::of(&there[place]));
    }
    there.drain(..count);
}
