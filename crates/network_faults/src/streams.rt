//! The streams that have rows of their own, if each is of a virtual link that is there.
ghost use Rattle.std.specs.Prelude.{◌≡◌, ℕ, ◌==◌, ◌+◌, ◌^◌, ◌<◌, [], List, length, map, IfOk};
ghost use Rattle.std.specs.List.{list_any};
ghost use Rattle.row_types.specs.declared.rows.StreamRow.{StreamRow};
ghost use Rattle.network.specs.Rows.{each};
ghost use Rattle.network.specs.Plan.{stream_plan};
ghost use Rattle.network.specs.Faults.{unknown_at_stream};
ghost use Rattle.network_faults.specs.Lookups.{AreIds};
ghost use Rattle.network_faults.specs.RowLists.{Gives};

use crate::each::{Review, check_each, key_at, row_at};
use crate::unknown::check_keys;
use network::VlStream;
use network_rows::{DescFault, Key, Rows, Section, VlRow};
use row_types::StreamRow;
use std::alloc::{AllocError, Global};
use std::collections::BTreeSet;
use vlink::VlId;

/// Rows of virtual links, with their numbers.
#[derive(Drop)]
struct Ids<'a> {
    vls: &'a [VlRow],
    numbers: BTreeSet<usize>,
    ghost numbered: { AreIds numbers vls.now },
}

impl<'a> Ids<'a> {
    /// Indexes the numbers of these virtual links.
    fn new(alloc: Global, vls: &'a [VlRow]) -> Result<Self, AllocError>
        ensures { IfOk result (λ ids. ids.vls.now ≡ vls.now) }
    {
        let mut numbers = BTreeSet::new(alloc);
        for vl in vls {
            let id = usize::from(vl.link.id.0);
            numbers.insert(id)?;
        }
        Ok(Ids { vls, numbers })
    }

    /// Whether a virtual link has this number.
    fn has(&self, id: VlId) -> bool
        ensures { result ≡ list_any (λ vl. vl.link.id.0 == id.0) self.now.vls.now }
    {
        let number = usize::from(id.0);
        self.numbers.contains(&number)
    }
}

/// Makes the stream of the row number `i`, counted from 0.
fn stream_of(ids: &Ids, i: usize, row: &StreamRow) -> Result<VlStream, DescFault>
    requires { i + 1 < 2 ^ 64 }
    ensures { (earlier : List StreamRow) → length earlier ≡ i →
        Gives (λ stream. stream) result (unknown_at_stream ids.now.vls.now earlier row.now) (stream_plan row.now) }
{
    check_keys(row.has_unknown_key, row_at(Section::Stream, i))?;
    if !ids.has(row.vl) {
        return Err(DescFault::UnknownName(key_at(Section::Stream, i, Key::Vl)));
    }
    Ok(VlStream {
        vl: row.vl,
        stream: row.stream,
    })
}

/// Makes the streams of rows.
#[derive(Drop)]
struct Streams<'a, 'b> {
    ids: &'a Ids<'b>,
}

impl<'a, 'b> Review for Streams<'a, 'b> {
    type Row = StreamRow;

    type Seen = Vec<VlStream>;

    ghost faults = { λ s. unknown_at_stream s.ids.now.vls.now };

    ghost saw = { λ s made rows. made.items ≡ map stream_plan rows };

    fn review(&self, made: &mut Vec<VlStream>, i: usize, row: &StreamRow) -> Result<(), DescFault> {
        let stream = stream_of(self.ids, i, row)?;
        // The check of the loan of `made` has to see the type of optional keys.
        let _optional = row.stream.last_size;
        made.push(stream)?;
        Ok(())
    }
}

/// Makes the streams of these rows, if each key is known and each is of a virtual link that is there.
pub fn number_streams(alloc: Global, made: &mut Vec<VlStream>, rows: &Rows) -> Result<(), DescFault>
    requires none { made.old.items ≡ [] }
    ensures { Gives (λ _. made.new.items) result (each (unknown_at_stream rows.now.vls) rows.now.streams) (map stream_plan rows.now.streams) }
{
    let streams = rows.streams.as_slice();
    if streams.is_empty() {
        return Ok(());
    }
    let ids = Ids::new(alloc, rows.vls.as_slice())?;
    check_each(&Streams { ids: &ids }, made, streams)
}
