//! A trace in segments: its intervals, and the answers of a gathering to segments.
use crate::tests::words::{moment_at, number_at, short_at, tell, tell_number};
use network::Network;
use seqsim::{Unwatched, run};
use std::alloc::{AllocError, Global};
use std::fmt::Write;
use std::mem::forget;
use trace_segments::{Batch, Gather, Segment, SegmentFault, width};
use vlink::{GREATEST_NS, Row, Time};

// Numbers, and the width of an interval of a trace until this many ns. The segment of process 1 of a network for each interval. The answers
// of a gathering of run 7 of two processes until 9 ns to `7:1:0`, which is the segment of that run, that process and that interval without
// rows, one after another. A segment and a batch are written by the moments of their begin and end, and those of their rows.
pub const ROWS: &str = "\
width, 2000000 => 1954
segments n1 1, 0 14 1023 1024 => 0..1954 27356..29310:27720 1998942..2000001 none
gather, 7:0:0 7:0:0 7:0:2 8:0:1 7:2:0 7:0:1 7:1:0 7:1:1 => none Double Gap Stranger Stranger none 0..1 1..2";

pub fn tell_width(script: &str, told: &mut String) {
    tell_number(told, width(moment_at(script, 1)).ns());
}

// Writes the segments of a process of this network.
pub fn tell_segments(
    alloc: Global,
    network: &Network,
    process: u16,
    script: &str,
    told: &mut String,
) {
    if let Ok(found) = run(alloc, network, &mut Unwatched) {
        for word in script.split_whitespace() {
            let interval = number_at(word, 0);
            let cut = segment_of(alloc, &found.rows, 0, process, interval, network.until());
            tell_segment(cut, told);
        }
        forget(found);
    }
}

// Makes the segment of a run and of a process for an interval, of these rows.
fn segment_of(
    alloc: Global,
    rows: &[Row],
    run: u64,
    process: u16,
    interval: u64,
    until: Time,
) -> Result<Option<Segment>, AllocError> {
    if until.ns() >= GREATEST_NS {
        return Ok(None);
    }
    Segment::cut(alloc, rows, run, process, interval, until)
}

fn tell_segment(cut: Result<Option<Segment>, AllocError>, told: &mut String) {
    if let Ok(Some(segment)) = cut {
        tell_rows(segment.from(), segment.to(), segment.rows(), told);
        forget(segment);
    } else {
        tell(told, "none ");
    }
}

pub fn tell_gathered(alloc: Global, script: &str, told: &mut String) {
    if let Ok(mut gather) = Gather::new(alloc, 7, 2, Time::of_known(9)) {
        for word in script.split_whitespace() {
            tell_taken(alloc, &mut gather, word, told);
        }
        forget(gather);
    }
}

fn tell_taken(alloc: Global, gather: &mut Gather, word: &str, told: &mut String) {
    let (run, process, interval) = (number_at(word, 0), short_at(word, 1), number_at(word, 2));
    match segment_of(alloc, &[], run, process, interval, Time::of_known(9)) {
        Ok(Some(segment)) => tell_batch(gather.take(segment), told),
        _ => tell(told, "no interval "),
    }
}

fn tell_batch(answer: Result<Option<Batch>, SegmentFault>, told: &mut String) {
    match answer {
        Ok(Some(batch)) => {
            tell_rows(batch.from(), batch.to(), batch.rows(), told);
            forget(batch);
        }
        Ok(None) => tell(told, "none "),
        Err(fault) => {
            let _ = write!(told, "{fault:?} ");
        }
    }
}

fn tell_rows(from: Time, to: Time, rows: &[Row], told: &mut String) {
    tell_number(told, from.ns());
    tell(told, "..");
    tell_number(told, to.ns());
    for row in rows {
        tell(told, ":");
        tell_number(told, row.message.time.ns());
    }
    tell(told, " ");
}
