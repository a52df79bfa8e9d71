//! Rows of single elements.
use crate::tests::playing::play_script;
use crate::tests::words::{byte_at, long_at, number_at, size_at, tell};
use bag_regulator::BagRegulator;
use integrity::Integrity;
use output_port::Port;
use policer::{Account, Measure};
use redundancy::Redundancy;
use std::alloc::Global;
use std::mem::forget;

// An element with its fixed numbers, and its events; then its answers, its state after them, and the states to which undoing the events
// leads back, one after another, up to the first.
//
// A regulator has its BAG in ns, its depth and its sub-virtual links. An account has the greatest frame in bytes, BAG and jitter in ns, and
// behind them `frames` if it counts frames. Redundancy management has the greatest skew in ns, and a port has its bytes.
pub const ROWS: &str = "\
regulator 1000000 2 1, offer@0 offer@10 offer@20 offer@30 => Released 0:0:0 Kept, release@1000000 Kept Dropped | (1 after 0) (1 after 0) (1 after 0) (1 after 0) (0)
regulator 1000000 2 1, offer@0 offer@10 offer@20 release@999999 release@1000000 release@2000000 => Released 0:0:0 Kept, release@1000000 Kept Nothing Released 1:10:1000000, release@2000000 Released 2:20:2000000 | (3 after 2000000) (2 after 1000000) (1 after 0) (1 after 0) (1 after 0) (1 after 0) (0)
regulator 1000000 0 1, offer@0 offer@10 => Released 0:0:0 Dropped | (1 after 0) (1 after 0) (0)
regulator 1000000 16385 1, offer@0 offer@10 => Released 0:0:0 Kept, release@1000000 | (1 after 0) (1 after 0) (0)
regulator 1000000 2 1, offer@0:1 => Dropped | (0) (0)
regulator 1000000 2 2, offer@0:0 offer@10:1 offer@20:0 offer@30:0 offer@40:0 release@1000000 release@2000000 release@3000000 => Released 0:0:0 Kept, release@1000000 Kept Kept Dropped Released 1:10:1000000, release@2000000 Released 2:20:2000000, release@3000000 Released 3:30:3000000 | (4 after 3000000) (3 after 2000000) (2 after 1000000) (1 after 0) (1 after 0) (1 after 0) (1 after 0) (1 after 0) (0)
account 100 1000000 0, 100@0 100@999999 100@1000000 => Passed Refused Passed | (0/100000000@1000000) (99999900/100000000@999999) (0/100000000@0) (100000000/100000000@0)
account 100 1000000 0, 64@0 100@540000 100@0 64@10000000 => Passed Refused Refused Passed | (36000000/100000000@10000000) (90000000/100000000@0) (90000000/100000000@540000) (36000000/100000000@0) (100000000/100000000@0)
account 100 1000000 0, 64@0 64@140000 64@100 64@40 => Passed Refused Refused Refused | (50000000/100000000@40) (50000000/100000000@100) (50000000/100000000@140000) (36000000/100000000@0) (100000000/100000000@0)
account 100 1000000 0, 64@0 64@280000 => Passed Passed | (0/100000000@280000) (36000000/100000000@0) (100000000/100000000@0)
account 100 1000000 0 frames, 64@0 64@640000 64@1000000 => Passed Refused Passed | (0/100000000@1000000) (64000000/100000000@640000) (0/100000000@0) (100000000/100000000@0)
account 1518 128000000 1000000000, => | (1712304000000/1712304000000@0)
account 1518 128000000 1000000000, 1518@0 1518@1000000000000001 => Passed Passed | (1518000000000/1712304000000@1000000000000001) (1518000000000/1712304000000@0) (1712304000000/1712304000000@0)
account 1518 0 0, => none
account 1518 128000001 0, => none
account 1518 1000000 1000000001, => none
integrity, => | none
integrity, 254 255 => Passed Passed | 255 254 none
integrity, 254 1 => Passed Passed | 1 254 none
integrity, 254 2 => Passed Refused | 2 254 none
integrity, 254 0 => Passed Passed | 0 254 none
integrity, 255 1 => Passed Passed | 1 255 none
integrity, 255 2 => Passed Passed | 2 255 none
integrity, 255 0 => Passed Passed | 0 255 none
integrity, 255 3 => Passed Refused | 3 255 none
integrity, 255 255 => Passed Refused | 255 255 none
integrity, 0 1 => Passed Passed | 1 0 none
integrity, 0 2 => Passed Passed | 2 0 none
integrity, 0 255 => Passed Refused | 255 0 none
redundancy 0, => | none
redundancy 1000000000, => | none
redundancy 1000000001, => none
redundancy 1000, 5@100 5@300 => Delivered Duplicate | 5@100 5@100 none
redundancy 1000, 5@100 5@1100 => Delivered Duplicate | 5@100 5@100 none
redundancy 1000, 5@100 5@1101 => Delivered Delivered | 5@1101 5@100 none
redundancy 1000, 250@100 1@300 => Delivered Delivered | 1@300 250@100 none
redundancy 1000, 250@100 122@300 => Delivered Delivered | 122@300 250@100 none
redundancy 1000, 250@100 123@300 => Delivered Duplicate | 250@100 250@100 none
redundancy 1000, 250@100 250@300 => Delivered Duplicate | 250@100 250@100 none
redundancy 1000, 250@100 0@300 => Delivered Duplicate | 250@100 250@100 none
redundancy 1000, 0@100 127@300 => Delivered Delivered | 127@300 0@100 none
redundancy 1000, 0@100 128@300 => Delivered Duplicate | 0@100 0@100 none
port 1518, low:1:1518 low:2:64 high:3:64 free free free free => Started 1 for 123040 Kept Kept Started 3 for 6720 Started 2 for 6720 Idle Nothing | (idle 0) (idle 0) (busy 0) (busy 64) (busy 128) (busy 64) (busy 0) (idle 0)
port 1518, high:0:64 low:1:1518 high:2:64 => Started 0 for 6720 Kept Dropped | (busy 1518) (busy 1518) (busy 0) (idle 0)
port 100, low:1:64 low:2:80 high:1:64 free => Started 1 for 6720 Kept Dropped Started 2 for 8000 | (busy 0) (busy 80) (busy 80) (busy 0) (idle 0)
port 100, low:1:64 high:2:80 free free free => Started 1 for 6720 Kept Started 2 for 8000 Idle Nothing | (idle 0) (idle 0) (busy 0) (busy 80) (busy 0) (idle 0)
port 0, low:1:64 low:2:64 => Started 1 for 6720 Dropped | (busy 0) (busy 0) (idle 0)
port 1048576, low:1:64 low:2:1518 => Started 1 for 6720 Kept | (busy 1518) (busy 0) (idle 0)";

// Writes the answers of an element that is opened so to the script, or `none` if its numbers are beyond the limits.
pub fn tell_element(alloc: Global, label: &str, fixed: &str, script: &str, told: &mut String) {
    match label {
        "regulator" => play_regulator(alloc, fixed, script, told),
        "account" => play_account(alloc, fixed, script, told),
        "integrity" => play_script(alloc, &mut Integrity::default(), script, told),
        "redundancy" => play_redundancy(alloc, fixed, script, told),
        _ => play_port(alloc, fixed, script, told),
    }
}

fn play_regulator(alloc: Global, fixed: &str, script: &str, told: &mut String) {
    let (bag_ns, depth) = (long_at(fixed, 0), long_at(fixed, 1));
    if let Ok(mut regulator) = BagRegulator::new(alloc, bag_ns, depth, byte_at(fixed, 2)) {
        play_script(alloc, &mut regulator, script, told);
        forget(regulator);
    }
}

fn play_account(alloc: Global, fixed: &str, script: &str, told: &mut String) {
    let (smax, bag_ns, jitter_ns) = (size_at(fixed, 0), number_at(fixed, 1), number_at(fixed, 2));
    let measure = if fixed.ends_with("frames") {
        Measure::Frames
    } else {
        Measure::Bytes
    };
    match Account::new(smax, bag_ns, jitter_ns, measure) {
        Some(mut account) => play_script(alloc, &mut account, script, told),
        None => tell(told, "none"),
    }
}

fn play_redundancy(alloc: Global, fixed: &str, script: &str, told: &mut String) {
    match Redundancy::new(number_at(fixed, 0)) {
        Some(mut redundancy) => play_script(alloc, &mut redundancy, script, told),
        None => tell(told, "none"),
    }
}

fn play_port(alloc: Global, fixed: &str, script: &str, told: &mut String) {
    if let Ok(mut port) = Port::new(alloc, long_at(fixed, 0)) {
        play_script(alloc, &mut port, script, told);
        forget(port);
    }
}
