//! The networks of the rows.
use std::alloc::{AllocError, Global};

// The network of examples/n1.toml: processes 0 ES1, 1 ES2, 2 SW1, 3 ES1>SW1, 4 SW1>ES1, 5 SW1>ES2, 6 ES2>SW1.
const ONE: &str = r#"until_ns = 2000000
seed = 42
[[node]]
name = "ES1"
kind = "es"
port_bytes = 4096
[[node]]
name = "ES2"
kind = "es"
port_bytes = 4096
[[node]]
name = "SW1"
kind = "switch"
port_bytes = 65536
net = "A"
latency_ns = 16000
[[link]]
a = "ES1"
b = "SW1"
mbit = 100
propagation_ns = 100
[[link]]
a = "SW1"
b = "ES2"
mbit = 100
propagation_ns = 100
[[vl]]
id = 1
bag_ms = 1
smax = 64
priority = "low"
policing_jitter_ns = 0
skew_max_ns = 1000000
depth = 16
size = 64
offset_ns = 0
period_ns = 1000000000000
jitter_ns = 0
a = [["ES1", "SW1", "ES2"]]
b = []
"#;

// Each change has its name, the piece that is replaced, and its replacement, in which `;` means the end of a line. `n3` adds a virtual link
// back, and `mixed` one of high priority beside the first, whose offers are drawn. `two` adds network B: process 3 is its switch, 4
// ES1>SW1, 5 SW1>ES1, 6 SW1>ES2, 7 ES2>SW1, 8 ES1>SW2, 9 SW2>ES1, 10 SW2>ES2, 11 ES2>SW2.
const CHANGES: &str =
    r#"n3: b = [] -> b = [];[[vl]];id = 2;bag_ms = 1;smax = 64;priority = "low";policing_jitter_ns = 0;skew_max_ns = 1000000;depth = 16;size = 64;offset_ns = 0;period_ns = 1000000000000;jitter_ns = 0;a = [["ES2", "SW1", "ES1"]];b = []
two: b = [] -> b = [["ES1", "SW2", "ES2"]];[[node]];name = "SW2";kind = "switch";port_bytes = 65536;net = "B";latency_ns = 16000;[[link]];a = "ES1";b = "SW2";mbit = 100;propagation_ns = 100;[[link]];a = "SW2";b = "ES2";mbit = 100;propagation_ns = 100
mixed: b = [] -> b = [];[[vl]];id = 54;bag_ms = 1;smax = 64;priority = "high";policing_jitter_ns = 0;skew_max_ns = 1000000;depth = 16;size = 64;offset_ns = 0;period_ns = 1000000;jitter_ns = 1000;a = [["ES1", "SW1", "ES2"]];b = []
short: until_ns = 2000000 -> until_ns = 6000
brief: until_ns = 2000000 -> until_ns = 1100000
long: until_ns = 2000000 -> until_ns = 10000000
late: offset_ns = 0 -> offset_ns = 1000
often: period_ns = 1000000000000 -> period_ns = 400000
dense: period_ns = 1000000000000 -> period_ns = 1000
narrow: port_bytes = 65536 -> port_bytes = 1518
shallow: depth = 16 -> depth = 1
shared: period_ns = 1000000000000 -> period_ns = 500000;sub = 2
by_frames: smax = 64 -> smax = 100;policing = "frames"
outage: [[vl]] -> [[outage]];from = "ES1";to = "SW1";from_ns = 5760;to_ns = 5761;[[vl]]
outage_before: [[vl]] -> [[outage]];from = "ES1";to = "SW1";from_ns = 0;to_ns = 5760;[[vl]]"#;

// Returns the text of the network with this name; of two names with a plus between, with the changes of both.
pub fn text_of(alloc: Global, names: &str) -> Result<String, AllocError> {
    let (one, other) = names.split_once('+').unwrap_or((names, ""));
    let text = changed(alloc, ONE, one)?;
    changed(alloc, text.as_str(), other)
}

// Returns the text with the change of this name, if one has it.
fn changed(alloc: Global, text: &str, name: &str) -> Result<String, AllocError> {
    let (piece, by) = change_of(name);
    let by = by.replace(alloc, ";", "\n")?;
    text.replace(alloc, piece, by.as_str())
}

// Returns what the change of this name replaces, and its replacement; nothing if no change has the name.
fn change_of(name: &str) -> (&'static str, &'static str) {
    for line in CHANGES.lines() {
        let (label, change) = line.split_once(": ").unwrap_or((line, ""));
        if label == name {
            return change.split_once(" -> ").unwrap_or(("", ""));
        }
    }
    ("", "")
}
