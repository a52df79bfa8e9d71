//! Runs in which a process waits for another one: while a message is handled, another worker goes on.
mod meeting;
mod steps;

use actor_run::Unwatched;
use meeting::Meeting;
use netdesc::read;
use network::Network;
use std::alloc::Global;
use std::fmt::Write;
use std::sync::Wait;
use std::thread::Threads;
use worker_pool::{Pace, PoolFault, group_number, run, run_summary};

// Two virtual links, there and back: processes 0 ES1, 1 ES2, 2 SW1, 3 ES1>SW1, 4 SW1>ES1, 5 SW1>ES2, 6 ES2>SW1.
const NETWORK: &str = r#"until_ns = 2000000
seed = 42
[[node]]
name = "ES1"
kind = "es"
port_bytes = 4096
[[node]]
name = "ES2"
kind = "es"
port_bytes = 4096
[[node]]
name = "SW1"
kind = "switch"
port_bytes = 65536
net = "A"
latency_ns = 16000
[[link]]
a = "ES1"
b = "SW1"
mbit = 100
propagation_ns = 100
[[link]]
a = "SW1"
b = "ES2"
mbit = 100
propagation_ns = 100
[[vl]]
id = 1
bag_ms = 1
smax = 64
priority = "low"
policing_jitter_ns = 0
skew_max_ns = 1000000
depth = 16
size = 64
offset_ns = 0
period_ns = 1000000000000
jitter_ns = 0
a = [["ES1", "SW1", "ES2"]]
b = []
[[vl]]
id = 2
bag_ms = 1
smax = 64
priority = "low"
policing_jitter_ns = 0
skew_max_ns = 1000000
depth = 16
size = 64
offset_ns = 0
period_ns = 1000000000000
jitter_ns = 0
a = [["ES2", "SW1", "ES1"]]
b = []
"#;

// Whether the call is `run_summary`, as `afdxsim run` makes it, or `run` with one message a turn; the number of workers, and of groups if one
// is asked for; how often a process looks at most whether the other one has begun; two pairs of processes, of which the first waits for the
// second; and a process that takes a letter, and one that handles a message. Then how many groups and workers the run had; how many looked
// in vain, and whether in the journal the first `T` of the one, of its first letter, stands before the first `R` of the other. A process
// for which the gate is called out of order counts as one that looked in vain.
type Row = (
    bool,
    u8,
    Option<u8>,
    u64,
    [(u16, u16); 2],
    u16,
    u16,
    &'static str,
);

// With one worker the process that waits blocks the other one. A process takes a letter before it handles a message. Of seven groups each
// is one process. Of four groups one has ES1 and the line 4, and one ES2 and the line 5. Of three groups one has SW1 with the lines that
// lead to it, one ES1 and the line 4, and one ES2 and the line 5. There two processes of two groups of two wait for each other.
const ROWS: [Row; 8] = [
    (
        false,
        2,
        None,
        100_000_000,
        [(0, 6), (0, 6)],
        6,
        0,
        "7 2: 0 true",
    ),
    (false, 1, None, 4096, [(0, 6), (0, 6)], 6, 0, "7 1: 1 false"),
    (
        true,
        2,
        None,
        100_000_000,
        [(0, 1), (1, 0)],
        0,
        0,
        "7 2: 0 true",
    ),
    (true, 1, None, 4096, [(0, 1), (1, 0)], 0, 0, "7 1: 1 true"),
    (
        true,
        2,
        Some(4),
        100_000_000,
        [(0, 1), (1, 0)],
        0,
        0,
        "4 2: 0 true",
    ),
    (
        true,
        1,
        Some(4),
        4096,
        [(0, 1), (1, 0)],
        0,
        0,
        "4 1: 1 true",
    ),
    (
        true,
        2,
        Some(3),
        100_000_000,
        [(0, 1), (1, 0)],
        0,
        0,
        "3 2: 0 true",
    ),
    (
        true,
        1,
        Some(3),
        4096,
        [(0, 1), (1, 0)],
        0,
        0,
        "3 1: 1 true",
    ),
];

#[test]
fn processes_meet_in_a_run_by_workers(rt: HostRuntime) {
    for row in ROWS {
        let told = told_by(&rt, rt.alloc(), row);
        assert!(rt; told.as_str() == row.7, "{} workers: {told}", row.1);
    }
}

// Writes the results of a run.
fn told_by<T: Threads + Wait + Sync>(rt: &T, alloc: Global, row: Row) -> String {
    let mut told = String::new(alloc);
    match read(alloc, NETWORK) {
        Ok(network) => {
            meet(rt, alloc, &network, row, &mut told);
            drop(network);
        }
        Err(_) => {
            let _ = told.push_str("no network");
        }
    }
    told
}

// Makes the pace that `afdxsim run` makes of these words.
fn meet<T: Threads + Wait + Sync>(
    rt: &T,
    alloc: Global,
    network: &Network,
    row: Row,
    told: &mut String,
) {
    let (is_summary, workers, asked, looks, pairs, taker, runner, _) = row;
    let pace = Pace {
        workers,
        groups: group_number(network, workers, asked),
        turn: if is_summary { 16 } else { 1 },
        window_ns: 1_000_000,
    };
    let gate = Meeting::new(looks, pairs);
    let found = if is_summary {
        tell_summary(rt, alloc, network, pace, &gate, taker, runner, told)
    } else {
        tell_run(rt, alloc, network, pace, &gate, taker, runner, told)
    };
    if let Err(fault) = found {
        let _ = write!(told, "{fault}");
    }
    drop(gate);
}

fn tell_summary<T: Threads + Wait + Sync>(
    rt: &T,
    alloc: Global,
    network: &Network,
    pace: Pace,
    gate: &Meeting,
    taker: u16,
    runner: u16,
    told: &mut String,
) -> Result<(), PoolFault> {
    let found = run_summary(rt, alloc, network, pace, true, gate, &mut Unwatched)?;
    let _ = write!(told, "{} {}: ", found.pace.groups(), found.pace.workers());
    gate.tell(&found.journal, taker, runner, told);
    Ok(())
}

fn tell_run<T: Threads + Wait + Sync>(
    rt: &T,
    alloc: Global,
    network: &Network,
    pace: Pace,
    gate: &Meeting,
    taker: u16,
    runner: u16,
    told: &mut String,
) -> Result<(), PoolFault> {
    let outcome = run(rt, alloc, network, pace, gate)?;
    let _ = write!(told, "{} {}: ", pace.groups, pace.workers);
    gate.tell(&outcome.journal, taker, runner, told);
    Ok(())
}
