//! Turns of groups in memory, which pass tokens to each other.
mod boxes;
mod group;
mod passing;

use actor_run::Unwatched;
use group::{Group, groups_of};
use passing::Passing;
use std::alloc::{AllocError, Global};
use std::fmt::Write;
use std::sync::Wait;
use std::thread::Threads;
use turns::{Common, work_all};
use vlink::Time;

// The end of a run, in ns: all tokens are earlier.
const UNTIL_NS: u64 = 1_000_000;

// The number of groups, of workers, and of messages a turn; the window, in ns; the number of tokens of each group at the start, and of
// groups that each of them visits from there; and the fault of each group at its first token, which waits until all groups hold one, if the
// fault is not 0. Then how many tokens each group handled, and how often a thread found a group that another one held; or the fault that is
// returned.
type Row = (u16, u8, u16, u64, u64, u64, [u8; 3], &'static str);

// Each token is handled in its first group, and in each that it visits, which are all groups in turn. So each group handles the same
// number.
const NONE: [u8; 3] = [0, 0, 0];

const ROWS: [Row; 9] = [
    (1, 1, 16, 1_000_000, 5, 3, NONE, "20, shared 0"),
    (3, 1, 4, 100_000, 40, 5, NONE, "240 240 240, shared 0"),
    (3, 2, 1, 5_000, 40, 5, NONE, "240 240 240, shared 0"),
    (3, 3, 16, 1, 10, 2, NONE, "30 30 30, shared 0"),
    (
        4,
        3,
        16,
        1_000_000,
        10,
        9,
        NONE,
        "100 100 100 100, shared 0",
    ),
    (2, 8, 16, 1_000_000, 100, 1, NONE, "200 200, shared 0"),
    (3, 3, 16, 1_000_000, 1, 1, [3, 1, 2], "fault 1"),
    (3, 3, 16, 1_000_000, 1, 1, [1, 2, 3], "fault 1"),
    (3, 3, 16, 1_000_000, 1, 1, [2, 3, 1], "fault 1"),
];

#[test]
fn each_token_is_handled_once_in_each_group(rt: HostRuntime) {
    for row in ROWS {
        match told_by(&rt, rt.alloc(), row) {
            Ok(told) => assert!(rt;
                told.as_str() == row.7,
                "{} groups, {} workers: {told}",
                row.0,
                row.1
            ),
            Err(_) => assert!(rt; false, "no memory"),
        }
    }
}

// Writes the result of a run.
fn told_by<T: Threads + Wait + Sync>(
    rt: &T,
    alloc: Global,
    row: Row,
) -> Result<String, AllocError> {
    let (groups, workers, turn, window_ns, tokens, hops, faults, _) = row;
    let mut told = String::new(alloc);
    let groups = groups_of(alloc, groups, tokens, hops)?;
    let passing = Passing::new(rt, alloc, groups.len(), faults)?;
    let until = Time::new(UNTIL_NS).unwrap_or_default();
    let common = Common::of(alloc, groups, until, workers, turn, window_ns, passing)?;
    let (worked, _watch) = work_all(rt, alloc, &common, Unwatched);
    match worked {
        Ok(()) => {
            let (groups, passing) = common.into_groups(alloc)?;
            tell(&groups, &mut told);
            let _ = write!(told, ", shared {}", passing.shared());
            drop(groups);
            drop(passing);
        }
        Err(fault) => {
            drop(common);
            let _ = write!(told, "fault {}", fault.number);
        }
    }
    Ok(told)
}

// Writes how many tokens each group handled, if each is in its place.
fn tell(groups: &[Group], told: &mut String) {
    for (place, group) in groups.iter().enumerate() {
        if usize::from(group.number) != place {
            let _ = told.push_str("misplaced ");
        }
        let blank = if place == 0 { "" } else { " " };
        let _ = write!(told, "{blank}{}", group.handled);
    }
}
