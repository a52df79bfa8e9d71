//! A run by workers of groups of any kind: threads, and which group gets the next turn, by moments that the workers announce, without a
//! lock and without waiting. Each group belongs to a worker, which gives it turn after turn. In one section of an exchange the group posts
//! what it did, and takes its letters. Then it works on events, as far as it may be ahead of the others.
//!
//! The thread that gives a turn holds the lock of the group meanwhile (`Seats`). For each group the workers announce the moment of what it
//! has to do next (`Moments`). A worker lists its groups that are due in a deque (`Agenda`), and gives them their turns in that order. A
//! worker that finds nothing to do for its own groups looks again. Soon it gives turns to groups of others, whose workers may be off their
//! cores: to one that it steals from the deque of the worker that is furthest behind, or to any that is due. If that is in vain too, it rests
//! until one of its own is due, each time twice as long as before.
//!
//! What is a function of numbers has an exact clause: when a group is due, posts, meets the others or ends its turn (`Report`), how many
//! messages a piece of a turn has (`pieces`) and a turn (`handling`), the order of an agenda (`Agenda`), how long a worker looks (`Looks`), and when a run stands still
//! (`Standstill`). When a thread sees what another wrote has no clause, nor has who steals from whom: a wrong estimate costs a turn or a
//! rollback.
#![tactic(auto)]

mod agenda;
mod apart;
mod common;
mod handling;
mod locking;
mod looks;
mod moments;
mod pieces;
mod report;
mod seat;
mod seats;
mod signals;
mod standstill;
mod tasks;
mod worker;
mod workers;

pub use apart::Apart;
pub use common::Common;
pub use locking::locked_soon;
pub use moments::Moments;
pub use report::Report;
pub use seat::Seat;
pub use tasks::Tasks;
pub use turn_words::{Refusal, TurnRun};
pub use workers::work_all;

/// A group works on events that are less than this later than the least moment of all groups, in ns. A rollback costs more than a section of
/// the exchange. As measured, less than 1 of 1,000 events is undone, as a group also stops at a letter that waits for it.
pub const LEAD_NS: u64 = 8_000;

/// The most messages that a group handles before it announces how far it is.
const PIECE: u32 = 8;

/// A group that has letters for others ends its turn after this many messages, since the others wait for them.
const MOST_WITH_LETTERS: u32 = 32;

/// What a group did goes to the journal after this many messages at the latest; at the end of each turn that leaves letters for others; and
/// at the end of each turn that another worker than its own gave, since that worker may rest, and would keep GVT from all others.
const MOST_UNPOSTED: u32 = 256;

/// The slots of a deque at first.
const SLOTS: usize = 64;

/// A deque that has grown beyond this many slots takes no more groups: thieves that were stopped made it grow, and it never shrinks. A slot
/// takes 32 bytes.
const MOST_SLOTS: usize = 1024;

/// A group that has nothing to do looks at GVT if GVT is further on than this, in ns.
const BEHIND_NS: u64 = 1_000_000;

/// After this many looks in vain, what a group did goes to the journal. When it was posted at each wait, and GVT set there, these were five
/// sections of six in a network of 984 virtual links.
const LOOKS_BEFORE_POST: u64 = 32;

/// A worker that waits for GVT sets it in one of this many looks, and only if the exchange is free: otherwise idle workers would hold the
/// lock, and take its cache line from working ones.
const LOOKS_PER_GVT: u64 = 16;

/// After this many looks in vain a worker gives turns to groups of others, unless that succeeded before: then sooner.
const LOOKS_BEFORE_HELP: u64 = 256;

/// After this many looks in vain, some 50 us, a worker rests. If it let other threads run and looked again, it would lose its place among
/// them: the system counts that as time on its core.
const LOOKS_BEFORE_REST: u64 = 256;

/// How long a worker rests first, in microseconds. It is as long as a wake-up takes. Each rest is twice as long as the one before it, until
/// the worker finds something to do. So on a machine with much other work few workers are awake, and one that is off its core, and has a
/// group that the others wait for, gets its core back sooner.
const FIRST_REST_US: u64 = 50;

/// The most that a worker rests, in microseconds.
const MOST_REST_US: u64 = 2_000;

/// The pauses of the processor that a worker makes before it looks again.
const PAUSES: u32 = 8;

/// The number of tries to take a lock before a worker sleeps, which costs more than the section that it waits for; and the pauses of the
/// processor after each try.
const TRIES: u32 = 128;

const PAUSES_OF_TRY: u32 = 8;

/// The time between two looks of a watch, in microseconds.
const LOOK_US: u64 = 250_000;

/// A run whose GVT is the same in this many looks at it, which is 10 s, stands still: its workers end, and one thread finishes it.
const LOOKS_OF_STANDSTILL: u32 = 40;
