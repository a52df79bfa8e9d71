//! The orders of the program: a command with its values.

/// A command of the program.
#[derive(Drop)]
pub enum Order {
    /// `check NET`.
    Check(Check),
    /// `seq NET [--trace FILE] [--progress]`.
    Seq(Seq),
    /// `run NET [--workers N] [--groups N] [--turn N] [--window NS] [--journal FILE] [--trace FILE] [--progress]`.
    Run(Run),
    /// `replay NET STEPS`.
    Replay(Replay),
    /// `bounds NET [--contract]`.
    Bounds(Bounds),
}

/// Check a network.
#[derive(Drop)]
pub struct Check {
    /// The path of the network's description.
    pub net: String,
}

/// Run a network on one thread.
#[derive(Drop)]
pub struct Seq {
    /// The path of the network's description.
    pub net: String,
    /// The path of the file for the trace, if one is given.
    pub trace: Option<String>,
    /// Whether error output shows how far the run is.
    pub progress: bool,
}

/// Run a network by Time Warp on several threads.
#[derive(Drop)]
pub struct Run {
    /// The path of the network's description.
    pub net: String,
    /// The number of threads, 1 to 64.
    pub workers: u8,
    /// The number of groups of processes, 1 to 64, if one is given.
    pub groups: Option<u8>,
    /// The most events that a group of processes handles in one turn, 1 to 256.
    pub turn: u16,
    /// How far beyond the GVT that it saw a group of processes may handle events, in ns: 1 to `vlink::LATEST_NS`.
    pub window_ns: u64,
    /// The path of the file for the journal, if one is given.
    pub journal: Option<String>,
    /// The path of the file for the trace, if one is given.
    pub trace: Option<String>,
    /// Whether error output shows how far the run is.
    pub progress: bool,
}

/// Run a network by the steps of a journal.
#[derive(Drop)]
pub struct Replay {
    /// The path of the network's description.
    pub net: String,
    /// The path of the journal's text.
    pub steps: String,
}

/// Compute worst-case bounds of a network.
#[derive(Drop)]
pub struct Bounds {
    /// The path of the network's description.
    pub net: String,
    /// Whether they hold whatever other end systems send.
    pub contract: bool,
}
