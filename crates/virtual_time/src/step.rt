//! The steps of a parallel run.
/// One step of a parallel run. Numbers identify processes; a number that no process has names none.
#[derive(Clone, Copy, PartialEq, Eq)]
pub enum Step {
    /// The letter number `place`, from 0, of the process's mail goes to the back of its tray.
    Take { process: u32, place: u32 },
    /// The front letter of the process's tray arrives. The process rolls back if the message becomes present or absent.
    Arrive { process: u32 },
    /// The process's first unhandled message is handled.
    Run { process: u32 },
    /// The process's outbox goes to the mail, and its floor is set again.
    Post { process: u32 },
    /// GVT is computed and set.
    Gvt,
    /// The process's oldest done event is committed.
    Commit { process: u32 },
}
