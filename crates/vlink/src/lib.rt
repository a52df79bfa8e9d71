//! The types that all crates share: moments, virtual links, frames, messages with their order, letters, notes, rows and steps.
#![tactic(auto)]

mod comparing;
mod frame;
mod message;
mod note;
mod numbering;
mod order;
mod process;
mod time;
mod wire;

pub use frame::{Frame, FrameSize, Net, VlId};
pub use message::{Body, Letter, Message};
pub use note::{Cause, Note, Row};
pub use numbering::{next_sn, steps};
pub use order::{compare, message_order_law, order_law};
pub use process::process_number;
pub use time::{GREATEST_NS, LATEST_NS, Time, earlier, moment_limits_law};
pub use virtual_time::{Sign, Step};
pub use wire::{busy_ns, last_bit_ns};
