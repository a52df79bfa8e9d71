//! An output port with two priorities: frames wait for one line, within a limit of bytes, and the high ones leave first.
#![tactic(auto)]

mod event;
mod port;
mod strict_priority;

pub use event::{FreeRecord, PortAnswer, PortEvent, PortRecord, Priority, PutRecord};
pub use port::Port;
pub use strict_priority::order;
