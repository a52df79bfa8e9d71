//! The world of a Time Warp run of any actors: all processes with their mail, their floors and GVT, and the six steps, which can be done in
//! any order.
#![tactic(auto)]

mod actor_steps;
mod actors;
mod done;
mod fault;

pub use actors::ActorWorld;
pub use done::Done;
pub use fault::StepFault;
