//! The world of a Time Warp run of a network: all processes with their mail, their floors and GVT, and the six steps, which can be done in
//! any order. It also replays journals.
#![tactic(auto)]

mod journal;
mod laws;
mod replaying;
mod tables;
mod world;

pub use actor_world::{Done, StepFault};
pub use journal::replay;
pub use laws::world_law;
pub use replaying::Replay;
pub use vlink::Step;
pub use world::World;
