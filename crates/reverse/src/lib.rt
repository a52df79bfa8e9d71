//! What can be undone: elements that undo an event by the record that it left, and actors, which also send messages. `actor_law` states
//! when actors form a simulation.
#![tactic(auto)]

mod actor;
mod events;
mod laws;
mod outbound;
mod reversible;
mod rules;
mod sends;

pub use actor::Actor;
pub use events::{act_and_undo, forth_and_back};
pub use laws::actor_law;
pub use outbound::Outbound;
pub use reversible::Reversible;
pub use rules::actor_rules_law;
pub use sends::{MOST_NOTED, MOST_SENT, Sends};
