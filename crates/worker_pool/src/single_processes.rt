//! Re-exports the exchange of single processes, under the names that a user of this crate expects. A run by workers uses groups
//! (`group_exchange`), and no other file of this crate names what is re-exported here.
pub use process_exchange::{ActorRun, Exchange, Held, Mark, Pairs, collect, post, publish, work};
pub use process_segments::{Of, next_segment, open_network};
