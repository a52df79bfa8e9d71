//! The offers of a network: the frames that applications offer to the sources of virtual links, in bursts, and when.
#![tactic(auto)]

mod drawing;
mod law;
mod offer_counting;
mod offering;
mod plain;
mod stream;
mod streams;

pub use law::{offers_law, own_law};
pub use offer_counting::offer_count;
pub use offering::offers;
pub use plain::is_plain;
pub use stream::OfferedStream;
