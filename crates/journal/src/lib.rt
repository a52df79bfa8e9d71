//! The journal of a run by workers. Its entries exist in proofs always, and in memory only if they are to be read.
#![tactic(auto)]

mod block;
mod entry;
mod fault;
mod gate;
mod list;
mod table;
mod turn;

pub use block::Block;
pub use entry::Entry;
pub use fault::PoolFault;
pub use gate::Gate;
pub use list::Entries;
pub use table::Table;
