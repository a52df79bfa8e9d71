//! The exchange of letters between processes that each run alone, and the journal of what they did, over borrowed values: no thread and no
//! lock. A process in hand (`Held`) collects letters, works alone and posts. The `Exchange` has mail, floors, GVT and the journal.
#![tactic(auto)]

mod collecting;
mod entering;
mod exchange;
mod fits;
mod held;
mod mark;
mod opening;
mod pairs;
mod posting;
mod publishing;
mod reading;
mod run_of;
mod sealed;
mod working;

pub use collecting::collect;
pub use exchange::Exchange;
pub use held::Held;
pub use mark::Mark;
pub use pairs::Pairs;
pub use posting::post;
pub use publishing::publish;
pub use run_of::ActorRun;
pub use working::work;
