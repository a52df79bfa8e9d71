//! The exchange of letters between groups of processes, each group in one hand, and the journal of what they did, over borrowed values: no
//! thread and no lock. A group (`Group`) collects letters, works alone and posts. The `GroupExchange` has letters in transit, floors, GVT
//! and the journal.
#![tactic(auto)]

mod addition;
mod apart;
mod collecting;
mod fits;
mod group;
mod groups;
mod listing;
mod mark;
mod opening;
mod pairs;
mod posting;
mod publishing;
mod reading;
mod run_of;
mod sealed;
mod splitting;
mod standing;
mod steps;
mod working;

pub use addition::Addition;
pub use collecting::collect;
pub use group::Group;
pub use groups::GroupExchange;
pub use mark::{Mark, Standing};
pub use pairs::Pairs;
pub use posting::post;
pub use publishing::publish;
pub use run_of::GroupRun;
pub use steps::Steps;
pub use working::work;
