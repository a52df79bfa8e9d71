//! The end of a run of groups: one thread that holds the exchange and all groups gives them turns until the world is finished. It returns, by the
//! rank of the world (`ends`): no handle lets it run for ever.
#![tactic(auto)]

mod ending;
mod leaving;
mod placing;
mod turn;

pub use ending::end;
pub use leaving::RowsLeave;
pub use placing::put_in_place;
