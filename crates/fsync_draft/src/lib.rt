//! The plan of an fsync on the shared table: it is made over what the disk has of the nodes, which is lent out of the values that the core holds.
#![tactic(auto)]

mod alone;
mod drafting;
mod lending;
mod seeing;

pub use alone::draft_alone;
pub use drafting::Draft;
pub use lending::{DraftedFsync, draft_plan, put_back};
