//! What an fsync changes on the disk, from what it has gathered.
#![tactic(auto)]

mod concern;
mod concerning;
mod facts;
mod file_planning;
mod kinds;
pub mod laws;
mod moved;
mod names;
mod nets;
mod planning;
mod plans;
mod touched;

pub use concern::Concern;
pub use concerning::concerned;
pub use file_planning::plan_file;
pub use planning::plan;
pub use plans::FsyncPlan;
pub use touched::file_change;
