//! Which blocks and inodes of a disk are free, and grants of them to commits.
#![tactic(auto)]

mod fault;
mod grant;
pub mod laws;
mod map;
mod pool;
mod status;

pub use fault::SpaceFault;
pub use grant::{Grant, Need};
pub use map::SpaceMap;
pub use status::Status;
