//! A disk as the file system sees it: what a read gives now, and what a crash at any moment may leave.
#![tactic(auto)]

mod call;
mod disk;
mod laws;
mod left;
mod memory;
mod steps;

pub use call::{Act, Call};
pub use disk::Disk;
pub use laws::{both_ends_are_moments, counts_rise, moments_are_told};
pub use memory::Memory;
pub use steps::write_and_sync;
