//! The fsync of a file that has an inode, by a core that has seen so.
#![tactic(auto)]

mod flushing;
pub mod laws;

pub use flushing::flush;
