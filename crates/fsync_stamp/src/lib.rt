//! The stamp of an fsync on the shared table.
#![tactic(auto)]

mod copying;
pub mod laws;
mod stamp;

pub use copying::{Copied, StampedFsync, stamp_with_copy};
pub use stamp::{STAMP_CELLS, stamp_fsync};
