//! What an fsync on the shared table gathers: of the nodes that it holds what was flushed of them, and of copies of the cores' logs the
//! changes of each directory in one order.
#![tactic(auto)]

mod flushed;
mod gathering;
mod merging;
mod next;

pub use flushed::flushed_value;
pub use gathering::gather;

/// A stamp that no call has: the last one is below it.
pub const PAST_ALL_STAMPS: u64 = u64::MAX;
