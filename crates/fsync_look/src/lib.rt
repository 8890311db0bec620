//! What an fsync on the shared table looks at: it holds what was flushed of its nodes, and copies of the log of each core what these ask
//! for.
#![tactic(auto)]

mod holding;
mod logs;

pub use holding::hold_nodes;
pub use logs::{copy_log, copy_logs, log_in, take_log};
