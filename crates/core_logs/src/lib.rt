//! The logs of all cores: what their calls changed and no fsync has flushed.
#![tactic(auto)]

mod gathering;
pub mod laws;
mod logs;
mod trimming;

pub use logs::CoreLogs;
