//! The end of an fsync on the shared table: what it does once its commit is durable.
#![tactic(auto)]

mod finishing;
mod trimming;

pub use finishing::{Ending, finish};
pub use trimming::{trim_all, trim_part};
