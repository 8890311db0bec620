//! That the marks of a file in memory tell which of its blocks an fsync writes.
#![tactic(auto)]

pub mod laws;
