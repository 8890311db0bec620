//! One directory's changes, from the logs of all cores.
#![tactic(auto)]

pub mod laws;
mod merging;

pub use merging::merge;
