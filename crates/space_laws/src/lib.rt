//! That a map of free space gives grants that serve the plans of fsyncs.
#![tactic(auto)]

pub mod laws;
