//! What a core knows of a log and of what was flushed as it puts them home at the end of an fsync.
#![tactic(auto)]

pub mod laws;
