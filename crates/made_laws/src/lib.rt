//! What a core made for its fsync, and that it tells of its pair.
#![tactic(auto)]

pub mod laws;
