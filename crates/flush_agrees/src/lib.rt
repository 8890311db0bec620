//! What a core of the shared table and its pen agree on, fsync by fsync, with what the core made and told of each.
#![tactic(auto)]

pub mod laws;
