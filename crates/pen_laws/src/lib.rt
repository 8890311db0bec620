//! What a core of the shared table and its pen at the disk agree on, fsync by fsync.
#![tactic(auto)]

pub mod laws;
